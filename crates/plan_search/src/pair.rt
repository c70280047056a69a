/// A pair that no plan can keep, by indices: `entry` is over `needed`, and no renewal leads it to the need of `needed`.
#[derive(Clone, Copy, Debug, PartialEq, Eq)]
pub struct Shortfall {
    pub entry: u32,
    pub needed: u32,
}
