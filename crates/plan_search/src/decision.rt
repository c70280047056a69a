use crate::plans::Plan;

/// What can be done for the needs of a forest.
#[derive(Debug, Drop)]
pub enum Decision {
    /// They can be kept, by this plan, and by no shorter one.
    Keep(Plan),
    /// They cannot: `entry` is over `needed`, and no renewal leads it to the need of `needed`.
    Unkeepable { entry: u32, needed: u32 },
    /// They can, and by no plan of at most [`LIMIT`](crate::LIMIT) wake-ups.
    TooLong,
}
