use base_moment::Moment;

/// A wake-up with its force: its moment, the index of the entry that would be lost without it, and the index of the entry
/// for whose need that is.
#[derive(Clone, Copy, Debug, PartialEq, Eq)]
pub struct Force {
    pub at: Moment,
    pub entry: u32,
    pub needed: u32,
}
