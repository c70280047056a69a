use plan_forest::Listed;

/// A need that no plan could keep and what it was shortened to, in seconds since 1970-01-01T00:00:00Z. Where that is no
/// later than the moment of planning, the entry has ended.
#[derive(Clone, Copy, Debug, PartialEq, Eq)]
pub struct ShortNeed {
    pub entry: u32,
    pub need: u64,
}

/// The needs that a keeper shortened, in the order in which they arose; by index within one planning.
pub type Shortened = Listed<ShortNeed>;
