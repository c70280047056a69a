use vault_inventory::Key;

/// What is legal in an inventory and probably not meant.
#[derive(Clone, Copy, Debug, PartialEq, Eq)]
pub enum Doubt {
    /// Of the inventory as a whole.
    Whole(Whole),
    /// So many entries may fall due in one round, which may take longer than the margin.
    LongRound(u64),
    /// Of the entry at an index.
    Of(u32, EntryDoubt),
}

/// A doubt of the inventory as a whole.
#[derive(Clone, Copy, Debug, PartialEq, Eq)]
pub enum Whole {
    /// There is no entry.
    NoEntries,
    /// No entry has a need.
    NoNeeds,
    /// All needs are past.
    AllPast,
}

/// A doubt of one entry. An index is that of the entry itself or of one over it.
#[derive(Clone, Copy, Debug, PartialEq, Eq)]
pub enum EntryDoubt {
    /// Its name looks like a token's value.
    TokenLike,
    /// The file of its credential may be read or written by others.
    OpenFile,
    /// It was issued after its end.
    Swapped,
    /// The moment at this key is past the year 3000.
    Late(Key),
    /// It ended at this moment, which is past.
    Ended(u64),
    /// The duration at this key is over 90 days and a whole number of thousands.
    Milliseconds(Key, u32),
    /// Its increment is longer than its maximum TTL.
    OverMax(u32, u32),
    /// Its increment differs from its period, beside which it has no effect.
    BesidePeriod,
    /// Neither an increment nor a period is written.
    NoStep,
    /// Its step is under four thirds of the margin.
    NearMargin(u32),
    /// Its need was until this moment, which is past.
    NeedPast(u64),
    /// Neither it nor an entry under it has a need.
    NotNeeded,
    /// It is needed so many seconds past the ceiling of the entry at this index.
    PastCeiling(u32, u64),
    /// The same by the maximum TTL of an entry whose issue a lookup is to tell: so many seconds, or more.
    PastLife(u32, u64),
    /// It is needed past the end of the entry at this index, which cannot be renewed.
    PastEnd(u32),
    /// It is needed always, and the entry at this index lives so many seconds at most, a day or less.
    ShortLife(u32, u64),
}
