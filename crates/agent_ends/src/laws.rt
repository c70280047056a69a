ghost use Rattle.agent_ends.specs.Laws.{OnlyToldLaw, ReadBackLaw};

/// The law that the ends of a boot are read back of the text that keeps them.
pub fn ends_are_kept()
    ensures { ReadBackLaw }
{}

/// The law that what is kept of an agent changes only by an answer that tells of an end, or an end that is handed in: so the file misses
/// none, which hears of each answer ([`EndsFile::hear`](crate::EndsFile::hear)).
pub fn only_what_is_told_is_kept()
    ensures { OnlyToldLaw }
{}
