ghost use Rattle.watch_laws.specs.Told.{DoneLaw, ForestWrittenLaw, ToldLaw};

/// The law of lookups that tell: the end of the entry is so many seconds as were told after the second in which the request went out,
/// or it never ends; it is as renewable as told, and owes no lookup. Where it is wanted and its time has come, it is renewed at once,
/// in the same try if that was pressed. Else its try ends, unless the end is not ahead: then the entry is looked up again. And so the
/// try of an entry that is granted ends where the end to which the grant leads is ahead, and only the lookup that is owed is left.
pub fn told_law()
    ensures lookups { ToldLaw }
    ensures grants { DoneLaw }
{}

/// The law of what is written: a lookup that tells writes the step of its entry, if that is more than the margin, its ceiling, and that it
/// has no parent where it is told to be an orphan and is a token. A need is set. Nothing else writes the forest. An end that is handed in
/// is believed.
pub fn written_law()
    ensures { ForestWrittenLaw }
{}
