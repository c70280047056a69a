ghost use Rattle.watch_laws.specs.Changes.{ChangeLaw};

/// The law that a change costs nobody: where another forest is watched, each entry that was keeps its end, its top, its try with its pause,
/// and its request that is out. Of one that was not, or of which the inventory says something else, a lookup is owed at once. Nothing else
/// changes; and the answer to a request whose entry is no more is of no entry.
pub fn change_law()
    ensures { ChangeLaw }
{}
