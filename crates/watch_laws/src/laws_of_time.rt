ghost use Rattle.watch_laws.specs.Presses.{PressLaw};
ghost use Rattle.watch_laws.specs.Time.{AheadLaw, EarlyLaw};

/// The law of never too early: whatever events come, a renewal of an entry goes out only where a clock found that its time had
/// come, where a round named it, or after a failure, each of them since the answer that told it last.
pub fn early_law()
    ensures { EarlyLaw }
{}

/// The law of grants that are late: however long a renewal waited for its turn, a grant of its entry's own margin and two seconds or
/// more leaves the entry's time two seconds or more after the second in which the request went out.
pub fn ahead_law()
    ensures { AheadLaw }
{}

/// The law of presses: at a clock each entry that is wanted, whose time has come, and that is neither pressed nor out, gets a try,
/// which may go out now, or a second after the entry was last asked. It asks for a renewal where the end is ahead, else for a lookup.
/// So does each entry that a round names and that is not out. No other comes to be pressed, and whoever was pressed and is wanted keeps
/// its try. Of one that is wanted no more, no more is left than the lookup that it owes.
pub fn press_law()
    ensures { PressLaw }
{}
