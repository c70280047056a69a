ghost use Rattle.watch_laws.specs.Absence.{HeldLaw, SparedLaw};
ghost use Rattle.watch_laws.specs.Holds.{HoldLaw};

/// The law of holding back: while the broker is away, a second or more lies between two settings of the hold, which keeps back the
/// tries that failed before.
pub fn held_law()
    ensures { HeldLaw }
{}

/// The law of sparing: while the broker is away, no more tries that failed before, or that only owe a lookup, go out than the width
/// until the hold is set anew.
pub fn spared_law()
    ensures { SparedLaw }
{}

/// The law of the hold: while the broker is away, a clock after a request that had no answer, and heard of none to another, holds later
/// tries back. If the hold so far is over it does so once more: for a second at first, twice as long each time, but never for longer
/// than five minutes, or than an entry that is pressed may pause. Else the hold is so long at most. It ends as the broker comes back.
/// While it is there nothing is held back, whatever it answers: not by an answer that it is busy either.
pub fn hold_law()
    ensures { HoldLaw }
{}
