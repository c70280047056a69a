ghost use Rattle.base_clock.specs.Laws.{JoinedLaw, NoneLaw};

/// The laws of calls: those that follow others are made after them, and where nothing is done none is made. So what is said of
/// one call at a time is said of a run.
pub fn calls_are_joined()
    ensures joined { JoinedLaw }
    ensures none { NoneLaw }
{}
