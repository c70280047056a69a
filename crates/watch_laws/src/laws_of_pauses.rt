ghost use Rattle.watch_laws.specs.Failures.{FailedLaw, FailureLaw, StaysLostLaw};
ghost use Rattle.watch_laws.specs.Pauses.{DoubledLaw, LongestLaw, PauseLaw, UnpausedLaw};

/// The law of pauses: the longest pause of an entry is a sixteenth of what is left to its end, where that is ahead, and a second at
/// least; half a minute at most after a loss with no more than two margins left, or with an unknown end; and five minutes at most.
pub fn pause_law()
    ensures { PauseLaw }
{}

/// The law of pauses that double: the clock after a failure of an entry lets its try pause for a second, twice as long after each
/// further failure in a row, by whatever answer, and no longer than its longest pause. The longest pause is just as the law of pauses
/// allows: after a loss an unknown end counts as two margins ahead, and where nothing is left, or an entry of unknown end was refused, it
/// is five minutes. No other try begins to pause: not one that was lost and is due again since the broker is back.
pub fn doubled_law()
    ensures longest { LongestLaw }
    ensures doubled { DoubledLaw }
    ensures unpaused { UnpausedLaw }
{}

/// The law of failures: whatever events come, an answer that tells nothing of its entry leaves its try as one that failed, and as lost
/// where none came or the broker was busy; after a lookup that is refused a renewal may go out at once instead, and so may the try to
/// which the broker was busy, a second after its last request, when it is back with that answer. And what was lost is so after the clock
/// that sets its pause, unless it may go out within a second.
pub fn failed_law()
    ensures failed { FailedLaw }
    ensures stays_lost { StaysLostLaw }
{}

/// The law of what follows a failure: a reply that tells nothing leaves the try of its entry with one failure more; no grant counts from
/// its beginning any more; and it is alone where no reply came though others were answered. What it asks next is a lookup after a renewal
/// that was refused, or where the end is not ahead, and else that renewal again, also where a lookup is owed; and a renewal after a lookup,
/// if the end is ahead or unknown, where that was refused or the entry is to be kept alive. What is owed stays so, until it is told or
/// refused.
pub fn failure_law()
    ensures { FailureLaw }
{}
