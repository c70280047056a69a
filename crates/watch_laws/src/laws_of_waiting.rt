ghost use Rattle.watch_laws.specs.Waiting.{MindedLaw, OwedLaw, RetryLaw};
ghost use Rattle.watch_laws.specs.Waits.{WaitLaw};

/// The law of nobody forgotten: after every clock each entry that is wanted, in the plan or not, with an end or without, is out, or
/// is pressed, or its time is ahead. The wait ends later than now, and passes neither the moment from which its try may go out,
/// unless all lanes are taken, nor its time.
pub fn minded_law()
    ensures { MindedLaw }
{}

/// The law of owed lookups: after every clock an entry of which a lookup is owed is out, or has a try, and the wait does not pass the
/// moment from which that may go out, unless all lanes are taken.
pub fn owed_law()
    ensures { OwedLaw }
{}

/// The law of retries: after the clock that follows a failure of an entry, its try may go out again, if it is pressed, within a
/// sixteenth of what is left to its end: a second at least, and half a minute at most after a loss with less than two margins left.
/// Where every request that had no answer had heard of one to another, it waits no longer than the hold that stands.
pub fn retry_law()
    ensures { RetryLaw }
{}

/// The law of the wait: it ends at the first moment at which something is to be done of an entry that is not out (its try may go out, or
/// it is wanted, not pressed, and its time comes), but half a minute from now at the latest, or a quarter of the margin if that is less; in
/// a second, if that is more.
pub fn wait_law()
    ensures { WaitLaw }
{}
