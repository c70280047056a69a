ghost use Rattle.watch_laws.specs.Ends.{NeverPastLaw};

/// The law of ends: with a clock that counts honestly, and replies that were true when the broker read the requests, no end that a
/// watch believes in comes later than the real one, but for what its clock has lagged since the request was read whose reply told
/// that end.
pub fn never_past_law()
    ensures { NeverPastLaw }
{}
