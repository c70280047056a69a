ghost use Rattle.plan_rule.specs.LawsOfRounds.{FewestRequestsLaw, FewestTimesLaw, LaterStartLaw, SameAsksLaw, SameRequestsLaw, TailLaw};

/// The law of later starts: moments that are least and latest from a start are so from each later start that comes after
/// none of them. Until the first of them no end changes, so the plans that keep from either start are the same.
pub fn later_start_law()
    ensures { LaterStartLaw }
{}

/// The law that the Asks at a moment are the same from every start that does not come after it: an entry that is alive
/// then ends after every need at or before that moment, so only later needs decide.
pub fn same_asks_law()
    ensures { SameAsksLaw }
{}

/// The law that a list of moments with its Asks is the same plan from every start that comes after none of them.
pub fn same_requests_law()
    ensures { SameRequestsLaw }
{}

/// The law of the tail: after the round of the first moment, with its Asks, the moments that are left are least and latest
/// from that round on. Any plan that keeps from there, put after the round, is a plan that keeps from the start.
pub fn tail_law()
    ensures { TailLaw }
{}

/// The law of fewest times: no plan that keeps asks an entry at fewer of its wake-ups than the Asks at the same moments
/// do. Asking later never gives an earlier end, and an entry that the Asks ask cannot wait for the next wake-up.
pub fn fewest_times_law()
    ensures { FewestTimesLaw }
{}

/// The law of fewest requests: no plan that keeps makes fewer requests than the Asks at the same moments do.
pub fn fewest_requests_law()
    ensures { FewestRequestsLaw }
{}
