ghost use Rattle.watch_laws.specs.Grants.{CountedLaw, GrantedLaw};
ghost use Rattle.watch_laws.specs.Margins.{InPlanLaw, TimeLaw};

/// The law of the time: in every state the time of an entry comes so long before its end as the margin, or as three quarters of the
/// least that it is granted, where they are less. It has come where the end is unknown, and never comes where there is none.
pub fn time_law()
    ensures { TimeLaw }
{}

/// The law of the plan: in every state an entry is in the plan just where its step, and its last grant if it had any, are four thirds
/// of the margin or more.
pub fn in_plan_law()
    ensures { InPlanLaw }
{}

/// The law of grants that are told: after a grant that is taken, in any state, the last grant of its entry is of the seconds that were
/// told. The entry ends so long after the second from which that counts, and is as renewable as it was told to be.
pub fn granted_law()
    ensures { GrantedLaw }
{}

/// The law of the second from which a grant counts: that in which the entry's try began, if this leaves a time which is more than a
/// second ahead; else, and after a failure, that in which its request went out.
pub fn counted_law()
    ensures { CountedLaw }
{}
