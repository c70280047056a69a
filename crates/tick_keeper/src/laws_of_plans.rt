ghost use Rattle.tick_keeper.specs.LawsOfPlans.{KeptPlanLaw, NoLongerLaw, SomeoneLaw, StillForcedLaw, TailKeptLaw, TickLaw};

/// The law of ticks: until the first moment of the plan in force, planning anew gives the same plan and shortens nothing.
pub fn tick_law()
    ensures { TickLaw }
{}

/// The law that a tick which is not late changes the last moment alone.
pub fn kept_plan_law()
    ensures { KeptPlanLaw }
{}

/// The law of the kept tail: after a round in which each asked entry was told the rule's end and stays renewable, planning
/// anew gives the rest of the plan and shortens nothing.
pub fn tail_kept_law()
    ensures { TailKeptLaw }
{}

/// The law that a round has someone to ask: were nobody asked, the wake-up could be left out.
pub fn someone_law()
    ensures { SomeoneLaw }
{}

/// The law that the forces of a plan stay forces while the plan is kept: until its first moment, and after a round that was
/// answered by the rule. They need not stay the lowest.
pub fn still_forced_law()
    ensures { StillForcedLaw }
{}

/// The law that planning anew gives no more wake-ups than the plan in force has: at a tick, however late, and after a round,
/// whatever its answers. The moment of planning, and the moments of the plan that come after it, keep all needs that are left.
pub fn no_longer_law()
    ensures { NoLongerLaw }
{}
