ghost use Rattle.plan_schedule.specs.Laws.{ForcesLaw, LowestLaw};

/// The law of forces: where no pair of entries is unkeepable, there is one list of forces. Each of its wake-ups is forced by
/// the pair that it names, and no plan that keeps has fewer wake-ups or any of them later. So the list of a new schedule is
/// that of the least and latest plan. And each wake-up names its force: the lowest entry that is forced there, with the
/// lowest of those whose need is the greatest that this entry carries.
pub fn forces_law()
    ensures forces { ForcesLaw }
    ensures lowest { LowestLaw }
{}
