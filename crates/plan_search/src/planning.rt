ghost use Rattle.std.specs.Prelude.{IfOk, MatchOption};
ghost use Rattle.plan_forest.specs.Forest.{end_of};
ghost use Rattle.plan_rule.specs.Unkeepable.{AllKeepable};
ghost use Rattle.plan_needs.specs.Carried.{IsCarried};
ghost use Rattle.plan_search.specs.Decides.{AreBest, Decides, PlanIsTooLong};

use crate::collect::collect;
use crate::decision::Decision;
use crate::falling_short::shortfall;
use crate::fault::PlanFault;
use crate::plans::Plan;
use base_moment::Moment;
use plan_forest::Forest;
use plan_needs::{Carried, carry};
use plan_schedule::{QueueSchedule, Run};
use std::alloc::Global;

/// The decision for the needs of the forest from `start` on. `Keep`: the plan's moments are least and latest, each with its
/// force; with their Asks they keep, by the fewest requests at these moments. `Unkeepable`: the pair of [`shortfall`], and
/// no plan keeps. `TooLong`: some plan keeps, and each that does has more than [`LIMIT`](crate::LIMIT) wake-ups. The only
/// error is lack of memory.
///
/// Source: Vault, "Lease, renew, and revoke"; Vault, "Tokens".
pub fn plan(alloc: Global, forest: &Forest, start: Moment) -> Result<Decision, PlanFault>
    ensures { IfOk result (λ decision. Decides forest.now start decision) }
{
    let carried = carry(alloc, forest, start)?;
    if let Some(pair) = shortfall(forest, &carried, start) {
        return Ok(Decision::Unkeepable {
            entry: pair.entry,
            needed: pair.needed,
        });
    }
    match best_runs(alloc, forest, &carried, start)? {
        None => Ok(Decision::TooLong),
        Some(runs) => Ok(Decision::Keep(Plan::new(start, carried, runs))),
    }
}

/// The runs of the least and latest plan, `None` where it is too long.
fn best_runs(
    alloc: Global,
    forest: &Forest,
    carried: &Carried,
    start: Moment,
) -> Result<Option<Vec<Run>>, PlanFault>
    requires carried { IsCarried forest.now start carried.now }
    requires keepable { AllKeepable forest.now start (end_of forest.now.entries) }
    ensures { IfOk result (λ runs. MatchOption runs (PlanIsTooLong forest.now start) (λ v. AreBest forest.now start v.items)) }
{
    // Its contract says that the forest is one, which the proof needs here.
    let _entries = forest.len();
    let mut schedule = QueueSchedule::new(alloc, forest, carried, start)?;
    Ok(collect(alloc, &mut schedule)?)
}
