ghost use Rattle.std.specs.Prelude.{◌≡◌, ◌≤◌, false, IfErr, IfOk};
ghost use Rattle.plan_forest.specs.Push.{IsForest};
ghost use Rattle.plan_rule.specs.Asks.{first_of};
ghost use Rattle.plan_rule.specs.Plans.{asks_past};
ghost use Rattle.plan_needs.specs.Carried.{IsCarried};
ghost use Rattle.plan_search.specs.Planned.{to_come};
ghost use Rattle.plan_rule.specs.Runs.{moments_of};
ghost use Rattle.tick_keeper.specs.declared.fault.StepFault.TheVariants.{OutOfMemory};
ghost use Rattle.tick_keeper.specs.Replan.{IsPlanOf};
ghost use Rattle.tick_keeper.specs.Step.{IsDueBy};
ghost use Rattle.tick_keeper.specs.code.Waking.{AreFlags, OpensRound};

use crate::fault::StepFault;
use crate::round::OpenRound;
use base_moment::Moment;
use plan_forest::{Forest, Indices};
use plan_search::Plan;
use std::alloc::{AllocError, Global};

/// What opens a round: the entries to ask, and the round that waits for their answers.
#[derive(Drop)]
pub(crate) struct Opening {
    pub asked: Indices,
    pub round: OpenRound,
}

/// What opens a round at `at`, where no wake-up of the plan comes before; `None` where the first comes after, or there is
/// none. Then it costs nothing that grows with the entries. The only error is out of memory.
pub(crate) fn opening_at(
    alloc: Global,
    forest: &Forest,
    plan: &Plan,
    at: Moment,
) -> Result<Option<Opening>, StepFault>
    requires carried { IsCarried forest.now plan.now.start plan.now.carried }
    requires start { plan.now.start ≤ at }
    requires best { IsPlanOf forest.now at (moments_of (to_come plan.now)) }
    ensures opens { IfOk result (λ opening. OpensRound forest.now at (moments_of (to_come plan.now)) opening) }
    ensures sound { IsForest forest.now }
    ensures memory { IfErr result (λ fault. (fault ≡ OutOfMemory) × IsDueBy at (first_of (moments_of (to_come plan.now)))) }
{
    let entries = forest.len();
    let Some(first) = plan.wakes().next() else {
        return Ok(None);
    };
    if at.get() < first.at.get() {
        return Ok(None);
    }
    let asked = plan.asks(forest, at)?;
    let waiting = flags(alloc, entries, asked.list())?;
    let left = asked.list().len() as u32;
    Ok(Some(Opening {
        asked,
        round: OpenRound {
            at,
            waiting,
            left,
            by_rule: true,
        },
    }))
}

/// For each of so many entries whether it is among these. The only error is out of memory.
fn flags(alloc: Global, entries: u32, asked: &[u32]) -> Result<Vec<bool>, AllocError>
    requires { asks_past entries asked.now ≡ false }
    ensures { IfOk result (λ flags. AreFlags entries asked.now flags.items) }
{
    let mut flags = vec![in alloc; false; entries as usize]?;
    for index in asked {
        flags[*index as usize] = true;
    }
    Ok(flags)
}
