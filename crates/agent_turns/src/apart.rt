//! Whether a start may wait, so that agents which start together do not all ask at once.
ghost use Rattle.std.specs.Prelude.{◌≡◌, ◌≤◌, IfOk, IfSome};
ghost use Rattle.agent_turns.specs.Apart.{MayWait, is_far, may_be_due};
ghost use Rattle.plan_forest.specs.declared.forest.TheConstants.{END_MAX};
ghost use Rattle.watch_machine.specs.Clocks.{second_of_wall};

use crate::sending::moment_of;
use agent_standing::{Agent, Told};
use plan_needs::carry;
use std::alloc::{AllocError, Global};

/// Whether nothing would be asked too late by an agent that asked nothing before `until`, in milliseconds of the clock that never steps.
/// So it is where of each entry that is needed after `wall`, in milliseconds since 1970-01-01T00:00:00Z, by itself or by one under it, an
/// end was told in this boot, and its time, the margin before that end, comes later. The only error is lack of memory.
pub fn may_wait(alloc: Global, agent: &Agent, wall: u64, until: u64) -> Result<bool, AllocError>
    ensures { IfOk result (λ may. MayWait agent.now (second_of_wall wall) until may) }
{
    let forest = agent.inventory().forest();
    let Ok(needs) = carry(alloc, forest, moment_of(wall)) else {
        return Err(AllocError);
    };
    for index in 0..forest.len() {
        let told = agent.standing(index).told;
        if may_be_due(needs.need(index), forest.margin(), until, told) {
            return Ok(false);
        }
    }
    Ok(true)
}

/// Whether an entry that is needed until then, where that is not 0, may have to be asked by a moment.
fn may_be_due(need: u64, margin: u32, until: u64, told: Option<Told>) -> bool
    requires { IfSome told (λ t. t.end ≤ END_MAX) }
    ensures { result ≡ may_be_due need margin until told }
{
    need > 0 && !is_far(margin, until, told)
}

/// Whether the time of an end that was told comes after a moment, in milliseconds.
fn is_far(margin: u32, until: u64, told: Option<Told>) -> bool
    requires { IfSome told (λ t. t.end ≤ END_MAX) }
    ensures { result ≡ is_far margin until told }
{
    match told {
        None => false,
        Some(told) => until < told.end.saturating_sub(u64::from(margin)) * 1000,
    }
}
