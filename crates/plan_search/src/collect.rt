ghost use Rattle.std.specs.Prelude.{IfOk, MatchOption};
ghost use Rattle.plan_schedule.specs.Courses.{IsToCome};
ghost use Rattle.plan_search.specs.code.Collecting.{ListIsOverlong, RunsAreWhole};

use plan_schedule::{LIMIT, QueueSchedule, Run};
use std::alloc::{AllocError, Global};

/// The runs of the schedule's list, `None` where it is longer than [`LIMIT`]. The only error is out of memory.
pub(crate) fn collect(
    alloc: Global,
    schedule: &mut QueueSchedule,
) -> Result<Option<Vec<Run>>, AllocError>
    ensures { IfOk result (λ runs. MatchOption runs (ListIsOverlong (IsToCome schedule.old.course)) (λ v. RunsAreWhole (IsToCome schedule.old.course) schedule.old.runs v.items)) }
{
    let mut runs = Vec::new(alloc);
    let mut room = LIMIT + 1;
    while let Some(run) = schedule.next_run(room) {
        if run.count == room {
            return Ok(None);
        }
        room -= run.count;
        runs.push(run)?;
    }
    Ok(Some(runs))
}
