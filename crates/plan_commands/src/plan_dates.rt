ghost use Rattle.plan_commands.specs.PlanDates.{PlanDatesRun};

use crate::deliver::deliver;
use crate::plan_dates_text::plan_dates_text;
use base_device::{Sink, Watched};
use base_moment::Moment;
use program_report::Exit;
use std::alloc::Global;

/// The command `plan --dates`: writes what [`run_plan`](crate::run_plan) writes, for people: its lines after the first, with each
/// moment as a date. `plan_check` reads no such text.
///
/// Its exits are those of `run_plan`, and come where they come there.
///
/// Source: Vault, "Lease, renew, and revoke"; Vault, "Tokens". RFC 3339, section 5.6, for the dates.
pub fn run_plan_dates<W: Sink, E: Sink>(
    alloc: Global,
    inventory: &[u8],
    start: Moment,
    out: &mut W,
    errors: &mut E,
) -> Exit
    ensures { PlanDatesRun inventory.now start result (⟦<W as Watched>⟧.change out.old out.new) (⟦<E as Watched>⟧.change errors.old errors.new) }
{
    deliver(plan_dates_text(alloc, inventory, start), out, errors)
}
