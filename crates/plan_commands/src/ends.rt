ghost use Rattle.plan_commands.specs.EndsRun.{EndsRun};

use crate::deliver::deliver;
use crate::ends_text::ends_text;
use base_device::{Sink, Watched};
use base_moment::Moment;
use program_report::Exit;
use std::alloc::Global;

/// The command `ends`: asks every entry of the inventory at each of the moments, and writes the line `NAME END` for each
/// entry, then `keeps yes` where each entry was alive from `start` until its need, else `keeps no`.
///
/// The inventory is judged first (exit 1), then the moments: none may be before `start` or less than the one in front of
/// it (exit 2). The whole text is made before the first write, so these exits leave `out` untouched; so does 7, but for
/// a sink in memory that itself wants memory. Exit 6 comes only where a write of `out` failed. The exits 3, 4 and 5 never
/// come.
pub fn run_ends<W: Sink, E: Sink>(
    alloc: Global,
    inventory: &[u8],
    start: Moment,
    moments: &[Moment],
    out: &mut W,
    errors: &mut E,
) -> Exit
    ensures { EndsRun inventory.now start moments.now result (⟦<W as Watched>⟧.change out.old out.new) (⟦<E as Watched>⟧.change errors.old errors.new) }
{
    deliver(ends_text(alloc, inventory, start, moments), out, errors)
}
