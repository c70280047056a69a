ghost use Rattle.plan_commands.specs.ReachRun.{ReachRun};

use crate::deliver::deliver;
use crate::reach_text::reach_text;
use base_device::{Sink, Watched};
use base_moment::Moment;
use program_report::Exit;
use std::alloc::Global;

/// The command `reach`: until when each entry can live. It writes for each entry, by index, the line `NAME UNTIL BY NEED`:
/// UNTIL is the least reach over it, `always` where there is no limit; BY the lowest entry over it whose reach that is,
/// itself where there is no limit; NEED its need, 0 for none. Then `keeps yes` where some plan from `start` on keeps every
/// entry until its need, else `keeps no`. With `dates` moments are written as dates, where they have one; a need of 0 and
/// what lies past [`LAST`](base_moment::LAST) are numbers. Then lines are in columns, below a head, and a line ends with
/// `SHORT` where the entry ends before its need.
///
/// The inventory is judged first (exit 1). Exit 6 comes only where a write of `out` failed, 7 where memory was refused; no
/// other but 0 comes. The whole text is made before the first write.
///
/// Source: Vault, "Lease, renew, and revoke" (maximum TTL); Vault, "Tokens" (a token's end ends what stands under it).
pub fn run_reach<W: Sink, E: Sink>(
    alloc: Global,
    inventory: &[u8],
    start: Moment,
    dates: bool,
    out: &mut W,
    errors: &mut E,
) -> Exit
    ensures { ReachRun inventory.now start dates result (⟦<W as Watched>⟧.change out.old out.new) (⟦<E as Watched>⟧.change errors.old errors.new) }
{
    deliver(reach_text(alloc, inventory, start, dates), out, errors)
}
