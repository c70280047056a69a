ghost use Rattle.plan_commands.specs.PlanRun.{PlanRun};

use crate::deliver::deliver;
use crate::plan_text::plan_text;
use base_device::{Sink, Watched};
use base_moment::Moment;
use program_report::Exit;
use std::alloc::Global;

/// The command `plan`: writes the certificate of the inventory's decision from `start` on. Exit 0: the wake-ups are least
/// and latest; where each asks its Asks they keep, and no plan that keeps has fewer. Exit 3: no plan keeps, and the
/// certificate names the pair.
///
/// The inventory is judged first (exit 1). Exit 5: some plan keeps, and each that does has more than
/// [`LIMIT`](plan_search::LIMIT) wake-ups. The whole text is made before the first write, so these exits leave `out`
/// untouched; so does 7, but for a sink in memory that itself wants memory. Exit 6 comes only where a write of `out`
/// failed. The exits 2 and 4 never come.
///
/// Source: Vault, "Lease, renew, and revoke"; Vault, "Tokens".
pub fn run_plan<W: Sink, E: Sink>(
    alloc: Global,
    inventory: &[u8],
    start: Moment,
    out: &mut W,
    errors: &mut E,
) -> Exit
    ensures { PlanRun inventory.now start result (⟦<W as Watched>⟧.change out.old out.new) (⟦<E as Watched>⟧.change errors.old errors.new) }
{
    deliver(plan_text(alloc, inventory, start), out, errors)
}
