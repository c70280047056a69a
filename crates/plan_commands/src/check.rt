ghost use Rattle.plan_commands.specs.CheckRun.{CheckRun};

use crate::check_text::check_text;
use crate::deliver::deliver;
use base_device::{Sink, Watched};
use base_moment::Moment;
use program_report::Exit;
use std::alloc::Global;

/// The command `check`: judges a certificate, whoever wrote it, by the inventory's forest, from the certificate's own start.
/// It writes `yes` and gives exit 0 exactly where the text is a certificate over the forest, its start is the one that is
/// `asked` for, if one is, and what it claims holds: its moments are least and latest and with their Asks they keep, or no
/// plan keeps. Else it gives exit 4 and writes `unreadable` with the fault of the first line at fault, `no start` where the
/// certificate is from another start, or `no` with the first test that fails.
///
/// The inventory is judged first (exit 1). The whole text is made before the first write, so this exit leaves `out`
/// untouched; so does 7, but for a sink in memory that itself wants memory. Exit 6 comes only where a write of `out`
/// failed. The exits 2, 3 and 5 never come.
pub fn run_check<W: Sink, E: Sink>(
    alloc: Global,
    inventory: &[u8],
    certificate: &[u8],
    asked: Option<Moment>,
    out: &mut W,
    errors: &mut E,
) -> Exit
    ensures { CheckRun inventory.now certificate.now asked result (⟦<W as Watched>⟧.change out.old out.new) (⟦<E as Watched>⟧.change errors.old errors.new) }
{
    deliver(
        check_text(alloc, inventory, certificate, asked),
        out,
        errors,
    )
}
