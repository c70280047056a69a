ghost use Rattle.std.specs.Prelude.{◌≡◌};
ghost use Rattle.std.specs.Result.{IfErr};
ghost use Rattle.program_report.specs.declared.stop.Stop.TheVariants as stops;
ghost use Rattle.tick_commands.specs.RehearseFrom.{RehearseFrom, Rehearses};

use base_device::{Sink, Watched};
use base_files::Inputs;
use broker_memory::MemoryExchange;
use broker_table::Table;
use plan_commands::tell_unread;
use program_report::{Exit, PROGRAM, Stop};
use std::alloc::Global;
use tick_runs::{Script, run_rehearse};
use vault_inventory::{MOST_INVENTORY, read};

/// The command `rehearse`: [`run_rehearse`](tick_runs::run_rehearse) by the script over the bytes of an inventory's file.
///
/// The file is read first, at most [`MOST_INVENTORY`] bytes. Exit 6, with the line of a read: it was not read to its end, or is
/// longer. Exit 7: memory for it was refused. Then `out` is untouched.
pub fn rehearse<I: Inputs, W: Sink, E: Sink>(
    alloc: Global,
    file: &str,
    script: &Script<'_>,
    inputs: &mut I,
    out: &mut W,
    errors: &mut E,
) -> Exit
    ensures { RehearseFrom (I.bytes_at inputs.old file.now) script.now.start script.now.faults.now result (⟦<W as Watched>⟧.change out.old out.new) (⟦<E as Watched>⟧.change errors.old errors.new) }
{
    match inputs.read(alloc, file, MOST_INVENTORY) {
        Ok(inventory) => rehearse_bytes(alloc, inventory.list(), script, out, errors),
        Err(fault) => tell_unread(fault, errors),
    }
}

/// The rehearsal over an exchange of its own, which goes with it: [`run_rehearse`] says what it writes, and which exit comes
/// when.
fn rehearse_bytes<W: Sink, E: Sink>(
    alloc: Global,
    inventory: &[u8],
    script: &Script<'_>,
    out: &mut W,
    errors: &mut E,
) -> Exit
    ensures { Rehearses inventory.now script.now.start script.now.faults.now result (⟦<W as Watched>⟧.change out.old out.new) (⟦<E as Watched>⟧.change errors.old errors.new) }
{
    match nobody(alloc) {
        Ok(mut exchange) => run_rehearse(alloc, inventory, script, out, errors, &mut exchange),
        Err(stop) => stop.report(PROGRAM, errors),
    }
}

/// An exchange with a table that lists nobody.
fn nobody(alloc: Global) -> Result<MemoryExchange, Stop>
    ensures { IfErr result (λ stop. stop ≡ stops.Memory) }
{
    let Ok(inventory) = read(alloc, b"") else {
        return Err(Stop::Memory);
    };
    Ok(MemoryExchange::new(alloc, Table::load(alloc, &inventory)?))
}
