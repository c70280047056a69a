//! Looking the entries of an inventory up, one after another.
ghost use Rattle.std.specs.Prelude.{◌≡◌, ◌<◌, OnOk, length};
ghost use Rattle.tick_runs.specs.Looking.{LooksAllUp, LooksOneUp, looked_line};
ghost use Rattle.tick_runs.specs.code.Playing.{Finishes};

use crate::agent::lines::push_entry;
use base_device::{Sink, Watched};
use base_moment::{Moment, Text};
use program_report::{Stop, send};
use std::alloc::Global;
use vault_exchange::{Exchange, look_up};
use vault_inventory::Inventory;

/// Looks each entry up at `start`, by index, and writes and flushes its line before the next is looked up.
///
/// Errors: `Broker`, with the name of the first entry whose lookup got no answer that can be applied; `Write`; `Memory`.
pub(crate) fn look_all_up<E: Exchange, W: Sink>(
    alloc: Global,
    inventory: &mut Inventory,
    start: Moment,
    exchange: &mut E,
    out: &mut W,
) -> Result<(), Stop>
    ensures looked { LooksAllUp (E.host_port exchange.old) start (record { inventory = inventory.old; behind = E.behind exchange.old }) result (⟦<W as Watched>⟧.change out.old out.new) inventory.new (E.behind exchange.new) }
    ensures port { E.host_port exchange.new ≡ E.host_port exchange.old }
{
    let mut i = 0;
    while i < inventory.forest().len() {
        look_one_up(alloc, inventory, i, start, exchange, out)?;
        i += 1;
    }
    Ok(())
}

/// Looks the entry `i` up, and writes and flushes its line.
fn look_one_up<E: Exchange, W: Sink>(
    alloc: Global,
    inventory: &mut Inventory,
    i: u32,
    start: Moment,
    exchange: &mut E,
    out: &mut W,
) -> Result<(), Stop>
    requires { i < length inventory.old.forest.entries }
    ensures looked { LooksOneUp (E.host_port exchange.old) start (record { inventory = inventory.old; behind = E.behind exchange.old }) i result (⟦<W as Watched>⟧.change out.old out.new) inventory.new (E.behind exchange.new) }
    ensures port { E.host_port exchange.new ≡ E.host_port exchange.old }
{
    let name = Text::of(alloc, inventory.forest().get(i).name.list())?;
    if !look_up(alloc, exchange, start, inventory, i)? {
        return Err(Stop::Broker(name));
    }
    write_entry(alloc, inventory, i, out)
}

/// Writes and flushes the line of an entry that was looked up.
fn write_entry<W: Sink>(
    alloc: Global,
    inventory: &Inventory,
    i: u32,
    out: &mut W,
) -> Result<(), Stop>
    requires { i < length inventory.now.forest.entries }
    ensures written { Finishes (looked_line inventory.now i) result (⟦<W as Watched>⟧.change out.old out.new) }
    ensures kept { OnOk result ((W.seen out.new).failed_calls ≡ (W.seen out.old).failed_calls) }
{
    let entry = inventory.forest().get(i);
    let mut text = Vec::new(alloc);
    push_entry(alloc, entry.name.list(), entry.end, &mut text)?;
    send(out, &text)
}
