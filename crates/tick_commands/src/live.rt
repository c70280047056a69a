ghost use Rattle.tick_commands.specs.LiveFrom.{LiveFrom};

use base_device::{Sink, Source, Streams, Watched};
use base_files::Inputs;
use base_moment::Moment;
use plan_commands::tell_unread;
use program_report::Exit;
use std::alloc::Global;
use tick_runs::run_live;
use vault_exchange::Exchange;
use vault_inventory::MOST_INVENTORY;

/// The command `run`: [`run_live`](tick_runs::run_live) over the bytes of an inventory's file, from `start` on, with event lines
/// from `streams.lines` and renewals over `exchange`.
///
/// The file is read first, at most [`MOST_INVENTORY`] bytes. Exit 6, with the line of a read: it was not read to its end, or is
/// longer. Exit 7: memory for it was refused. Then no event is read, and nothing is asked or written.
pub fn keep_alive<I: Inputs, R: Source, X: Exchange, W: Sink, E: Sink>(
    alloc: Global,
    file: &str,
    start: Moment,
    inputs: &mut I,
    exchange: &mut X,
    streams: &mut Streams<R, W, E>,
) -> Exit
    ensures { LiveFrom (I.bytes_at inputs.old file.now) (X.host_port exchange.old) start (X.behind exchange.old) result (⟦<R as Watched>⟧.change streams.old.lines streams.new.lines) (⟦<W as Watched>⟧.change streams.old.out streams.new.out) (⟦<E as Watched>⟧.change streams.old.errors streams.new.errors) (X.behind exchange.new) }
{
    match inputs.read(alloc, file, MOST_INVENTORY) {
        Ok(inventory) => run_live(alloc, inventory.list(), start, exchange, streams),
        Err(fault) => tell_unread(fault, &mut streams.errors),
    }
}
