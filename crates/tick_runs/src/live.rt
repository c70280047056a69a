//! The live run: lookups, and then event lines as they come.
ghost use Rattle.std.specs.Prelude.{◌≡◌, IfOk, IsTrue, OnOk, length};
ghost use Rattle.std.specs.Result.{IfErr};
ghost use Rattle.tick_runs.specs.Hearing.{IsBetweenEvents};
ghost use Rattle.tick_runs.specs.LiveRun.{EndsEarly, LiveRun, LivesTo, RunIsOpened};

pub(crate) mod hearing;
pub(crate) mod listening;
mod looking;
mod telling;

use crate::agent::KeeperAgent;
use crate::agent::lines::push_short_lines;
use crate::agent::refused::opened;
use crate::live::listening::listen;
use crate::live::looking::look_all_up;
use base_device::{Sink, Source, Streams, Watched};
use base_moment::Moment;
use program_report::{Exit, PROGRAM, Stop, send};
use std::alloc::Global;
use tick_keeper::Keeper;
use vault_exchange::Exchange;
use vault_inventory::{Inventory, read_served};
use vault_served::marks;
use vault_start::need_always;

/// Keeps the entries of an inventory alive: looks each of them up at `start`, takes event lines, and renews over the exchange.
/// `docs/commands/run.md` says what each line means.
///
/// What is written is the keeper's, whatever the exchange: the lines of the replies that came, one after another. Where the
/// broker's table is known, these are the replies of the Broker step.
///
/// An event line is answered, and its lines written and flushed as they come, before `streams.lines` is read again. The exits:
/// `Done`, the events have ended; `Inventory`, the bytes are no inventory; `TooLong`, a plan would have more than 10,000,000
/// wake-ups; `Device`, a lookup got no answer that can be applied, a line is no event line or has no line feed, `streams.lines`
/// failed or passed a limit, or the writer failed; `Memory`. Each but `Done` has its line on `streams.errors`.
pub fn run_live<R: Source, E: Exchange, W: Sink, F: Sink>(
    alloc: Global,
    inventory: &[u8],
    start: Moment,
    exchange: &mut E,
    streams: &mut Streams<R, W, F>,
) -> Exit
    ensures { LiveRun (E.host_port exchange.old) inventory.now start (E.behind exchange.old) result (⟦<R as Watched>⟧.change streams.old.lines streams.new.lines) (⟦<W as Watched>⟧.change streams.old.out streams.new.out) (⟦<F as Watched>⟧.change streams.old.errors streams.new.errors) (E.behind exchange.new) }
{
    match live(
        alloc,
        inventory,
        start,
        &mut streams.lines,
        exchange,
        &mut streams.out,
    ) {
        Ok(()) => Exit::Done,
        Err(stop) => stop.report(PROGRAM, &mut streams.errors),
    }
}

/// The live run without its fault line.
fn live<R: Source, E: Exchange, W: Sink>(
    alloc: Global,
    bytes: &[u8],
    start: Moment,
    events: &mut R,
    exchange: &mut E,
    out: &mut W,
) -> Result<(), Stop>
    ensures { LivesTo (E.host_port exchange.old) bytes.now start (E.behind exchange.old) result (⟦<R as Watched>⟧.change events.old events.new) (⟦<W as Watched>⟧.change out.old out.new) (E.behind exchange.new) }
{
    let served = read_served(alloc, bytes)?;
    let (inventory, notes) = served.into_parts();
    let always = marks(alloc, &notes)?;
    let mut agent = begin(alloc, inventory, &always, start, exchange, out)?;
    listen(alloc, &mut agent, events, exchange, out)
}

/// Looks all entries up, plans from `start`, and writes and flushes the lines of both. The entries that `always` marks are needed
/// as long as they can be kept by what the lookups told.
fn begin<E: Exchange, W: Sink>(
    alloc: Global,
    inventory: Inventory,
    always: &[bool],
    start: Moment,
    exchange: &mut E,
    out: &mut W,
) -> Result<KeeperAgent, Stop>
    requires { length always.now ≡ length inventory.forest.entries }
    ensures early { IfErr result (λ stop. EndsEarly (E.host_port exchange.old) start always.now (record { inventory = inventory; behind = E.behind exchange.old }) stop (⟦<W as Watched>⟧.change out.old out.new) (E.behind exchange.new)) }
    ensures opened { IfOk result (λ agent. RunIsOpened (E.host_port exchange.old) start always.now (record { inventory = inventory; behind = E.behind exchange.old }) agent.credentials agent.keeper (E.behind exchange.new) (⟦<W as Watched>⟧.change out.old out.new)) }
    ensures ready { IfOk result (λ agent. IsBetweenEvents agent.keeper) }
    ensures port { E.host_port exchange.new ≡ E.host_port exchange.old }
    ensures flushed { OnOk result (IsTrue (W.seen out.new).output.is_flushed) }
{
    let mut inventory = inventory;
    look_all_up(alloc, &mut inventory, start, exchange, out)?;
    need_always(alloc, &mut inventory, always, start)?;
    let (forest, credentials) = inventory.into_parts();
    let made = Keeper::new(alloc, forest, start);
    let mut keeper = opened(made)?;
    let short = keeper.take_shortened();
    let mut text = Vec::new(alloc);
    push_short_lines(alloc, keeper.forest(), short.list(), &mut text)?;
    send(out, &text)?;
    Ok(KeeperAgent::new(keeper, credentials))
}
