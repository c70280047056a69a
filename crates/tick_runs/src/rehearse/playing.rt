//! The wake-ups of a run, one after another, with their lines.
ghost use Rattle.std.specs.Prelude.{◌≡◌, ◌++◌, List, None, Option, Some, ℕ};
ghost use Rattle.vault_exchange.specs.Exchanges.{Behind};
ghost use Rattle.tick_runs.specs.Text.{done_text};
ghost use Rattle.tick_runs.specs.Hearing.{IsBetweenEvents};
ghost use Rattle.tick_runs.specs.code.Playing.{Finishes, LastPlays, MayCome, Plays};
ghost use Rattle.tick_runs.specs.Stops.{both};

use crate::agent::KeeperAgent;
use crate::agent::lines::push_done;
use crate::rehearse::waking::{open, wake};
use base_device::{Sink, Watched, write_all};
use broker_memory::MemoryExchange;
use program_report::{Stop, send};
use std::alloc::Global;

/// The most wake-ups of a rehearsal.
pub const MOST_WAKES: u64 = 100000;

/// Plays a run from a tick at `start`, writes these lines before and the run's lines as it goes, wake-up by wake-up, and
/// flushes them at the end.
pub(crate) fn play<W: Sink>(
    alloc: Global,
    agent: &mut KeeperAgent,
    exchange: &mut MemoryExchange,
    start: u64,
    lines: &[u8],
    out: &mut W,
) -> Result<(), Stop>
    requires ready { IsBetweenEvents agent.old.keeper }
    requires comes { MayCome agent.old.keeper.last (Some start) }
    ensures { Plays agent.old.credentials (both agent.old.keeper (Some exchange.old)) start lines.now result (both agent.new.keeper (Some exchange.new)) (⟦<W as Watched>⟧.change out.old out.new) }
{
    write_all(out, lines)?;
    let mut due = start;
    let mut requests = 0;
    for wakes in 0..MOST_WAKES {
        let mut text = Vec::new(alloc);
        let Some(woken) = wake(alloc, agent, exchange, due, &mut text)? else {
            return finish(alloc, wakes, requests, text, out);
        };
        write_all(out, &text)?;
        requests += woken.requests;
        let Some(next) = woken.next else {
            return finish(alloc, wakes + 1, requests, Vec::new(alloc), out);
        };
        due = next;
    }
    last(alloc, agent, due, requests, out)
}

/// After the last wake-up that a run may have: its end, or that it would have another.
fn last<W: Sink>(
    alloc: Global,
    agent: &mut KeeperAgent,
    due: u64,
    requests: u64,
    out: &mut W,
) -> Result<(), Stop>
    requires ready { IsBetweenEvents agent.old.keeper }
    requires comes { MayCome agent.old.keeper.last (Some due) }
    ensures { (cs : List (List ℕ)) (behind : Option Behind) → LastPlays cs behind agent.old.keeper due requests result agent.new.keeper (⟦<W as Watched>⟧.change out.old out.new) }
{
    let mut text = Vec::new(alloc);
    match open(alloc, agent, due, &mut text)? {
        None => finish(alloc, MOST_WAKES, requests, text, out),
        Some(_) => {
            out.flush()?;
            Err(Stop::TooLong)
        }
    }
}

/// Writes the last lines with the line `done`, and flushes.
fn finish<W: Sink>(
    alloc: Global,
    wakes: u64,
    requests: u64,
    text: Vec<u8>,
    out: &mut W,
) -> Result<(), Stop>
    ensures { Finishes (text.items ++ done_text wakes requests) result (⟦<W as Watched>⟧.change out.old out.new) }
{
    let mut text = text;
    push_done(alloc, wakes, requests, &mut text)?;
    send(out, &text)
}
