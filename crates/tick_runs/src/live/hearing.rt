//! An event line: the keeper hears it, and whom it then asks is asked.
ghost use Rattle.std.specs.Prelude.{◌≡◌, ◌++◌, ◌<◌, List, Option, ℕ, IsTrue, OnOk, length};
ghost use Rattle.std.specs.Result.{IfErr};
ghost use Rattle.vault_exchange.specs.Exchanges.{Behind};
ghost use Rattle.program_lines.specs.EventLines.{IsEventLineWithin};
ghost use Rattle.tick_runs.specs.Hearing.{HearsTo, IsBetweenEvents, NeedIsInForce};
ghost use Rattle.program_lines.specs.declared.event_line.HeardLine.TheVariants as heards;
ghost use Rattle.tick_runs.specs.Stops.{both};
ghost use Rattle.tick_runs.specs.code.Telling.{StopsNeed};

use crate::agent::KeeperAgent;
use crate::agent::lines::{push_next, push_short_lines, push_sleep};
use crate::agent::refused::stop_of;
use crate::agent::ticking::tick;
use crate::live::telling::tell_round;
use base_device::{Sink, Watched};
use base_moment::Moment;
use program_lines::HeardLine;
use program_report::{Stop, send};
use std::alloc::Global;
use tick_keeper::{Event, Output};
use vault_exchange::Exchange;

/// Hears an event line, and writes and flushes its lines as they come: `wake` before the first request of its round, and the
/// lines of each answer before the next request. Whom the keeper asks, by index, is asked over the exchange before this answers.
///
/// A tick before the last moment is `fault clock-back`, and an unknown name `fault unknown-name`; both change nothing. Errors:
/// `TooLong`, the plan with a new need would have more than 10,000,000 wake-ups; `Write`, `out` failed, and nobody was asked
/// after that; `Memory`.
///
/// What the keeper makes of a reply is said of any exchange. Where the broker's table is known, the reply is that of the Broker
/// step. Call [`Exchange::begin_line`] first, so that the first request may take as long as any; and all that was written to
/// `out` before is flushed.
pub fn hear<E: Exchange, W: Sink>(
    alloc: Global,
    agent: &mut KeeperAgent,
    exchange: &mut E,
    heard: HeardLine,
    out: &mut W,
) -> Result<(), Stop>
    requires ready { IsBetweenEvents agent.old.keeper }
    requires within { IsEventLineWithin (length agent.old.keeper.forest.entries) heard }
    requires flushed { IsTrue (W.seen out.old).output.is_flushed }
    requires begun { E.limit exchange.old ≡ E.longest exchange.old }
    ensures hears { HearsTo (E.host_port exchange.old) agent.old.credentials (both agent.old.keeper (E.behind exchange.old)) heard result (both agent.new.keeper (E.behind exchange.new)) (⟦<W as Watched>⟧.change out.old out.new) }
    ensures count { OnOk result ((W.seen out.new).failed_calls ≡ (W.seen out.old).failed_calls) }
    ensures ready { OnOk result (IsBetweenEvents agent.new.keeper) }
    ensures credentials { agent.new.credentials ≡ agent.old.credentials }
    ensures port { E.host_port exchange.new ≡ E.host_port exchange.old }
{
    match heard {
        HeardLine::Tick(t) => hear_tick(alloc, agent, exchange, t, out),
        HeardLine::Need { i, until } => {
            let mut text = Vec::new(alloc);
            hear_need(alloc, agent, i, until, &mut text)?;
            send(out, &text)
        }
        HeardLine::Unknown => send(out, b"fault unknown-name\n"),
    }
}

/// A new need: its line, after those of the needs that it shortens.
fn hear_need(
    alloc: Global,
    agent: &mut KeeperAgent,
    i: u32,
    until: Moment,
    text: &mut Vec<u8>,
) -> Result<(), Stop>
    requires ready { IsBetweenEvents agent.old.keeper }
    requires within { i < length agent.old.keeper.forest.entries }
    ensures stops { IfErr result (λ stop. (behind : Option Behind) → StopsNeed (both agent.old.keeper behind) (heards.Need i until) stop (both agent.new.keeper behind)) }
    ensures needed { OnOk result ((b : Option Behind) → (lines : List ℕ) × (NeedIsInForce i until (both agent.old.keeper b) (both agent.new.keeper b) lines × (text.new.items ≡ text.old.items ++ lines))) }
    ensures ready { OnOk result (IsBetweenEvents agent.new.keeper) }
    ensures credentials { agent.new.credentials ≡ agent.old.credentials }
{
    let event = Event::Need {
        i,
        until: until.get(),
    };
    match agent.step(event) {
        Ok(_) => {}
        Err(fault) => return Err(stop_of(fault)),
    }
    let short = agent.take_shortened();
    push_short_lines(alloc, agent.forest(), short.list(), text)?;
    text.extend_from_slice(b"planned\n")?;
    Ok(())
}

/// It is `t`: whom the keeper then asks, by index, is asked after the lines that say so.
fn hear_tick<E: Exchange, W: Sink>(
    alloc: Global,
    agent: &mut KeeperAgent,
    exchange: &mut E,
    t: Moment,
    out: &mut W,
) -> Result<(), Stop>
    requires ready { IsBetweenEvents agent.old.keeper }
    requires flushed { IsTrue (W.seen out.old).output.is_flushed }
    ensures hears { HearsTo (E.host_port exchange.old) agent.old.credentials (both agent.old.keeper (E.behind exchange.old)) (heards.Tick t) result (both agent.new.keeper (E.behind exchange.new)) (⟦<W as Watched>⟧.change out.old out.new) }
    ensures count { OnOk result ((W.seen out.new).failed_calls ≡ (W.seen out.old).failed_calls) }
    ensures ready { OnOk result (IsBetweenEvents agent.new.keeper) }
    ensures credentials { agent.new.credentials ≡ agent.old.credentials }
    ensures port { E.host_port exchange.new ≡ E.host_port exchange.old }
{
    if t.get() < agent.keeper().now().get() {
        return send(out, b"fault clock-back\n");
    }
    let mut text = Vec::new(alloc);
    match tick(alloc, agent, t.get(), &mut text)? {
        Output::Ask(asked) => {
            send(out, &text)?;
            let asked = asked.list();
            let next = tell_round(alloc, agent, exchange, t, asked, out)?;
            let mut last = Vec::new(alloc);
            push_next(alloc, next, &mut last)?;
            send(out, &last)
        }
        Output::Sleep(later) => {
            push_sleep(alloc, later, &mut text)?;
            send(out, &text)
        }
        _ => {
            text.extend_from_slice(b"idle\n")?;
            send(out, &text)
        }
    }
}
