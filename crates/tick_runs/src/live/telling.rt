//! The round of a live run: each answer is told before the next entry is asked.
ghost use Rattle.std.specs.Prelude.{◌≡◌, ◌≢◌, ◌<◌, [], IfOk, IsTrue, OnOk, length, true};
ghost use Rattle.tick_keeper.specs.LawsOfSteps.{IsShaped};
ghost use Rattle.tick_keeper.specs.Refusal.{waits_for};
ghost use Rattle.tick_runs.specs.Hearing.{IsBetweenEvents};
ghost use Rattle.tick_runs.specs.code.Playing.{RoundWaits, TakesAnswer};
ghost use Rattle.tick_runs.specs.Stops.{both};
ghost use Rattle.tick_runs.specs.code.Telling.{TellsOne, TellsRound};

use crate::agent::KeeperAgent;
use crate::agent::answering::{answer, told_next};
use base_device::{Sink, Watched};
use base_moment::Moment;
use program_report::{Stop, send};
use std::alloc::Global;
use tick_keeper::Output;
use vault_exchange::Exchange;

/// The asked entries send their requests at `t`, one after another, and the lines of each answer are written and flushed before
/// the next request; the moment of the next tick, if there is one.
pub(crate) fn tell_round<E: Exchange, W: Sink>(
    alloc: Global,
    agent: &mut KeeperAgent,
    exchange: &mut E,
    t: Moment,
    asked: &[u32],
    out: &mut W,
) -> Result<Option<u64>, Stop>
    requires waits { RoundWaits agent.old.keeper t asked.now }
    requires some { asked.now ≢ [] }
    requires quiet { agent.old.keeper.shortened ≡ [] }
    requires flushed { IsTrue (W.seen out.old).output.is_flushed }
    ensures tells { TellsRound (E.host_port exchange.old) agent.old.credentials t (both agent.old.keeper (E.behind exchange.old)) asked.now result (both agent.new.keeper (E.behind exchange.new)) (⟦<W as Watched>⟧.change out.old out.new) }
    ensures ready { IfOk result (λ _. IsBetweenEvents agent.new.keeper) }
    ensures credentials { agent.new.credentials ≡ agent.old.credentials }
    ensures port { E.host_port exchange.new ≡ E.host_port exchange.old }
{
    let mut next = None;
    for i in asked {
        let output = tell_answer(alloc, agent, exchange, t, *i, out)?;
        next = told_next(next, &output);
    }
    Ok(next)
}

/// The entry `i` sends its request at `t`, where all lines before are flushed; and the lines of its answer are written and
/// flushed.
fn tell_answer<E: Exchange, W: Sink>(
    alloc: Global,
    agent: &mut KeeperAgent,
    exchange: &mut E,
    t: Moment,
    i: u32,
    out: &mut W,
) -> Result<Output, Stop>
    requires within { i < length agent.old.keeper.forest.entries }
    requires waits { waits_for agent.old.keeper.round i ≡ true }
    requires quiet { agent.old.keeper.shortened ≡ [] }
    requires flushed { IsTrue (W.seen out.old).output.is_flushed }
    ensures tells { TellsOne (E.host_port exchange.old) agent.old.credentials t (both agent.old.keeper (E.behind exchange.old)) i result (both agent.new.keeper (E.behind exchange.new)) (⟦<W as Watched>⟧.change out.old out.new) }
    ensures hears { IfOk result (λ output. TakesAnswer i agent.old.keeper output agent.new.keeper) }
    ensures credentials { agent.new.credentials ≡ agent.old.credentials }
    ensures port { E.host_port exchange.new ≡ E.host_port exchange.old }
{
    let mut text = Vec::new(alloc);
    let output = answer(alloc, agent, exchange, t, i, &mut text)?;
    send(out, &text)?;
    Ok(output)
}
