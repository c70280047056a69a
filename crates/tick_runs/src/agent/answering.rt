//! One asked entry: its request is served, and its reply handed in.
ghost use Rattle.std.specs.Prelude.{◌≡◌, ◌<◌, ◌∷◌, [], IfOk, OnErr, length, true};
ghost use Rattle.std.specs.Result.{IfErr};
ghost use Rattle.tick_keeper.specs.Refusal.{waits_for};
ghost use Rattle.program_report.specs.declared.stop.Stop.TheVariants as stops;
ghost use Rattle.tick_runs.specs.Closed.{told_next};
ghost use Rattle.tick_runs.specs.Hearing.{IsAskLeft};
ghost use Rattle.tick_runs.specs.code.Playing.{Answers, TakesAnswer};
ghost use Rattle.tick_runs.specs.Stops.{both};

use crate::agent::KeeperAgent;
use crate::agent::lines::{push_answer_line, push_short_lines};
use crate::agent::refused::stop_of;
use crate::agent::reply::event_from;
use base_moment::Moment;
use program_report::Stop;
use std::alloc::Global;
use tick_keeper::Output;
use vault_exchange::Exchange;

/// The entry `i` sends its request at `t`, and the keeper is handed what the reply means; the lines of it are appended.
pub(crate) fn answer<E: Exchange>(
    alloc: Global,
    agent: &mut KeeperAgent,
    exchange: &mut E,
    t: Moment,
    i: u32,
    text: &mut Vec<u8>,
) -> Result<Output, Stop>
    requires within { i < length agent.old.keeper.forest.entries }
    requires waits { waits_for agent.old.keeper.round i ≡ true }
    requires quiet { agent.old.keeper.shortened ≡ [] }
    ensures memory { IfErr result (λ stop. stop ≡ stops.Memory) }
    ensures left { OnErr result (IsAskLeft (E.host_port exchange.old) agent.old.credentials t (both agent.old.keeper (E.behind exchange.old)) (i ∷ []) (E.behind exchange.new)) }
    ensures hears { IfOk result (λ output. TakesAnswer i agent.old.keeper output agent.new.keeper) }
    ensures answers { IfOk result (λ output. Answers (E.host_port exchange.old) agent.old.credentials t (both agent.old.keeper (E.behind exchange.old)) i output (both agent.new.keeper (E.behind exchange.new)) text.old.items text.new.items) }
    ensures credentials { agent.new.credentials ≡ agent.old.credentials }
    ensures port { E.host_port exchange.new ≡ E.host_port exchange.old }
{
    let kind = agent.forest().get(i).kind;
    let reply = agent.ask(alloc, exchange, t, i)?;
    let event = event_from(alloc, kind, agent.credential(i), i, &reply)?;
    push_answer_line(alloc, agent.forest(), i, event, &reply, text)?;
    let output = match agent.step(event) {
        Ok(output) => output,
        Err(fault) => return Err(stop_of(fault)),
    };
    let short = agent.take_shortened();
    push_short_lines(alloc, agent.forest(), short.list(), text)?;
    Ok(output)
}

/// The moment of the next tick, once closing a round has told one.
pub(crate) fn told_next(before: Option<u64>, output: &Output) -> Option<u64>
    ensures { result ≡ told_next before output.now }
{
    match output {
        Output::Round { next } => *next,
        _ => before,
    }
}
