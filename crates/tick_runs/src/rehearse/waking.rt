//! One wake-up: ticks until one asks, and the answers of those who are asked.
ghost use Rattle.std.specs.Prelude.{◌≡◌, ◌≢◌, ◌≤◌, [], IfOk, List, None, Option, Some, ℕ, length};
ghost use Rattle.std.specs.Result.{IfErr};
ghost use Rattle.program_report.specs.declared.stop.Stop.TheVariants as stops;
ghost use Rattle.tick_keeper.specs.LawsOfSteps.{IsShaped};
ghost use Rattle.vault_exchange.specs.Exchanges.{Behind};
ghost use Rattle.tick_runs.specs.Hearing.{IsBetweenEvents};
ghost use Rattle.tick_runs.specs.code.Playing.{AnswersAll, LeavesOpen, MayCome, OpensOrEnds, RoundWaits, RunWakes, asked_of_opened, next_in, requests_in};
ghost use Rattle.tick_runs.specs.Stops.{both};

use crate::agent::KeeperAgent;
use crate::agent::answering::{answer, told_next};
use crate::agent::ticking::tick;
use base_moment::Moment;
use broker_memory::MemoryExchange;
use plan_forest::Indices;
use program_report::Stop;
use std::alloc::Global;
use tick_keeper::Output;
use vault_exchange::Exchange;

/// A wake-up that is opened: its moment, and the entries that are asked.
#[derive(Debug, Drop)]
pub(crate) struct Opened {
    pub at: u64,
    pub asked: Indices,
}

/// What a wake-up came to: how many requests it made, and the moment of the next tick, if there is one.
#[derive(Clone, Copy, Debug, PartialEq, Eq)]
pub(crate) struct Woken {
    pub requests: u64,
    pub next: Option<u64>,
}

/// Goes on from a tick at `due` to the end of the first round from there; `None` where nothing is to be done any more.
pub(crate) fn wake(
    alloc: Global,
    agent: &mut KeeperAgent,
    exchange: &mut MemoryExchange,
    due: u64,
    text: &mut Vec<u8>,
) -> Result<Option<Woken>, Stop>
    requires ready { IsBetweenEvents agent.old.keeper }
    requires comes { MayCome agent.old.keeper.last (Some due) }
    ensures memory { IfErr result (λ stop. stop ≡ stops.Memory) }
    ensures wakes { IfOk result (λ woken. RunWakes agent.old.credentials (both agent.old.keeper (Some exchange.old)) due woken (both agent.new.keeper (Some exchange.new)) text.old.items text.new.items) }
    ensures few { IfOk result (λ woken. requests_in woken ≤ 4096) }
    ensures shaped { IfOk result (λ _. IsShaped agent.old.keeper.forest agent.new.keeper.forest) }
    ensures ready { IfOk result (λ _. IsBetweenEvents agent.new.keeper) }
    ensures comes { IfOk result (λ woken. MayCome agent.new.keeper.last (next_in woken)) }
    ensures credentials { agent.new.credentials ≡ agent.old.credentials }
{
    let Some(opened) = open(alloc, agent, due, text)? else {
        return Ok(None);
    };
    let Some(at) = Moment::new(opened.at) else {
        unreachable!()
    };
    let next = round(alloc, agent, exchange, at, opened.asked.list(), text)?;
    Ok(Some(Woken {
        requests: opened.asked.list().len() as u64,
        next,
    }))
}

/// The asked entries send their requests at `t`, one after another; the moment of the next tick, if there is one.
fn round<E: Exchange>(
    alloc: Global,
    agent: &mut KeeperAgent,
    exchange: &mut E,
    t: Moment,
    asked: &[u32],
    text: &mut Vec<u8>,
) -> Result<Option<u64>, Stop>
    requires waits { RoundWaits agent.old.keeper t asked.now }
    requires some { asked.now ≢ [] }
    requires quiet { agent.old.keeper.shortened ≡ [] }
    ensures memory { IfErr result (λ stop. stop ≡ stops.Memory) }
    ensures answers { IfOk result (λ next. AnswersAll (E.host_port exchange.old) agent.old.credentials t (both agent.old.keeper (E.behind exchange.old)) asked.now next (both agent.new.keeper (E.behind exchange.new)) text.old.items text.new.items) }
    ensures shaped { IfOk result (λ _. IsShaped agent.old.keeper.forest agent.new.keeper.forest) }
    ensures ready { IfOk result (λ _. IsBetweenEvents agent.new.keeper) }
    ensures comes { IfOk result (λ next. MayCome agent.new.keeper.last next) }
    ensures credentials { agent.new.credentials ≡ agent.old.credentials }
{
    let mut next = None;
    for i in asked {
        let output = answer(alloc, agent, exchange, t, *i, text)?;
        next = told_next(next, &output);
    }
    Ok(next)
}

/// Tells the keeper the moments from `t` on, until it asks; `None` where it has nothing to do any more.
pub(crate) fn open(
    alloc: Global,
    agent: &mut KeeperAgent,
    t: u64,
    text: &mut Vec<u8>,
) -> Result<Option<Opened>, Stop>
    requires ready { IsBetweenEvents agent.old.keeper }
    requires comes { MayCome agent.old.keeper.last (Some t) }
    ensures memory { IfErr result (λ stop. stop ≡ stops.Memory) }
    ensures opens { IfOk result (λ opened. (cs : List (List ℕ)) (behind : Option Behind) → OpensOrEnds cs behind agent.old.keeper t opened agent.new.keeper text.old.items text.new.items) }
    ensures leaves { IfOk result (λ opened. LeavesOpen opened agent.new.keeper) }
    ensures few { IfOk result (λ opened. length (asked_of_opened opened) ≤ 4096) }
    ensures taken { IfOk result (λ _. agent.new.keeper.shortened ≡ []) }
    ensures shaped { IfOk result (λ _. IsShaped agent.old.keeper.forest agent.new.keeper.forest) }
    ensures credentials { agent.new.credentials ≡ agent.old.credentials }
{
    match tick(alloc, agent, t, text)? {
        Output::Ask(asked) => Ok(Some(Opened { at: t, asked })),
        Output::Sleep(later) => match tick(alloc, agent, later, text)? {
            Output::Ask(asked) => Ok(Some(Opened { at: later, asked })),
            _ => unreachable!(),
        },
        _ => Ok(None),
    }
}
