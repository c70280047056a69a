//! A tick, and its lines.
ghost use Rattle.std.specs.Prelude.{◌≡◌, ◌≤◌, IfOk, Some, length};
ghost use Rattle.std.specs.Result.{IfErr};
ghost use Rattle.program_report.specs.declared.stop.Stop.TheVariants as stops;
ghost use Rattle.tick_runs.specs.Closed.{asked_by_output};
ghost use Rattle.tick_runs.specs.Hearing.{IsBetweenEvents};
ghost use Rattle.tick_runs.specs.code.Playing.{MayCome, TickLeaves, Ticks};

use crate::agent::KeeperAgent;
use crate::agent::lines::{push_short_lines, push_wake_line};
use crate::agent::refused::stop_of;
use program_report::Stop;
use std::alloc::Global;
use tick_keeper::{Event, Output};

/// Tells the keeper that it is `t`, and appends the lines of what it then shortened and of whom it asks.
pub(crate) fn tick(
    alloc: Global,
    agent: &mut KeeperAgent,
    t: u64,
    text: &mut Vec<u8>,
) -> Result<Output, Stop>
    requires ready { IsBetweenEvents agent.old.keeper }
    requires comes { MayCome agent.old.keeper.last (Some t) }
    ensures memory { IfErr result (λ stop. stop ≡ stops.Memory) }
    ensures ticks { IfOk result (λ output. Ticks t agent.old.keeper output agent.new.keeper text.old.items text.new.items) }
    ensures leaves { IfOk result (λ output. TickLeaves t output agent.new.keeper) }
    ensures few { IfOk result (λ output. length (asked_by_output output) ≤ 4096) }
    ensures credentials { agent.new.credentials ≡ agent.old.credentials }
{
    let _entries = agent.forest().len();
    let output = match agent.step(Event::Tick(t)) {
        Ok(output) => output,
        Err(fault) => return Err(stop_of(fault)),
    };
    let _round = agent.keeper().open_round();
    let short = agent.take_shortened();
    push_short_lines(alloc, agent.forest(), short.list(), text)?;
    if let Output::Ask(asked) = &output {
        push_wake_line(alloc, agent.forest(), t, asked.list(), text)?;
    }
    Ok(output)
}
