//! `leasekeep`: keeps Vault tokens and leases alive with the fewest wake-ups. The program over `plan_commands` and `tick_commands`, of
//! the agent over `agent_house`, and of its commands over `program_calls`: files, standard streams and the exit status. What its words
//! ask is read in `program_commands`.
#![tactic(auto)]

use std::process::ExitCode;

mod calling;
mod commands;
mod linting;
mod live;
mod rehearsing;
mod running;
mod serve;
mod system_doors;

fn main(rt: HostRuntime) -> ExitCode {
    ExitCode::from(commands::run(&rt, rt.stdin(), rt.stdout(), rt.stderr()))
}
