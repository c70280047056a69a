//! `plays`: plays a case of an agent that serves, over a clock, a broker, disks, files, guests and a log's reader in memory, of which
//! each does what the case says. It is not installed.
//!
//! The case comes on standard input, and is written again to standard output, where the text of each step that tells what came of it
//! is what came. So a case holds exactly where both are the same. `tests/play-cases` does that with each file of tests/plays, whose
//! README says how a case is written.
#![tactic(auto)]

use std::process::ExitCode;

mod endings;
mod events;
mod folder;
mod guests;
mod outcomes;
mod play;
mod run;
mod running;
mod starts;
mod sweeps;

fn main(rt: HostRuntime) -> ExitCode {
    match run::run(&rt, rt.stdin()) {
        Ok(()) => ExitCode::SUCCESS,
        Err(fault) => {
            let _ = eprintln!(rt; "plays: {fault}");
            ExitCode::from(fault.code())
        }
    }
}
