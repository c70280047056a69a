//! `minibroker`: a small broker on 127.0.0.1 or a UNIX socket for tests and rehearsals. The program over `broker_table`:
//! words, a file, sockets, standard streams and the exit status.
#![tactic(auto)]

use std::process::ExitCode;

mod connections;
mod parser;
mod run;
mod serving;
mod sockets;
mod words;

fn main(rt: HostRuntime) -> ExitCode {
    ExitCode::from(run::run(&rt, rt.stdin(), rt.stderr()).code())
}
