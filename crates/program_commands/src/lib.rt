//! The commands of `leasekeep`: what its command line takes, with their help, and what its words ask.
//!
//! [`read_command`] gives the [`Job`] that words ask; or the exit, once it was shown or told why they ask nothing. No contract says
//! which words ask what: they are matched by the crate `clap`. Begin with `job`, then `groups`.
#![tactic(auto)]

mod agent_commands;
mod call_commands;
mod described;
mod file_commands;
mod groups;
mod job;
mod parser;
mod words;

pub use groups::overview;
pub use job::{Called, EndsRoom, Job, LintWords, Live, Rehearsed, ServeWords, Socket};
pub use words::read_command;
