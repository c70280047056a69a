//! How a run of a program ends and what it says of its end: the exit, the reason, the one line for faults, and the sending
//! of a whole text.
//!
//! The contract for the programs above: [`Stop::report`] writes the fault line of `specs/FaultLine` with the program's name
//! in front, and gives the exit of `specs/Exits`; [`send`] writes and flushes a whole text, or says why only a front of it
//! went out. Begin with `exit`, then `stop`.
#![tactic(auto)]

mod exit;
mod fault_line;
mod program;
mod putting;
mod sending;
mod stop;
mod telling;

pub use exit::Exit;
pub use fault_line::tree_word;
pub use program::PROGRAM;
pub use putting::{put, put_before_colon, put_both};
pub use sending::send;
pub use stop::Stop;
pub use telling::tell;
