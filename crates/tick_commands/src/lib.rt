//! The commands that go by ticks, over their files: `rehearse`, whose broker is a table in memory, and `run`, over any exchange.
//!
//! The contract for the program above: the file of an inventory is read, and then the command is the run of `tick_runs` over its
//! bytes; a file that cannot be read is told. The law says that of two inventories that differ in credentials alone a rehearsal
//! writes the same.
//!
//! These few functions are a crate because they stand on both: on the runs, which know bytes and no files, and on
//! `plan_commands`, which says how a command reads its file and when two runs write the same, and knows no broker.
#![tactic(auto)]

mod laws;
mod live;
mod rehearsal;

pub use laws::secrets_change_no_rehearsal;
pub use live::keep_alive;
pub use rehearsal::rehearse;
