//! What a running agent keeps on a disk: a keeper beside its disk and the paths of its files.
//!
//! The contract for the layers above: [`State::open`] serves FILE, or its last good copy, with every acknowledged change;
//! [`State::take`] is done only once the change is on the disk; [`State::settle`] makes FILE and the journal one file. That the journal
//! holds on the disk, and that what is kept is what FILE and the journal give together, is so of every [`State`]. Begin with `paths` and
//! `specs/States`, then `state`.
#![tactic(auto)]

mod fault;
mod keeper;
mod laws;
mod noting;
mod opening;
mod paths;
mod reading;
mod recovering;
mod settling;
mod state;
mod table;

pub use fault::{OpenFault, PathsFault, SettleWhy, TableFault};
pub use keeper::StateKeeper;
pub use laws::what_was_acknowledged_is_served;
pub use opening::{OpenedState, Unopened};
pub use paths::Paths;
pub use reading::{FileRead, read_file};
pub use recovering::{Recovered, recover};
pub use state::{Reloaded, State};
pub use table::read_table;
