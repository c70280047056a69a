//! What an agent keeps of what it is told: its file with the last good copy, the journal of the changes since, and the inventory that
//! both give together.
//!
//! The contract for the layers above: [`Store::open`] serves the file, or its copy, with every acknowledged change in order;
//! [`Store::take`] makes a change, and is done only once the journal has it on the disk; [`Store::settle`] makes the file one that has
//! every change. Begin with `book`, then `store`; the definitions begin with `specs/Handed` and `specs/Books`.
#![tactic(auto)]

mod book;
mod compacting;
mod damaged;
mod entering;
mod fault;
mod handing;
mod laws;
mod opening;
mod records;
mod settling;
mod store;

pub use book::Book;
pub use damaged::{count_damaged, set_damaged_aside};
pub use fault::{FileFault, TakeFault, Unsettled};
pub use handing::handed;
pub use laws::{
    a_crash_while_settling_changes_nothing, a_restart_changes_nothing, changes_are_taken_as_given,
};
pub use store::{OpenedStore, Store};
