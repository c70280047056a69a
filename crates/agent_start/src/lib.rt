//! A start of `leasekeep serve`: what is read and opened before its loop, and what is said or told of that. It stands below the loop and
//! its neighbours, so that both are proved beside each other; what it finds on the system stands below it (`agent_system`).
//!
//! The contract for the layers above: [`make_start`] gives what is served from the start on, or the exit once it was told why nothing is
//! (`specs/Refusals` of `agent_system`): with a state folder the inventory of its ledger (`specs/Starts`), and without one what the bytes of
//! FILE say, with what the files of credentials hold that it names (`specs/Alone`). Of folders of the system nothing is known. Begin with
//! `start`: `folder` has what is served with a state folder, `found` and `modes` what is found there, and `unkept` what is served where
//! that folder cannot be used; `later` opens it once it can be ([`later_with`], `specs/Later`). What is said of a folder that was opened is
//! in `specs/Telling`.
#![tactic(auto)]

mod folder;
mod found;
mod later;
mod modes;
mod start;
mod unkept;

pub use folder::{Folder, FolderPaths, OpenedFolder, start_with};
pub use later::{SystemFolder, later_folder, later_with};
pub use start::{Start, SystemLedger, make_start};
