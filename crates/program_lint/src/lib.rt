//! `leasekeep lint`: every fault of an inventory as `leasekeep serve` would name it, and what is legal and probably not meant.
//!
//! The contract for the program above: [`judge`] gives exactly the faults for which a start is refused, and the doubts of `vault_lint`
//! (`specs/Judged`). [`lint_bytes`] prints them, and ends with the exit 1 only where `serve` refuses the inventory, and with 0 only where
//! it takes it (`specs/Ends`). Begin with `judged`.
#![tactic(auto)]

mod findings;
mod judged;
mod open_files;
mod run;

pub use judged::{Doubted, Judged, Read, judge};
pub use run::{Linted, lint_bytes, run_lint};
