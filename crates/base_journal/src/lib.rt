//! A journal: records that hold over a crash at any moment, each a line of text whose meaning a crate above knows.
//!
//! The contract for the layers above: `specs/Records.antt` says for which records a file stands, and each call of [`Journal`]
//! says what a crash at any moment in it may leave.
#![tactic(auto)]

mod exchange;
mod journal;
mod laws;
mod records;

pub use exchange::COMPACT_AT;
pub use journal::{Journal, MOST_BYTES};
pub use laws::{records_are_read_back, what_was_acknowledged_holds};
pub use records::is_line;
