//! Changes of an inventory, each beside what the inventory's file said then.
//!
//! The contract for the layers above: [`Rows::change`] makes a change or names the first of its refusals; [`replay`] makes
//! those of a list that still hold, and where the file says something else since, the file wins; [`text_of`] writes a
//! record as a line, and [`read_record`] reads that line and no other. What was taken from files of credentials is a [`Secret`] each. Begin with
//! `row`, then `change`.
#![tactic(auto)]

mod change;
mod compaction;
mod fault;
mod index;
mod laws;
mod listed;
mod reader;
mod replaying;
mod row;
mod row_text;
mod rows;
mod saying;
mod secret;
mod words;
mod writer;

pub use change::{Change, ChangeKind, Record};
pub use compaction::voids;
pub use fault::ChangeFault;
pub use laws::{compaction_changes_nothing, records_are_read_back, settling_changes_nothing};
pub use listed::{listed_rows, rows_of};
pub use reader::read_record;
pub use replaying::{File, JournalNote, NotMadeReason, Replayed, replay};
pub use row::Row;
pub use rows::Rows;
pub use saying::said;
pub use secret::{Secret, copy_secrets, taken_from};
pub use words::fingerprint;
pub use writer::text_of;
