//! That secrets change nothing a broker says: two brokers whose tables differ in credentials alone, and two inventories that do,
//! are alike step by step. `tick_runs` says it of whole runs, over this.
//!
//! Begin with `specs/Alike`, when tables are alike, and `specs/Answers`, when answers are; the law is [`secrets_change_no_step`].
//! There is no code.
#![tactic(auto)]

mod laws;

pub use laws::secrets_change_no_step;
