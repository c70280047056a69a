//! The independent checker: whether what a certificate claims of a forest holds.
//!
//! The contract for the layers above: `check` answers what a walk over the wake-ups that the runs mean answers, wake-up by
//! wake-up (`IsAnswer` of `specs/`), and its Yes says that they are least and latest, or that no plan keeps (`yes_law`).
//! It costs the runs, and the entries times the logarithm of the runs, whatever the number of wake-ups, and calls nothing of
//! the planner. Begin with `checker`.
#![tactic(auto)]

mod answer;
mod bound;
mod checker;
mod gap_tree;
mod gaps;
mod kept;
mod laws;
mod rising_runs;
mod walk;

pub use answer::{Answer, Cause, CheckFault};
pub use checker::check;
pub use laws::{answer_law, forced_test_law, kept_law, written_law, yes_law};
pub use plan_rule::LIMIT;
