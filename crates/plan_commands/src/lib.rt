//! The commands about plans, over bytes and devices and over files: what each writes, and with which exit it ends.
//!
//! The contract for the program above: a run's output is the text of its definition in `specs/`, from the bytes of an
//! inventory alone. Begin with `plan` and `check`: the headline stands in their contracts (`PlanRun`, `CheckRun`), over
//! `specs/Running`, which says for all commands how a run ends. No socket, no exchange and no broker is below them.
#![tactic(auto)]

mod bound;
mod check;
mod check_lines;
mod check_text;
mod command;
mod deliver;
mod ends;
mod ends_text;
mod laws;
mod margin;
mod margin_text;
mod no_margin;
mod outcome;
mod plan;
mod plan_dates;
mod plan_dates_text;
mod plan_text;
mod reach;
mod reach_text;
mod renewed;

pub use check::run_check;
pub use command::{PlanCommand, obey, tell_unread};
pub use ends::run_ends;
pub use laws::{
    bound_law, no_secret_shows, own_certificates_are_accepted, secrets_change_no_run, short_law,
    until_law,
};
pub use margin::{MarginQuery, run_margin};
pub use plan::run_plan;
pub use plan_dates::run_plan_dates;
pub use plan_search::LIMIT;
pub use reach::run_reach;
