//! The schedule: the wake-ups that no plan can put off, one after the other.
//!
//! The contract for the layers above: a [`Schedule`] stands for the list of the wake-ups to come, and `next` gives its
//! head. The list of a new [`ScanSchedule`] or [`QueueSchedule`] is that of the forces of the forest (`AreForces` of
//! `specs/`), which by `forces_law` is that of the least and latest plan; `next_run` takes it run by run. Begin with
//! `force`.
#![tactic(auto)]

mod fault;
mod groups;
mod laws;
mod line;
mod outlook;
mod queue;
mod scan;
mod schedule;
mod stretch;

pub use fault::ScheduleFault;
pub use laws::forces_law;
pub use plan_rule::{Force, LIMIT, Run};
pub use queue::QueueSchedule;
pub use scan::ScanSchedule;
pub use schedule::Schedule;
