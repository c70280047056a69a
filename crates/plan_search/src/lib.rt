//! The decision: whether the needs of a forest can be kept at all, and by which wake-ups.
//!
//! The contract for the layers above: `plan` gives the least and latest plan with the force of each wake-up, or names a pair
//! that no plan can keep, or answers that each plan is too long (`Decides` of `specs/`). A [`Plan`] holds the wake-ups that
//! are still to come as runs (`Planned`); its `asks` are the Asks of `plan_rule`. `shortfall` names the lowest entry that no
//! renewal leads to a need it carries (`IsShortfall`). Begin with `planning`.
#![tactic(auto)]

mod asks;
mod collect;
mod decision;
mod falling_short;
mod fault;
mod pair;
mod planning;
mod plans;
mod runs;
mod wakes;
mod widest;

pub use asks::asks_before;
pub use decision::Decision;
pub use falling_short::shortfall;
pub use fault::PlanFault;
pub use pair::Shortfall;
pub use plan_schedule::LIMIT;
pub use planning::plan;
pub use plans::Plan;
pub use wakes::Wakes;
pub use widest::{Widest, widest_margin};
