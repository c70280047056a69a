//! The laws of the Scout, and of an agent that stands behind another: what holds of every list of steps of the machine of `watch_scout`, and
//! of the Watch beside it. Each law is a statement in `specs/` and the contract of a public function without a body, so the check proves it.
//!
//! Begin with `specs/Looks`.
#![tactic(auto)]

mod laws_of_behind;
mod laws_of_looks;
mod laws_of_outages;
mod laws_of_real_ends;

pub use laws_of_behind::{handed_law, kept_law, leave_law};
pub use laws_of_looks::{lanes_law, look_law, once_law};
pub use laws_of_outages::rest_law;
pub use laws_of_real_ends::{behind_law, harmless_law};
