//! Agents that wake up apart: each by its own fixed part of a spread before its time, so that they do not all ask at once.
//!
//! The contract for the layers above: [`part_of`] is the part of the agent of a name, and [`margin_with`] the margin with which it
//! wakes up so much earlier. [`margin_behind`] is the margin of an agent that stands behind another, by a part of its own, and
//! [`margin_in_front`] that of the one in front of it. Begin with `specs/Parts`.
#![tactic(auto)]

mod behind;
mod margin;
mod part;

pub use behind::{margin_behind, margin_by, margin_in_front};
pub use margin::margin_with;
pub use part::{number_of, part_by, part_of};
