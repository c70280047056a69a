//! The Scout: what an agent that stands behind another does beside its Watch. Before an entry's time it looks the entry up, and hands
//! what it hears to the Watch; so it leaves to the agent in front what that one does. One pure value; it reads no clock and sends
//! nothing.
//!
//! [`Scout::look`] gives the lookups that are to go out at a clock, [`Scout::next`] the moment at which one is next due, and
//! [`Scout::answer`] what the Watch is to be told of an answer. The margin of such an agent is `plan_spread`'s `margin_behind`.
//!
//! Begin with `specs/Looking`.
#![tactic(auto)]

mod hearing;
mod looking;
mod scout;
mod second;

pub use scout::{Scout, Seen};
