//! The loop of `leasekeep serve`: the agent among its neighbours, with one wait a turn.
//!
//! The contract for the layer above: [`Serving::run`] makes turns (`specs/Turns`). Each hands in the answers that are there and the
//! time, sends what the Watch commands, takes one change at most, and waits once: for a sixteenth of the margin at most, within a
//! second and half a minute, and never past the Watch's moment, nor past the neighbours' own. What goes out follows from the inventory,
//! the readings, the answers and the changes alone (`specs/Stages`, `specs/Changes`), and from nothing else
//! ([`nothing_else_is_heard`]); credentials change nothing of it ([`secrets_change_no_turn`]). Turns lead its Watch from one state to
//! the next by what they say ([`a_stretch_is_a_run`]); and all that happens to it from a start on is one run of it, whatever
//! inventories are served ([`a_serving_is_a_run`]), so each law of `watch_laws` holds of it. What a turn calls its neighbours for is in
//! `specs/Calls`: what they are told is what happened; and it is bounded ([`a_turn_is_bounded`]). Before the first turn an agent may wait, so
//! that agents which start together ask apart ([`may_wait`], [`Serving::wait_apart`], `specs/Apart`), and it may ask before a day is
//! over that everything is looked up anew ([`EarlyDay`], `specs/Days`). Begin with `neighbours`, then `turn`.
#![tactic(auto)]

mod apart;
mod change;
mod changing;
mod coming;
mod day;
mod laws;
mod neighbours;
mod reading;
mod resuming;
mod running;
mod sending;
mod serving;
mod taking;
mod turn;
mod waiting;

pub use apart::may_wait;
pub use change::AgentChange;
pub use day::{DAY, EarlyDay};
pub use laws::{
    a_serving_is_a_run, a_stretch_is_a_run, a_turn_is_bounded, nothing_else_is_heard,
    secrets_change_no_turn,
};
pub use neighbours::{AgentAt, Happened, Neighbours};
pub use sending::moment_of;
pub use serving::Serving;
pub use waiting::{MOST_PAUSES, Wait};
