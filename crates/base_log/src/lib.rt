//! The log of the agent: its lines, the room in which they wait, and those who follow it.
//!
//! The contract for the layers above: [`LogRoom`] takes a line whole, or drops it whole and counts it; what it gives to a
//! [`LogSink`], which never waits, is what waits in it, in order; and the line that tells how many were dropped stands in their
//! place. A [`Follower`] is a room of its own. Begin with `specs/`, then `room`.
#![tactic(auto)]

mod follower;
mod form;
mod json_form;
mod keys;
mod level;
mod line;
mod memory;
mod room;
mod sink;
mod stdout;
mod text_form;
mod writing;

pub use follower::Follower;
pub use form::Form;
pub use json_form::json_of_line;
pub use level::Level;
pub use line::{LineWord, LogLine};
pub use memory::{MemoryLogSink, SinkAnswer};
pub use room::{FOLLOWER_ROOM, LOG_ROOM, LogRoom};
pub use sink::LogSink;
pub use stdout::StandardOutput;
pub use text_form::text_of_line;
pub use writing::MOST_TRIES;
