//! The Watch: every lookup, renewal and wait of the agent in real time, decided by one pure machine. Readings of two clocks
//! and replies go in, commands come out; it reads no clock and sends nothing.
//!
//! Up to `width` requests are out at once, each in a lane of its own: the clock that comes with an answer fills its lane. What a
//! step does is defined in `specs/`: a rule of one entry is a word of the values that it depends on, a state is made anew by such
//! words entry by entry, and each step of the machine is the turn of the definitions (`History.Turn`).
//!
//! While nothing is to be done of any entry (`lull`) a clock goes through no entry.
//!
//! Begin with `event` and `command`, then `track` and `lanes`.
#![tactic(auto)]

mod answers;
mod beginning;
mod change;
mod clock_step;
mod clocks;
mod command;
mod event;
mod fault;
mod lanes;
mod line;
mod line_clock;
mod lines;
mod looked;
mod lull;
mod margins;
mod needs;
mod new_terms;
mod notes;
mod outlook;
mod pauses;
mod press;
mod reading;
mod refusal;
mod renewed;
mod round;
mod sending;
mod settling;
mod shortness;
mod step;
mod track;
mod waiting;
mod wanted;
mod watch;

pub use change::Was;
pub use clocks::{BrokerOffset, Clocks, WallOffset};
pub use command::{Patience, Requests, WatchCommand, WatchOutput, WatchRequest};
pub use event::{Operation, WatchEvent, WatchReply, WatchTerms};
pub use fault::WatchFault;
pub use lanes::{LaneAnswer, Out, Presence};
pub use notes::{BeginReason, Link, Notes};
pub use outlook::Next;
pub use reading::{BrokerSeconds, Millis, READING_MAX, Seconds, WallMillis};
pub use track::{End, Grant, Track, Try};
pub use watch::{WIDTH, WIDTH_MAX, Watch};
