//! Calls of a running agent over its control socket: what is sent to it, what is read of it, and what the one who called is told.
//!
//! The contract for the program above: [`request_for`] gives the one line that a call sends, or tells why there is none; [`talk`]
//! sends it over a connection and shows the answer, or tells why there is none (`specs/Asking`, `specs/Hearing`, `specs/Showing`);
//! [`follow`] does so where the answer goes on, and shows what comes as it comes (`specs/Following`); [`tell_unreached`] tells that
//! nobody was reached. What standard input held goes into that line alone: what is shown and told is
//! made of the words of the command line and of the agent's answer. Begin with `ask`, then `request`, then `talking`.
#![tactic(auto)]

mod answering;
mod ask;
mod call;
mod connecting;
mod ended;
mod fault;
mod following;
mod hearing;
mod laws;
mod limits;
mod request;
mod talking;
mod telling;
mod unreached;
mod words;

pub use ask::CallWords;
pub use call::AgentCall;
pub use connecting::connect;
pub use ended::Ended;
pub use following::follow;
pub use laws::{limits_of_calls, lines_are_read};
pub use limits::{ANSWER_MAX, INPUT_MAX, PATIENCE};
pub use request::request_for;
pub use talking::talk;
pub use unreached::{Unreached, tell_unreached};
