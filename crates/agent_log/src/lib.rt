//! The log of `leasekeep serve`: what is said of an agent, line by line, and what its reader and those who follow it are given of that.
//!
//! The contract for the layer above: a [`Desk`] says what happens to the agent (`specs/LogDesk`): what is asked and when the next time is
//! (`specs/LinesOfClocks`, `specs/LinesOfNexts`), what came of a request (`specs/LinesOfAnswers`), what clients change (`specs/Changed`,
//! `specs/Sockets`), what became of files of credentials and of the file of the ends (`specs/SecretLines`, `specs/LinesOfEnds`), and what
//! there is to say of a start (`specs/AtStart`). A line
//! goes into the room of the log, and into that of each of those who follow it, and no room changes another (`specs/Rooms`); lack of
//! memory costs the line alone, which is counted as dropped (`specs/Lines`), and a lack that goes on is said once (`specs/Wants`).
//! [`Desk::give`] gives the log's reader what it takes, and [`Desk::feed`] each of those who follow it (`specs/Feeding`). Begin with
//! `specs/Lines` and `specs/LogDesk`, then `log_line`, `rooms` and `desk`.
#![tactic(auto)]

mod desk;
mod followers;
mod log_answers;
mod log_behind;
mod log_changes;
mod log_clock;
mod log_ended;
mod log_ends;
mod log_line;
mod log_next;
mod log_reader;
mod log_rest;
mod log_secrets;
mod log_sockets;
mod log_start;
mod log_wants;
mod log_words;
mod lookup_loss;
mod mark;
mod rooms;

pub use desk::Desk;
pub use log_reader::MOST_GIVEN;
pub use log_start::say_at_start;
pub use lookup_loss::line_with_loss;
pub use mark::{Mark, Want, fresh_marks};
pub use rooms::Rooms;
