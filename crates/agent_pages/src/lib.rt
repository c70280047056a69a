//! What onlookers are told of a running agent: metrics, health and status, over HTTP/1.1. It answers from what is known and asks nobody.
//!
//! The contract for the layer above: [`board_of`] writes down what an agent shows, without a credential, and which entries wait that its
//! inventory names (`specs/Waiting`); [`read_question`] says what the first
//! bytes of an onlooker ask for; [`answer_to`] gives exactly the bytes that answer it, and [`told_of`] what a client of the control socket is
//! told (`specs/Answers`). The metrics are in Prometheus' text format or in that of OpenMetrics (`specs/Metrics`), the status is JSON for
//! onlookers (`specs/Listing`) and lines for clients (`specs/Lines`), and health is lines for both, of which the last one says where a state
//! folder cannot be used (`specs/Folders`). Begin with `board`, then `answer`.
#![tactic(auto)]

mod accept;
mod answer;
mod asked;
mod board;
mod escapes;
mod family;
mod gathering;
mod health;
mod laws;
mod lines;
mod listing;
mod metrics;
mod point;
mod shown;
mod standby;
mod standing;
mod state;
mod state_folder;
mod told;
mod waiting;

pub use answer::{OnlookerAnswer, answer_to};
pub use asked::{AskedPage, FIELDS_MAX, HEAD_MAX, Method, Page, Question, read_question};
pub use board::{Board, BoardRow, FileReading, Surroundings};
pub use family::Format;
pub use gathering::board_of;
pub use laws::{limits_of_onlookers, no_credential_shows, nothing_else_is_told};
pub use standby::Standby;
pub use state::EntryState;
pub use state_folder::StateFolder;
pub use told::told_of;
