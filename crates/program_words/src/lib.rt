//! The command line of a program: its words, the values that both programs read of them, what is said of words that ask nothing,
//! and the line for people after a fault line.
//!
//! The contract for the programs above: [`place_to_ask`] and [`place_to_listen`] give where a broker listens, as a word says it (`specs/Places.antt`); [`words`],
//! [`say`] and [`show`] give the exit of a command line that asks nothing, and tell why (`specs/Refusals.antt`); [`advise_on_file`],
//! [`advise_on_fault`] and [`advise_on_open`] tell which file was not read, and what to write in an inventory (`specs/Advice.antt`), and
//! [`SystemFiles`] tells it after a run over files.
#![tactic(auto)]

mod advice;
mod command_line;
mod files;
mod number;
mod place;
mod unread;

pub use advice::{advise_on_fault, advise_on_file, advise_on_open};
pub use command_line::{say, show, words};
pub use files::SystemFiles;
pub use number::number_or;
pub use place::{place_to_ask, place_to_listen};
pub use unread::Unread;
