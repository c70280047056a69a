//! Lines as they come: they are read in pieces, cut at their line feeds, and heard one after another.
//!
//! The contract for the layers above: what lines mean is said by a [`Hearer`], and [`listen`] hears the lines of an input until it
//! ends, fails or passes its [`InputLimits`], or until a line stops it. Begin with `specs/Hearing`, then `specs/Listening`.
//!
//! The lines that `run` hears are here too, `tick` and `need` ([`heard_in`]), and the names and numbers of those that it writes
//! (`text`).
#![tactic(auto)]

mod event_line;
mod hearer;
mod limits;
mod listening;
mod text;

pub use event_line::{HeardLine, heard_in};
pub use hearer::Hearer;
pub use limits::{InputLimits, MOST_LINE, ROOM, limits_law};
pub use listening::listen;
pub use text::{name_of, push_name, push_numbered, push_wake};
