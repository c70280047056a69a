//! What is said of a change that cannot be made, or that a journal holds and that was not made again.
//!
//! The contract for the layers above: [`why`] gives the reason for the one who asked for the change, and [`note_line`] the line of
//! the log for one of a journal. Both are exact texts (`specs/Lines.antt`), and no credential is in either.
#![tactic(auto)]

mod laws;
mod line;
mod reason;

pub use laws::no_line_shows_a_credential;
pub use line::note_line;
pub use reason::why;
