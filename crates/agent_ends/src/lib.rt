//! The ends that a broker told in this boot, in a file for an agent that takes over in the same boot.
//!
//! The contract for the layers above: [`agent_ends`] makes the file say what [`ends_of`] gives of an agent, and [`load_ends`] reads it
//! back; [`known_events`] are the events for the Watch, of those entries alone whose name, kind and credential are as they were. Begin
//! with `specs/Ends`.
#![tactic(auto)]

mod disk;
mod events;
mod file;
mod laws;
mod text;

pub use disk::{MOST_ENDS, agent_ends, load_ends};
pub use events::{ends_of, known_events};
pub use file::EndsFile;
pub use laws::{ends_are_kept, only_what_is_told_is_kept};
pub use text::{ends_text, read_ends};
