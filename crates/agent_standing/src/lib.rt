//! The agent: what `leasekeep serve` holds of the entries that it serves, as one pure machine above the Watch. Events go in, what is to be
//! done and said comes out; it reads no clock, sends nothing and writes nothing.
//!
//! The contract for the layer above: each [`Agent::turn`] is a turn of the Watch, and what is said of an entry follows from what was
//! told of it (`specs/Turns`, `specs/Standings`); [`Agent::change`] goes on with another inventory and forgets nothing of the entries that
//! were served before (`specs/Changed`, and the law [`nothing_is_forgotten`]), and [`Agent::serves`] tells one that is no change from
//! others. Begin with `standing` and `agent`, then `turn`.
#![tactic(auto)]

mod agent;
mod changed;
mod ends;
mod laws;
mod same;
mod shorts;
mod standing;
mod status;
mod turn;
mod waiting;

pub use agent::Agent;
pub use ends::{KnownEnd, end_text, read_end};
pub use laws::{ends_are_read_back, nothing_is_forgotten};
pub use shorts::Short;
pub use standing::{EntryStanding, Told, Trouble};
pub use status::{Condition, Status};
pub use waiting::{TOGETHER, Waiting};
