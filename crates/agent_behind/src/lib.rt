//! An agent that stands behind another: before an entry's time it looks the entry up, and hands in what it hears, so that it leaves to
//! the agent in front what that one does.
//!
//! The contract for the layers above: [`Behind`] is neighbours of the loop, and one more beside them, the [`Lookout`]; the others are
//! called just as they would be without it. In each turn answers come off the lookout's own lanes, and the lookups that its scout finds go
//! out on them (`specs/Lookouts`); what it gives is a later end of an entry that is not out, and nothing else
//! ([`a_later_end_is_told`]); and its scout makes steps of `watch_scout_laws` ([`a_scout_goes_by_steps`]), whose laws so hold of the agent.
//! Whatever it does, the run of the agent's Watch is that of any agent. Begin with `specs/Lookouts`, then `lookout`.
#![tactic(auto)]

mod behind;
mod laws;
mod looking;
mod lookout;

pub use behind::{Behind, Giver};
pub use laws::{a_later_end_is_told, a_scout_goes_by_steps};
pub use lookout::Lookout;
