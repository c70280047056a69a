//! What the broker says of a credential before it is taken.
//!
//! The contract for the layers above: [`Proving::ask`] sends the lookup of one credential over a lane of its own, with that
//! credential alone and, of a lease, that of its token; [`Proving::go_on`] waits for nothing, and gives the verdict once the answer
//! is there (`specs/Lookups`); and the verdict is that of the broker's answer (`specs/Verdicts`, [`a_verdict_is_the_brokers`]). Nothing
//! else is sent, and one credential is looked up at a time. Begin with `verdict`, then `proving`.
#![tactic(auto)]

mod candidate;
mod laws;
mod proving;
mod verdict;

pub use candidate::{Candidate, LOOKUP_NUMBER};
pub use laws::{a_lookup_ends_in_time, a_verdict_is_the_brokers};
pub use proving::Proving;
pub use verdict::{Verdict, verdict_of, verdict_on};
