//! `leasekeep serve` put together, over any neighbours: from what is served at a start to the last turn.
//!
//! The contract for the layers above: [`run_over`] runs the agent that [`begin`] puts together (`specs/Run`). That is the one to which the
//! ends of this boot were handed in that a file kept, and it has these neighbours and no others: a log that has said what there was to say
//! of the start, a ledger with a lane of its own for looking credentials up where there is a state folder, clients and onlookers where
//! sockets are asked for and can be had, and the file of the ends where it can be had (`specs/Begun`). It waits exactly where it has a
//! part of a spread and nothing may be due meanwhile (`specs/Waits`), and then makes 2^64 - 1 turns (`specs/Running`). So `ServingLaw` of
//! `agent_turns`, and with it each law of `watch_laws`, holds of what `leasekeep serve` does. Begin with `specs/Run`, then `run`.
#![tactic(auto)]

mod askers;
mod begun;
mod doors;
mod run;
mod running;
mod wait;

pub use askers::askers_by;
pub use begun::{Beginning, Begun, EndsPlace, Parts, begin, most_out};
pub use doors::{Doors, Guests};
pub use run::run_over;
