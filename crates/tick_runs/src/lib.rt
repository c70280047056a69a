//! Runs of the executor: the keeper against a broker that renews what it asks for. Here is the rehearsal, in which the broker
//! is a table in memory after an exchange that passes real messages, and the live run, in which event lines hand in the time.
//!
//! The contracts for the program above are those of [`run_rehearse`], over a table in memory, and [`run_live`], over any
//! exchange; both are made of one definition of an answer. The laws say what a rehearsal is where the broker has no faults,
//! how any run goes on and ends, and that no secret changes what a live run says.
//! Who asks is an [`KeeperAgent`]: the keeper with the credentials of its entries.
//!
//! There are three rooms: `agent` has who asks and what one answer comes to, `rehearse` the wake-ups and the FAULT words, and
//! `live` the lookups and the event lines. Begin with `specs/Closed.antt` and `specs/Text.antt`, then `rehearse`. Of the live
//! run `specs/LiveRun.antt` says the whole, over its lookups (`specs/Looking.antt`), its event lines one after another
//! (`specs/Listening.antt`, over crate program_lines) and what one of them comes to (`specs/Hearing.antt`, [`hear`]).
#![tactic(auto)]

mod agent;
pub mod laws;
mod live;
mod rehearse;

pub use agent::KeeperAgent;
pub use agent::reply::event_from;
pub use live::hearing::hear;
pub use live::listening::{MOST_EVENT_READS, MOST_EVENTS};
pub use live::run_live;
pub use rehearse::playing::MOST_WAKES;
pub use rehearse::{Script, run_rehearse};
