//! What the machine of a watch asks, as messages on lanes, and what their answers tell it. `watch_machine` decides what is asked
//! and `vault_lanes` carries it; this crate stands between them.
//!
//! The contract for the layers above: [`ask_for`] gives the message of a request (`specs/Asking`), which goes out by `specs/Sending`;
//! [`said_to`] what an answer says to the request that is out of its entry (`specs/Told`), and [`event_of`] the event as which it is
//! handed in (`specs/Handing`). `specs/InStep` says that on the lanes are the requests that the machine has out: [`lanes_stay_in_step`] says
//! that this stays so, whatever is answered.
#![tactic(auto)]

mod asking;
mod handing;
mod laws;
mod seen;
mod told;

pub use asking::ask_for;
pub use handing::{HandedIn, event_of, out_of};
pub use laws::lanes_stay_in_step;
pub use seen::SeenLanes;
pub use told::{Said, said_of_entry, said_to};
