//! Who talks over a listening socket with an agent that waits for none of them: clients of its control socket, and onlookers.
//!
//! The contract for the layers above: [`Clients`] is a table of at most so many guests. A turn of it makes at most one call of
//! each guest's connection, and at most 16 of the door; what it hands on are whole requests, and an answer goes to the guest
//! with that number alone (`specs/Tables.antt`). An answer may go on: more of it is given as it comes, and its guest has all the
//! time to read it. What one guest becomes by one call is one definition (`specs/Guests.antt`).
//! Begin with `talk` and `door`: a connection and a listener whose calls do not wait. `guest` is one guest, `left` what has still to
//! be written to it, `clients` the table, `sockets` the listeners and connections of the system, and `entrance` says where they are.
#![tactic(auto)]

mod clients;
mod door;
mod entrance;
mod fed;
mod framing;
mod guest;
mod left;
mod letting;
mod limits;
mod sockets;
mod stage;
mod talk;

pub use clients::{Clients, GuestRequest};
pub use door::Door;
pub use entrance::{Entrance, entrance_of};
pub use fed::Fed;
pub use framing::Framing;
pub use guest::Guest;
pub use left::Left;
pub use limits::{GuestLimits, MOST_AT_ONCE, MOST_PIECE, PATIENCE};
pub use sockets::{SocketDoor, SocketTalk};
pub use stage::GuestStage;
pub use talk::{Talk, TalkCall};
