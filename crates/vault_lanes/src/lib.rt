//! Requests in lanes: up to so many are out at once, each over a connection of its own, with stages and a time of its own, so
//! that one which is silent costs nobody else.
//!
//! The contract for the layers above: [`Lanes`] sends a request and hands each answer back with the index that it is for
//! (`specs/Out.antt`); where the broker's table is known the answer is that of the Broker step (`specs/Serving.antt`), and over
//! connections each request goes on as `specs/Lanes.antt` and `specs/Failing.antt` say. What a lane may take is one definition
//! (`specs/Allowed.antt`). Begin with `lanes`, then `allowance` and `stage`: a lane's clock and what it has reached, as values.
//! `line` is a connection, `lane` is one request over it, `seats` those that are out, `running` all of them over any connections,
//! and `sockets` those of the system. Lanes in memory stand in `broker_lanes`.
#![tactic(auto)]

mod allowance;
mod coming;
mod fault;
mod heard;
mod lane;
mod lanes;
mod line;
mod loss;
mod reason;
mod running;
mod seats;
mod sockets;
mod stage;
mod way;

pub use allowance::Allowance;
pub use coming::Coming;
pub use fault::{LaneFault, NumberedLaneFault};
pub use heard::{HeardAnswer, hear_lookup, hear_renewal};
pub use lanes::{Answered, Ask, Lanes, MOST_WIDTH, free_of};
pub use line::{Line, Wires};
pub use loss::{Loss, loss_of};
pub use reason::ConnectReason;
pub use running::LanesOver;
pub use seats::{Seat, Standing, put, rename, take_out};
pub use sockets::{SocketLanes, SocketLine, SocketWires};
pub use stage::RequestStage;
