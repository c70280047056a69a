//! Requests and their replies, over sockets; an exchange in memory stands in `broker_memory`.
//!
//! The contract for the layers above: an [`Exchange`] whose table is known gives the reply that the Broker step gives to the
//! request, through the texts of both messages (`specs/Exchanges.antt`); [`ask`] does so for an entry, whose request
//! (`specs/Requests.antt`) can be sent and whose replies can be read. Begin with `exchange`, then `asking`.
#![tactic(auto)]

mod asking;
mod connecting;
mod exchange;
mod fault;
mod heard;
mod line;
mod looking;
mod over;
mod patience;
mod requests;
mod tcp;
mod unix;

pub use asking::ask;
pub use exchange::{Exchange, can_carry};
pub use fault::ExchangeFault;
pub use heard::{Heard, ToldTerms, hear_lookup, hear_renewal, renewed_in};
pub use looking::{look_up, lookup_for};
pub use over::here;
pub use patience::PATIENCE;
pub use requests::{is_port, request_for};
pub use tcp::TcpExchange;
pub use unix::UnixExchange;
