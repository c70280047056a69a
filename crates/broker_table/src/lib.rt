//! A small broker for tests and rehearsals: the tokens and leases of an inventory as rows, served by Vault's rules, with
//! faults by number.
//!
//! The contract for the layers above: a [`Table`] is its rows, its faults and its count of renewal requests, and each call is
//! one part of the Broker step, whose definitions stand in `broker_rule`. Begin with `table`, then `serve`.
#![tactic(auto)]

mod asked;
mod body;
mod call;
mod faults;
mod grant;
mod index;
pub mod laws;
mod moment_line;
mod refusal;
mod serve;
mod slot;
mod slots;
mod stream;
mod subject;
mod table;

pub use broker_rule::{BrokerRow, Fault, NumberedFault, ServeFault, Served, SetFault};
pub use moment_line::{LineFault, MOST_LINE, Moments, next_moment};
pub use stream::StreamFault;
pub use table::Table;
