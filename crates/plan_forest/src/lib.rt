//! The forest: the tokens and leases that an agent keeps, each with what is over it.
//!
//! The contract for the layers above: a [`Forest`] is a list of entries and a margin; `push` appends or names the first
//! of nine refusals, and a setter changes its one field (`set_terms` two). [`renewal`] is the end that a granted renewal
//! gives. The definitions of what is over an entry and of what a renewal gives stand in this crate's `specs/`. Begin with
//! `entry`.
#![tactic(auto)]

mod entry;
mod fault;
mod forest;
mod limits;
mod listed;
mod renewing;

pub use entry::{Entry, Kind};
pub use fault::TreeFault;
pub use forest::{END_MAX, Forest, MARGIN_MAX, MAX_DEPTH, MAX_ENTRIES, NAME_MAX};
pub use limits::limits_law;
pub use listed::{Ends, Indices, Listed};
pub use renewing::{capped, renewal};
