//! The JSON bodies of four calls of Vault: renewing and looking up the own token, and renewing and looking up a lease.
//!
//! The contract for the layers above: a reader answers exactly what the definitions of `specs/` make of the bytes, a
//! value or the first fault, unless memory runs out; a writer gives exactly the bytes of `specs/Written.antt`; and what
//! one side writes the other reads (`laws`). Which fields are read, and how a duration is spelled, is this project's
//! profile of Vault's HTTP API. Begin with `field` and `renewed`; the definitions begin with `specs/Body.antt`.
#![tactic(auto)]

mod body;
mod duration;
mod fault;
mod field;
pub mod laws;
mod lookup;
mod renewed;
mod reply_body;
mod request;
mod request_body;
mod write;

pub use fault::ReplyFault;
pub use field::Field;
pub use lookup::{Lookup, never_ends, read_lookup_lease, read_lookup_self};
pub use renewed::{Renewed, RenewedLease, read_renew_lease, read_renew_self};
pub use reply_body::{LookedToken, errors, looked_lease, looked_self, renewed_lease, renewed_self};
pub use request::{read_increment, read_lease_id};
pub use request_body::{lease_body, lookup_body, renew_body};
