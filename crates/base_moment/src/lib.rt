//! Moments, durations and texts: the plain values that every other crate speaks of.
//!
//! The contract for the layers above: a [`Moment`] is a whole number of seconds from 0 to [`LAST`], and a [`Text`] is
//! a list of bytes that compares, orders and hashes as that list does. [`read_rfc3339`] gives the moment of a text by
//! RFC 3339, or says that it has none, and [`date_text`] writes a moment so. Begin with `moment`, then `date`.
#![tactic(auto)]

mod date;
mod fault;
mod moment;
mod places;
mod stamp;
mod text;

pub use date::{date_text, dates_are_read_back, read_rfc3339};
pub use fault::TimeFault;
pub use moment::{LAST, Moment, Span};
pub use text::{Name, Text};
