//! The inventory that is served: which of its needs are `always`, needs that are set, and the inventory for a watch, in which a need
//! that is `always` lasts to the last moment.
//!
//! The contract for the layers above: [`read_for_good`] gives the inventory that the definition `inventory_for_good` gives for the
//! bytes, or its first fault. Begin with `specs/ForGood`.
#![tactic(auto)]

mod for_good;

pub use for_good::{marks, read_for_good, served_for_good, set_needs};
