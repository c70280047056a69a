//! The inventory from a start on: what a need that is `always` is from then on.
//!
//! The contract for the layers above: [`read_at`] gives the inventory that the definition `inventory_at` gives for the bytes and
//! the start, or its first fault. Begin with `start`.
#![tactic(auto)]

mod laws;
mod start;

pub use laws::{
    needs_that_are_always_are_kept, starts_are_inventories, whole_inventories_start_as_they_are,
};
pub use start::{need_always, read_at};
