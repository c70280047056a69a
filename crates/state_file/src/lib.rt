//! The file that says what rows say: what `settle` writes, what is served after a change, and why such a file is not read.
//!
//! The contract for the layers above: [`settle`] gives the text of a file with an inventory, and the inventory that is read of
//! that text has just those rows, tokens before leases; [`settled_rows_stay`] says that settling changes nothing. Begin with `settling`, then `text`.
#![tactic(auto)]

mod fault;
mod laws;
mod order;
mod same;
mod settling;
mod text;

pub use fault::{ReadFault, SettleFault};
pub use laws::{rows_have_one_text, settled_rows_stay};
pub use order::in_order;
pub use settling::{Settled, settle};
