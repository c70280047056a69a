//! Carried needs: the greatest need under each entry, and whose it is.
//!
//! The contract for the layers above: what `carry` gives is, for each entry, the greatest need after the start of an entry
//! that it is over, and the lowest entry that has it (`IsCarried` of `specs/`); `need` and `from` read it. The definition
//! of a carried need stands beside Over, in `plan_forest`. Begin with `carried`.
#![tactic(auto)]

mod carried;
mod fault;
mod load;

pub use carried::{Carried, carry};
pub use fault::NeedsFault;
