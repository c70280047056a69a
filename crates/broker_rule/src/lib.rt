//! What a broker answers, by Vault's rules: the definitions alone, and the types that they speak of.
//!
//! The Broker step (`specs/Step.antt`) says of a table, a moment and a request what is answered, and what the table then is. It
//! is apart from the code that does so, since contracts that know the table behind an exchange speak of this step too. Begin
//! with `row`, then `specs/Rows.antt`, `specs/Sweep.antt` and `specs/Step.antt`.
#![tactic(auto)]

mod asked;
mod call;
mod fault;
mod refusal;
mod row;
mod served;

pub use asked::AskedBody;
pub use call::ApiCall;
pub use fault::{Fault, NumberedFault, SetFault};
pub use refusal::Refusal;
pub use row::BrokerRow;
pub use served::{ServeFault, Served};
