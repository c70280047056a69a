//! An exchange with a broker's table in memory: each message is written as text and read of that text.
//!
//! The contract for the layers above is that of `vault_exchange`'s `Exchange`: a [`MemoryExchange`] gives the reply that the
//! Broker step gives, and its table is known. Begin with `exchange`, then `texts`.
#![tactic(auto)]

mod exchange;
mod sure;
mod texts;

pub use exchange::MemoryExchange;
