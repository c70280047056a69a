//! The clocks of the agent that runs by itself: two readings, and the one wait of a turn.
//!
//! The contract for the layers above: [`Clock`] says what was read, and that a wait was asked for and for how long at most;
//! what is known of a clock is the list of its calls (`specs/Seen.antt`). [`SystemClock`] reads the clocks of the system and
//! waits for every socket that is registered with it at once; [`MemoryClock`] reads what it was given. How long may be waited for what is
//! due is said by [`rest_until`] and [`shorter`] (`specs/Rests.antt`). Begin with `clock`.
#![tactic(auto)]

mod call;
mod clock;
mod laws;
mod memory;
mod reading;
mod rest;
mod system;
mod times;

pub use call::ClockCall;
pub use clock::Clock;
pub use laws::calls_are_joined;
pub use memory::MemoryClock;
pub use reading::Reading;
pub use rest::{TRY_AGAIN, no_longer, rest_until, shorter};
pub use system::{MOST_EVENTS, SystemClock};
