//! Lanes with a broker's table in memory, with faults by number: for trials of what stands on lanes.
//!
//! The contract for the layers above is that of `vault_lanes`'s `Lanes`, where what comes of each request, and when, is known
//! ([`MemoryLanes`]).
#![tactic(auto)]

mod lanes;

pub use lanes::MemoryLanes;
