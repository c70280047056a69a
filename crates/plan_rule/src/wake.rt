ghost use Rattle.std.specs.Prelude.{◌≡◌, ◌+◌};
ghost use Rattle.plan_rule.specs.declared.wake.WakeFault.TheVariants.{OutOfMemory};
ghost use Rattle.plan_rule.specs.Plans.{asks_past, wake_fault, wake_fault_at};

use base_moment::Moment;
use plan_forest::{Forest, Indices};
use std::alloc::{AllocError, AllocFailed};
use thiserror::Error;

/// A wake-up: its moment, and the indices of the entries that are asked to be renewed then.
#[derive(Debug, Drop)]
pub struct Wake {
    pub at: Moment,
    pub asked: Indices,
}

/// What is wrong with a list of wake-ups: the first one at fault, counted from 1.
#[derive(Clone, Copy, Debug, PartialEq, Eq, Error)]
pub enum WakeFault {
    /// Its moment is before the start.
    #[error("before-start {0}")]
    BeforeStart(u64),
    /// Its moment is before that of the wake-up in front of it.
    #[error("unordered {0}")]
    Unordered(u64),
    /// It asks an index that is not that of an entry.
    #[error("bad-index {0}")]
    BadIndex(u64),
    /// Memory was refused.
    #[error("out-of-memory")]
    OutOfMemory,
}

impl From<AllocError> for WakeFault {
    ghost from_gives = { λ _ e. e ≡ OutOfMemory };

    fn from(_e: AllocError) -> WakeFault {
        WakeFault::OutOfMemory
    }
}

impl<T: Drop> From<AllocFailed<T>> for WakeFault {
    ghost from_gives = { λ _ e. e ≡ OutOfMemory };

    fn from(_e: AllocFailed<T>) -> WakeFault {
        WakeFault::OutOfMemory
    }
}

/// The fault of the first wake-up that is at fault.
#[tactic(auto, unfolding(crate::specs::Plans::wake_fault))]
pub(crate) fn wake_fault(forest: &Forest, start: Moment, wakes: &[Wake]) -> Option<WakeFault>
    ensures { result ≡ wake_fault forest.now.entries start wakes.now }
{
    let entries = forest.len();
    let mut before = start;
    for (i, wake) in wakes.iter().enumerate() {
        let fault = fault_at(entries, start, before, i as u64 + 1, wake);
        if fault.is_some() {
            return fault;
        }
        before = wake.at;
    }
    None
}

/// What is wrong with the wake-up number `count`, after one at `before`, where there are so many entries.
#[tactic(auto, unfolding(crate::specs::Plans::wake_fault_at))]
fn fault_at(
    entries: u32,
    start: Moment,
    before: Moment,
    count: u64,
    wake: &Wake,
) -> Option<WakeFault>
    ensures { result ≡ wake_fault_at entries start before count wake.now }
{
    if wake.at < start {
        return Some(WakeFault::BeforeStart(count));
    }
    if wake.at < before {
        return Some(WakeFault::Unordered(count));
    }
    if asks_past(entries, wake.asked.list()) {
        return Some(WakeFault::BadIndex(count));
    }
    None
}

#[tactic(auto, unfolding(crate::specs::Plans::asks_past))]
fn asks_past(entries: u32, asked: &[u32]) -> bool
    ensures { result ≡ asks_past entries asked.now }
{
    asked.iter().any(|index| entries <= *index)
}
