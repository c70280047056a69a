ghost use Rattle.std.specs.Prelude.{◌≡◌};
ghost use Rattle.tick_keeper.specs.declared.fault.StepFault.TheVariants.{OutOfMemory};

use plan_search::PlanFault;
use std::alloc::{AllocError, AllocFailed};
use thiserror::Error;

/// Why an event is refused, or a keeper not made.
#[derive(Clone, Copy, Debug, PartialEq, Eq, Error)]
pub enum StepFault {
    /// The tick's moment is before the last one.
    #[error("clock-back")]
    ClockBack,
    /// A round is open, and a tick or a need has to wait for its answers.
    #[error("round-open")]
    RoundOpen,
    /// No round is open, or this entry is not among those that it still waits for.
    #[error("not-asked")]
    NotAsked,
    /// The index is not that of an entry.
    #[error("bad-index")]
    BadIndex,
    /// A moment is after 9999-12-31T23:59:59Z, or the seconds are more than 4294967295.
    #[error("out-of-range")]
    OutOfRange,
    /// The plan made anew, at the opening or with a new need, would have more than 10,000,000 wake-ups.
    #[error("too-long")]
    TooLong,
    /// Memory was refused.
    #[error("out-of-memory")]
    OutOfMemory,
}

impl From<AllocError> for StepFault {
    ghost from_gives = { λ _ e. e ≡ OutOfMemory };

    fn from(_e: AllocError) -> StepFault {
        StepFault::OutOfMemory
    }
}

impl<T: Drop> From<AllocFailed<T>> for StepFault {
    ghost from_gives = { λ _ e. e ≡ OutOfMemory };

    fn from(_e: AllocFailed<T>) -> StepFault {
        StepFault::OutOfMemory
    }
}

impl From<PlanFault> for StepFault {
    ghost from_gives = { λ _ e. e ≡ OutOfMemory };

    fn from(_e: PlanFault) -> StepFault {
        StepFault::OutOfMemory
    }
}
