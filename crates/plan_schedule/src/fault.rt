ghost use Rattle.std.specs.Prelude.{◌≡◌};
ghost use Rattle.plan_schedule.specs.declared.fault.ScheduleFault.TheVariants.{OutOfMemory};

use std::alloc::{AllocError, AllocFailed};
use thiserror::Error;

/// Why a schedule was not made.
#[derive(Clone, Copy, Debug, PartialEq, Eq, Error)]
pub enum ScheduleFault {
    /// Memory was refused.
    #[error("out-of-memory")]
    OutOfMemory,
}

impl From<AllocError> for ScheduleFault {
    ghost from_gives = { λ _ e. e ≡ OutOfMemory };

    fn from(_e: AllocError) -> ScheduleFault {
        ScheduleFault::OutOfMemory
    }
}

impl<T: Drop> From<AllocFailed<T>> for ScheduleFault {
    ghost from_gives = { λ _ e. e ≡ OutOfMemory };

    fn from(_e: AllocFailed<T>) -> ScheduleFault {
        ScheduleFault::OutOfMemory
    }
}
