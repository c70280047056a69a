ghost use Rattle.std.specs.Prelude.{◌≡◌};
ghost use Rattle.plan_search.specs.declared.fault.PlanFault.TheVariants.{OutOfMemory};

use plan_needs::NeedsFault;
use plan_schedule::ScheduleFault;
use std::alloc::{AllocError, AllocFailed};
use thiserror::Error;

/// Why there is no plan, or nothing to ask.
#[derive(Clone, Copy, Debug, PartialEq, Eq, Error)]
pub enum PlanFault {
    /// Memory was refused.
    #[error("out-of-memory")]
    OutOfMemory,
}

impl From<AllocError> for PlanFault {
    ghost from_gives = { λ _ e. e ≡ OutOfMemory };

    fn from(_e: AllocError) -> PlanFault {
        PlanFault::OutOfMemory
    }
}

impl<T: Drop> From<AllocFailed<T>> for PlanFault {
    ghost from_gives = { λ _ e. e ≡ OutOfMemory };

    fn from(_e: AllocFailed<T>) -> PlanFault {
        PlanFault::OutOfMemory
    }
}

impl From<NeedsFault> for PlanFault {
    ghost from_gives = { λ _ e. e ≡ OutOfMemory };

    fn from(_e: NeedsFault) -> PlanFault {
        PlanFault::OutOfMemory
    }
}

impl From<ScheduleFault> for PlanFault {
    ghost from_gives = { λ _ e. e ≡ OutOfMemory };

    fn from(_e: ScheduleFault) -> PlanFault {
        PlanFault::OutOfMemory
    }
}
