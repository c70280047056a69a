ghost use Rattle.std.specs.Prelude.{◌≡◌};
ghost use Rattle.plan_needs.specs.declared.fault.NeedsFault.TheVariants.{OutOfMemory};

use std::alloc::{AllocError, AllocFailed};
use thiserror::Error;

/// Why needs were not carried.
#[derive(Clone, Copy, Debug, PartialEq, Eq, Error)]
pub enum NeedsFault {
    /// Memory was refused.
    #[error("out-of-memory")]
    OutOfMemory,
}

impl From<AllocError> for NeedsFault {
    ghost from_gives = { λ _ e. e ≡ OutOfMemory };

    fn from(_e: AllocError) -> NeedsFault {
        NeedsFault::OutOfMemory
    }
}

impl<T: Drop> From<AllocFailed<T>> for NeedsFault {
    ghost from_gives = { λ _ e. e ≡ OutOfMemory };

    fn from(_e: AllocFailed<T>) -> NeedsFault {
        NeedsFault::OutOfMemory
    }
}
