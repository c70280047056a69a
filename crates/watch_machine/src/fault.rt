ghost use Rattle.std.specs.Prelude.{◌≡◌};
ghost use Rattle.watch_machine.specs.declared.fault.WatchFault.TheVariants.{OutOfMemory};

use plan_needs::NeedsFault;
use std::alloc::{AllocError, AllocFailed};
use thiserror::Error;

/// Why an event is refused.
#[derive(Clone, Copy, Debug, PartialEq, Eq, Error)]
pub enum WatchFault {
    /// The answer is to no request that is out.
    #[error("not-asked")]
    NotAsked,
    /// The index is not that of an entry.
    #[error("bad-index")]
    BadIndex,
    /// Memory was refused.
    #[error("out-of-memory")]
    OutOfMemory,
}

impl From<AllocError> for WatchFault {
    ghost from_gives = { λ _ e. e ≡ OutOfMemory };

    fn from(_e: AllocError) -> WatchFault {
        WatchFault::OutOfMemory
    }
}

impl<T: Drop> From<AllocFailed<T>> for WatchFault {
    ghost from_gives = { λ _ e. e ≡ OutOfMemory };

    fn from(_e: AllocFailed<T>) -> WatchFault {
        WatchFault::OutOfMemory
    }
}

impl From<NeedsFault> for WatchFault {
    ghost from_gives = { λ _ e. e ≡ OutOfMemory };

    fn from(_e: NeedsFault) -> WatchFault {
        WatchFault::OutOfMemory
    }
}
