ghost use Rattle.std.specs.Prelude.{◌≡◌};
ghost use Rattle.plan_forest.specs.declared.fault.TreeFault.TheVariants.{OutOfMemory};

use std::alloc::{AllocError, AllocFailed};
use thiserror::Error;

/// Why a forest did not take an entry. The first that applies, in this order, is the answer.
#[derive(Clone, Copy, Debug, PartialEq, Eq, Error)]
pub enum TreeFault {
    /// The name has not 1 to 64 bytes out of ASCII letters, digits, `-`, `_`, `.` and `/`.
    #[error("bad-name")]
    BadName,
    /// An entry of the forest has that name.
    #[error("name-twice")]
    NameTwice,
    /// The parent's index is not that of an entry.
    #[error("no-parent")]
    NoParent,
    /// The parent is a lease.
    #[error("parent-is-lease")]
    ParentIsLease,
    /// The entry is a lease and has no parent.
    #[error("lease-without-token")]
    LeaseWithoutToken,
    /// The step is less than the forest's margin and one second.
    #[error("step-too-small")]
    StepTooSmall,
    /// The end or the ceiling is over `END_MAX`, or the need is over `LAST`.
    #[error("out-of-range")]
    OutOfRange,
    /// The chain from the entry to its root would have more than 64 entries.
    #[error("too-deep")]
    TooDeep,
    /// The forest has 4,096 entries.
    #[error("full")]
    Full,
    /// Memory was refused.
    #[error("out-of-memory")]
    OutOfMemory,
}

impl From<AllocError> for TreeFault {
    ghost from_gives = { λ _ e. e ≡ OutOfMemory };

    fn from(_e: AllocError) -> TreeFault {
        TreeFault::OutOfMemory
    }
}

impl<T: Drop> From<AllocFailed<T>> for TreeFault {
    ghost from_gives = { λ _ e. e ≡ OutOfMemory };

    fn from(_e: AllocFailed<T>) -> TreeFault {
        TreeFault::OutOfMemory
    }
}
