ghost use Rattle.std.specs.Prelude.{◌≡◌};
ghost use Rattle.state_changes.specs.declared.fault.ChangeFault.TheVariants.{OutOfMemory};

use std::alloc::{AllocError, AllocFailed};
use thiserror::Error;

/// Why a change cannot be made. The first that applies, in this order, is the answer. None of them holds a credential.
#[derive(Clone, Copy, Debug, PartialEq, Eq, Error)]
pub enum ChangeFault {
    /// No entry has the name.
    #[error("no-entry")]
    NoEntry,
    /// An entry has the name of the one that is to be added.
    #[error("name-twice")]
    NameTwice,
    /// No entry has the name of the token that is to stand over it.
    #[error("no-parent")]
    NoParent,
    /// The entry that is to stand over it is a lease.
    #[error("parent-is-lease")]
    ParentIsLease,
    /// What its renewal would ask for is less than the margin and one second.
    #[error("step-too-small")]
    StepTooSmall,
    /// The chain from it to its root would have more than 64 entries.
    #[error("too-deep")]
    TooDeep,
    /// There are 4,096 entries.
    #[error("full")]
    Full,
    /// Another entry of the kind has the credential.
    #[error("credential-twice")]
    CredentialTwice,
    /// The entry names a file that holds its credential.
    #[error("in-file")]
    InFile,
    /// Other entries are under the entry.
    #[error("has-under")]
    HasUnder,
    /// Memory was refused.
    #[error("out-of-memory")]
    OutOfMemory,
}

impl From<AllocError> for ChangeFault {
    ghost from_gives = { λ _ e. e ≡ OutOfMemory };

    fn from(_e: AllocError) -> ChangeFault {
        ChangeFault::OutOfMemory
    }
}

impl<T: Drop> From<AllocFailed<T>> for ChangeFault {
    ghost from_gives = { λ _ e. e ≡ OutOfMemory };

    fn from(_e: AllocFailed<T>) -> ChangeFault {
        ChangeFault::OutOfMemory
    }
}
