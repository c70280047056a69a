ghost use Rattle.std.specs.Prelude.{◌≡◌};
ghost use Rattle.base_disk.specs.declared.fault.DiskFault.TheVariants as faults;

use std::alloc::{AllocError, AllocFailed};
use thiserror::Error;

/// What a call of the disk met. It holds nothing of what was read or written.
#[derive(Clone, Copy, Debug, PartialEq, Eq, Error)]
pub enum DiskTrouble {
    /// No room is left on the disk, or for this user.
    #[error("no space is left")]
    Full,
    /// The file system is read-only.
    #[error("the file system is read-only")]
    ReadOnly,
    /// The user of this process may not do it.
    #[error("permission denied")]
    Denied,
    /// No file is there, or no folder.
    #[error("no such file or folder")]
    Missing,
    /// What is there is a pipe, a device or a folder.
    #[error("it is not a regular file")]
    Irregular,
    /// Anything else, as a device that fails.
    #[error("the disk failed")]
    Other,
}

/// Why a call of a disk did not do what was asked. It holds nothing of what was read or written.
#[derive(Clone, Copy, Debug, PartialEq, Eq, Error)]
pub enum DiskFault {
    /// The call failed, and the disk has counted it.
    #[error("{0}")]
    Failed(DiskTrouble),
    /// The file has more bytes than were asked for.
    #[error("too long")]
    TooLong,
    /// A growth was refused.
    #[error("out of memory")]
    OutOfMemory,
}

impl From<AllocError> for DiskFault {
    ghost from_gives = { λ _ e. e ≡ faults.OutOfMemory };

    fn from(_e: AllocError) -> DiskFault {
        DiskFault::OutOfMemory
    }
}

impl<T: Drop> From<AllocFailed<T>> for DiskFault {
    ghost from_gives = { λ _ e. e ≡ faults.OutOfMemory };

    fn from(_e: AllocFailed<T>) -> DiskFault {
        DiskFault::OutOfMemory
    }
}
