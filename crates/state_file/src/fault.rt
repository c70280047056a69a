ghost use Rattle.std.specs.Prelude.{◌≡◌};
ghost use Rattle.state_file.specs.Unread.{unread};
ghost use Rattle.state_file.specs.declared.fault.SettleFault.TheVariants.{OutOfMemory};

use base_disk::DiskFault;
use std::alloc::{AllocError, AllocFailed};
use thiserror::Error;
use vault_inventory::InvFault;

/// Why no file says what rows say. The first that applies, in this order, is the answer.
#[derive(Clone, Copy, Debug, PartialEq, Eq, Error)]
pub enum SettleFault {
    /// The text would have more bytes than an inventory may.
    #[error("the inventory would be over 1048576 bytes, more than any program reads")]
    TooLong,
    /// It would be no inventory: its first fault.
    #[error("{0}")]
    Refused(InvFault),
    /// It would be read as something else: a row is none that a table writes.
    #[error("an entry that no table writes")]
    Differs,
    /// Memory was refused.
    #[error("out of memory")]
    OutOfMemory,
}

/// Why a file is not read that is to be served: the first that applies, in this order.
#[derive(Clone, Copy, Debug, PartialEq, Eq, Error)]
pub enum ReadFault {
    /// There is none.
    #[error("no such file")]
    Missing,
    /// It is a folder, a pipe or the like.
    #[error("is not a regular file")]
    NotRegular,
    /// Others than its user and its group may read or write it; its permission bits.
    #[error("others may read or write it")]
    ForOthers(u32),
    /// The disk failed; `TooLong`, it has more bytes than an inventory may.
    #[error("{0}")]
    Disk(DiskFault),
    /// Memory was refused.
    #[error("out of memory")]
    OutOfMemory,
}

impl From<AllocError> for SettleFault {
    ghost from_gives = { λ _ e. e ≡ OutOfMemory };

    fn from(_e: AllocError) -> SettleFault {
        SettleFault::OutOfMemory
    }
}

impl<T: Drop> From<AllocFailed<T>> for SettleFault {
    ghost from_gives = { λ _ e. e ≡ OutOfMemory };

    fn from(_e: AllocFailed<T>) -> SettleFault {
        SettleFault::OutOfMemory
    }
}

impl From<DiskFault> for ReadFault {
    ghost from_gives = { λ fault e. e ≡ unread fault };

    fn from(fault: DiskFault) -> ReadFault {
        match fault {
            DiskFault::OutOfMemory => ReadFault::OutOfMemory,
            fault => ReadFault::Disk(fault),
        }
    }
}
