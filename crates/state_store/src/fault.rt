ghost use Rattle.std.specs.Prelude.{◌≡◌};
ghost use Rattle.state_store.specs.declared.fault.FileFault.TheVariants as files;
ghost use Rattle.state_store.specs.declared.fault.TakeFault.TheVariants as takes;
ghost use Rattle.state_store.specs.declared.fault.Unsettled.TheVariants as unsettles;
ghost use Rattle.state_store.specs.code.Faults.{faulty, unhanded, unkept, unmade, unmoved, unsaid, unwritten};

use base_disk::DiskFault;
use state_changes::ChangeFault;
use state_file::SettleFault;
use std::alloc::{AllocError, AllocFailed};
use thiserror::Error;
use vault_inventory::InvFault;

/// Why a file is not served. None of them holds a credential.
#[derive(Clone, Copy, Debug, PartialEq, Eq, Error)]
pub enum FileFault {
    /// Its bytes cannot be had, or it may not be served.
    #[error("it cannot be had")]
    Unread,
    /// It is no inventory: its first fault.
    #[error("{0}")]
    Faulty(InvFault),
    /// With the changes of the journal it cannot be written as one file.
    #[error("with the changes of the journal: {0}")]
    Unwritten(SettleFault),
    /// Memory was refused.
    #[error("out of memory")]
    OutOfMemory,
}

/// Why a change is not taken: the first that applies, in this order. None of them holds a credential.
#[derive(Clone, Copy, Debug, PartialEq, Eq, Error)]
pub enum TakeFault {
    /// A start may read another file than the one that is served, since a settling or a sync has failed. It has to be read anew first.
    #[error("a start may read another file: read it anew first")]
    Unread,
    /// No line of a journal can write it, as where a credential has a space.
    #[error("no journal can write it")]
    NoRecord,
    /// It is refused by name.
    #[error("{0}")]
    Refused(ChangeFault),
    /// After it the inventory could not be written as a file.
    #[error("{0}")]
    Unwritten(SettleFault),
    /// The disk does not have it: it could not be written, or the file that it stands beside could not be synced.
    #[error("{0}")]
    Disk(DiskFault),
    /// It could not be written to the disk, which may have it all the same.
    #[error("{0}; it may hold or not")]
    Unsure(DiskFault),
    /// Memory was refused.
    #[error("out of memory")]
    OutOfMemory,
}

/// Why a file does not become what is kept: the first that applies, in this order. None of them holds a credential.
#[derive(Clone, Copy, Debug, PartialEq, Eq, Error)]
pub enum Unsettled {
    /// Its bytes are not those that were read last.
    #[error("the file has changed since it was read: read it anew first")]
    Changed,
    /// What is kept cannot be written as one file.
    #[error("{0}")]
    Unwritten(SettleFault),
    /// It could not be written to the disk.
    #[error("{0}")]
    Disk(DiskFault),
    /// Memory was refused.
    #[error("out of memory")]
    OutOfMemory,
}

impl From<AllocError> for FileFault {
    ghost from_gives = { λ _ e. e ≡ files.OutOfMemory };

    fn from(_e: AllocError) -> FileFault {
        FileFault::OutOfMemory
    }
}

impl<T: Drop> From<AllocFailed<T>> for FileFault {
    ghost from_gives = { λ _ e. e ≡ files.OutOfMemory };

    fn from(_e: AllocFailed<T>) -> FileFault {
        FileFault::OutOfMemory
    }
}

impl From<AllocError> for TakeFault {
    ghost from_gives = { λ _ e. e ≡ takes.OutOfMemory };

    fn from(_e: AllocError) -> TakeFault {
        TakeFault::OutOfMemory
    }
}

impl<T: Drop> From<AllocFailed<T>> for TakeFault {
    ghost from_gives = { λ _ e. e ≡ takes.OutOfMemory };

    fn from(_e: AllocFailed<T>) -> TakeFault {
        TakeFault::OutOfMemory
    }
}

impl From<AllocError> for Unsettled {
    ghost from_gives = { λ _ e. e ≡ unsettles.OutOfMemory };

    fn from(_e: AllocError) -> Unsettled {
        Unsettled::OutOfMemory
    }
}

impl<T: Drop> From<AllocFailed<T>> for Unsettled {
    ghost from_gives = { λ _ e. e ≡ unsettles.OutOfMemory };

    fn from(_e: AllocFailed<T>) -> Unsettled {
        Unsettled::OutOfMemory
    }
}

impl From<SettleFault> for Unsettled {
    ghost from_gives = { λ fault e. e ≡ unsaid fault };

    fn from(fault: SettleFault) -> Unsettled {
        match fault {
            SettleFault::OutOfMemory => Unsettled::OutOfMemory,
            fault => Unsettled::Unwritten(fault),
        }
    }
}

impl From<DiskFault> for Unsettled {
    ghost from_gives = { λ fault e. e ≡ unmoved fault };

    fn from(fault: DiskFault) -> Unsettled {
        match fault {
            DiskFault::OutOfMemory => Unsettled::OutOfMemory,
            fault => Unsettled::Disk(fault),
        }
    }
}

/// Why a change is not taken that rows refuse.
pub(crate) fn unmade(fault: ChangeFault) -> TakeFault
    ensures { result ≡ unmade fault }
{
    match fault {
        ChangeFault::OutOfMemory => TakeFault::OutOfMemory,
        fault => TakeFault::Refused(fault),
    }
}

/// Why a change is not taken after which no file would say what there is.
pub(crate) fn unwritten(fault: SettleFault) -> TakeFault
    ensures { result ≡ unwritten fault }
{
    match fault {
        SettleFault::OutOfMemory => TakeFault::OutOfMemory,
        fault => TakeFault::Unwritten(fault),
    }
}

/// Why a change is not taken that a disk has not kept, or may have kept.
pub(crate) fn unkept(fault: DiskFault, may_have: bool) -> TakeFault
    ensures { result ≡ unkept fault may_have }
{
    if may_have {
        return TakeFault::Unsure(fault);
    }
    match fault {
        DiskFault::OutOfMemory => TakeFault::OutOfMemory,
        fault => TakeFault::Disk(fault),
    }
}

/// Why a file is not served that is no inventory.
pub(crate) fn faulty(fault: InvFault) -> FileFault
    ensures { result ≡ faulty fault }
{
    match fault {
        InvFault::OutOfMemory => FileFault::OutOfMemory,
        fault => FileFault::Faulty(fault),
    }
}

/// Why a file is not served with whose changes no file would say what there is.
pub(crate) fn unhanded(fault: SettleFault) -> FileFault
    ensures { result ≡ unhanded fault }
{
    match fault {
        SettleFault::OutOfMemory => FileFault::OutOfMemory,
        fault => FileFault::Unwritten(fault),
    }
}
