ghost use Rattle.std.specs.Prelude.{◌≡◌};
ghost use Rattle.state_keeping.specs.declared.fault.OpenFault.TheVariants as opens;
ghost use Rattle.state_keeping.specs.declared.fault.PathsFault.TheVariants as paths;
ghost use Rattle.state_file.specs.declared.fault.ReadFault.TheVariants as reads;
ghost use Rattle.state_keeping.specs.declared.fault.SettleWhy.TheVariants as settles;
ghost use Rattle.state_keeping.specs.declared.fault.TableFault.TheVariants as tables;
ghost use Rattle.state_keeping.specs.Opens.{unheld, unserved};
ghost use Rattle.state_keeping.specs.Settles.{unread_why, unsettled};
ghost use Rattle.state_keeping.specs.Tables.{table_fault};

use base_disk::DiskFault;
use plan_forest::TreeFault;
use state_file::{ReadFault, SettleFault};
use state_store::{FileFault, Unsettled};
use std::alloc::{AllocError, AllocFailed};
use thiserror::Error;
use vault_inventory::{InvFault, Key};

/// Why there are no paths.
#[derive(Clone, Copy, Debug, PartialEq, Eq, Error)]
pub enum PathsFault {
    /// FILE is one of the files of the state folder.
    #[error("the inventory is a file of the state folder's own")]
    InFolder,
    /// Memory was refused.
    #[error("out of memory")]
    OutOfMemory,
}

/// Why a state is not opened: the first that applies, in this order.
#[derive(Clone, Copy, Debug, PartialEq, Eq, Error)]
pub enum OpenFault {
    /// Another process holds the folder.
    #[error("another agent serves with this folder")]
    Held,
    /// The journal cannot be used.
    #[error("{0}")]
    Disk(DiskFault),
    /// Neither FILE nor its copy is served: the fault of FILE.
    #[error("{0}")]
    File(FileFault),
    /// Memory was refused.
    #[error("out of memory")]
    OutOfMemory,
}

/// Why FILE does not become what is kept: the first that applies, in this order. None of them holds a credential.
#[derive(Clone, Copy, Debug, PartialEq, Eq, Error)]
pub enum SettleWhy {
    /// FILE cannot be read.
    #[error("{0}")]
    Unread(ReadFault),
    /// Its bytes are not those that were read last.
    #[error("the file has changed since it was read: read it anew first")]
    Changed,
    /// What is kept cannot be written as one file.
    #[error("{0}")]
    Unwritten(SettleFault),
    /// It could not be written to the disk.
    #[error("{0}")]
    Disk(DiskFault),
    /// Memory was refused.
    #[error("out of memory")]
    OutOfMemory,
}

/// Why a table is no entry. None of them holds a credential.
#[derive(Clone, Copy, Debug, PartialEq, Eq, Error)]
pub enum TableFault {
    /// It is no TOML.
    #[error("not-toml")]
    NotToml,
    /// It is not one table of a token or of a lease.
    #[error("give one table [[token]] or [[lease]]")]
    NotOne,
    /// A key is not there that has to be.
    #[error("missing-key")]
    Missing(Key),
    /// A key is there that no such table has.
    #[error("unknown-key")]
    Unknown,
    /// The value at a key is of the wrong type or out of range.
    #[error("bad-value")]
    Bad(Key),
    /// No inventory has such an entry.
    #[error("{0}")]
    Tree(TreeFault),
    /// Memory was refused.
    #[error("out of memory")]
    OutOfMemory,
}

impl From<AllocError> for PathsFault {
    ghost from_gives = { λ _ e. e ≡ paths.OutOfMemory };

    fn from(_e: AllocError) -> PathsFault {
        PathsFault::OutOfMemory
    }
}

impl From<AllocError> for OpenFault {
    ghost from_gives = { λ _ e. e ≡ opens.OutOfMemory };

    fn from(_e: AllocError) -> OpenFault {
        OpenFault::OutOfMemory
    }
}

impl From<DiskFault> for OpenFault {
    ghost from_gives = { λ fault e. e ≡ unheld fault };

    fn from(fault: DiskFault) -> OpenFault {
        match fault {
            DiskFault::OutOfMemory => OpenFault::OutOfMemory,
            fault => OpenFault::Disk(fault),
        }
    }
}

impl From<FileFault> for OpenFault {
    ghost from_gives = { λ fault e. e ≡ unserved fault };

    fn from(fault: FileFault) -> OpenFault {
        match fault {
            FileFault::OutOfMemory => OpenFault::OutOfMemory,
            fault => OpenFault::File(fault),
        }
    }
}

impl From<ReadFault> for SettleWhy {
    ghost from_gives = { λ fault e. e ≡ unread_why fault };

    fn from(fault: ReadFault) -> SettleWhy {
        match fault {
            ReadFault::OutOfMemory => SettleWhy::OutOfMemory,
            fault => SettleWhy::Unread(fault),
        }
    }
}

impl From<Unsettled> for SettleWhy {
    ghost from_gives = { λ fault e. e ≡ unsettled fault };

    fn from(fault: Unsettled) -> SettleWhy {
        match fault {
            Unsettled::Changed => SettleWhy::Changed,
            Unsettled::Unwritten(fault) => SettleWhy::Unwritten(fault),
            Unsettled::Disk(fault) => SettleWhy::Disk(fault),
            Unsettled::OutOfMemory => SettleWhy::OutOfMemory,
        }
    }
}

impl From<AllocError> for TableFault {
    ghost from_gives = { λ _ e. e ≡ tables.OutOfMemory };

    fn from(_e: AllocError) -> TableFault {
        TableFault::OutOfMemory
    }
}

impl<T: Drop> From<AllocFailed<T>> for TableFault {
    ghost from_gives = { λ _ e. e ≡ tables.OutOfMemory };

    fn from(_e: AllocFailed<T>) -> TableFault {
        TableFault::OutOfMemory
    }
}

impl From<InvFault> for TableFault {
    ghost from_gives = { λ fault e. e ≡ table_fault fault };

    fn from(fault: InvFault) -> TableFault {
        match fault {
            InvFault::NotToml => TableFault::NotToml,
            InvFault::MissingKey(_, key) => TableFault::Missing(key),
            InvFault::UnknownKey(_) => TableFault::Unknown,
            InvFault::BadValue(_, key) => TableFault::Bad(key),
            InvFault::Tree(_, fault) => TableFault::Tree(fault),
            InvFault::OutOfMemory => TableFault::OutOfMemory,
        }
    }
}
