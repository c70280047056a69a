ghost use Rattle.std.specs.Prelude.{◌≡◌};
ghost use Rattle.vault_inventory.specs.declared.fault.InvFault.TheVariants.{OutOfMemory};

use crate::key::Key;
use plan_forest::TreeFault;
use std::alloc::{AllocError, AllocFailed};
use thiserror::Error;

/// Why bytes are no inventory: the first fault, with the index of its entry, or `None` for the top level.
///
/// The order is: the document; the keys of the top level and their values; then each entry by its index, its unknown
/// keys before its values, these before the refusal of the forest.
#[derive(Clone, Copy, Debug, PartialEq, Eq, Error)]
pub enum InvFault {
    /// The bytes are no TOML 1.1 document in UTF-8.
    #[error("no TOML document")]
    NotToml,
    /// The entry lacks a key that it has to have.
    #[error("entry {0} lacks a key")]
    MissingKey(u32, Key),
    /// The entry or the top level has a key that there is not.
    #[error("an unknown key")]
    UnknownKey(Option<u32>),
    /// The value of a key is of another type, or out of its range.
    #[error("a bad value")]
    BadValue(Option<u32>, Key),
    /// The forest does not take the entry.
    #[error("entry {0}: {1}")]
    Tree(u32, TreeFault),
    /// Memory was refused.
    #[error("out of memory")]
    OutOfMemory,
}

impl From<AllocError> for InvFault {
    ghost from_gives = { λ _ e. e ≡ OutOfMemory };

    fn from(_e: AllocError) -> InvFault {
        InvFault::OutOfMemory
    }
}

impl<T: Drop> From<AllocFailed<T>> for InvFault {
    ghost from_gives = { λ _ e. e ≡ OutOfMemory };

    fn from(_e: AllocFailed<T>) -> InvFault {
        InvFault::OutOfMemory
    }
}
