ghost use Rattle.std.specs.Prelude.{◌≡◌, IfOk};

use crate::row::Row;
use base_moment::{Name, Text};
use std::alloc::AllocError;
use std::fmt;
use vault_inventory::Need;

/// What a change makes of the entry that it names.
#[derive(Drop)]
pub enum ChangeKind {
    /// It is needed until then from now on; the moment 0 is no need.
    Need(Need),
    /// Its credential is this one from now on: a token's own value, or a lease's id.
    Replace(Text),
    /// It is kept from now on, as this row writes it. It has the name of the row.
    Add(Row),
    /// It is kept no more.
    Drop,
}

/// A change of an inventory, which stands beside what the inventory's file said of the same word when it was made.
#[derive(Drop)]
pub struct Change {
    /// The name of the entry.
    pub name: Name,
    /// What the file said then, as [`said`](crate::said) gives it.
    pub was: Text,
    pub what: ChangeKind,
}

/// A record of the journal.
#[derive(Drop)]
pub enum Record {
    /// A change that was acknowledged.
    Made(Change),
    /// The file with this fingerprint is to hold every change before.
    Settling(Text),
}

impl ChangeKind {
    /// The same once more. The only error is out of memory.
    pub fn copy(&self) -> Result<ChangeKind, AllocError>
        ensures { IfOk result (λ what. what ≡ self.now) }
    {
        match self {
            ChangeKind::Need(until) => Ok(ChangeKind::Need(*until)),
            ChangeKind::Replace(credential) => Ok(ChangeKind::Replace(credential.clone()?)),
            ChangeKind::Add(row) => Ok(ChangeKind::Add(row.copy()?)),
            ChangeKind::Drop => Ok(ChangeKind::Drop),
        }
    }
}

impl fmt::Debug for ChangeKind {
    /// Shows what it changes, a need, and of a row the name and the kind. A credential is secret.
    fn fmt<W: fmt::Write>(&self, f: &mut fmt::Formatter<W>) -> fmt::Result {
        match self {
            ChangeKind::Need(need) => f.debug_tuple("Need").field(need).finish(),
            ChangeKind::Replace(_) => f.write_str("Replace(..)"),
            ChangeKind::Add(row) => f.debug_tuple("Add").field(row).finish(),
            ChangeKind::Drop => f.write_str("Drop"),
        }
    }
}

impl fmt::Debug for Change {
    /// Shows the name and what is changed of it, without a credential.
    fn fmt<W: fmt::Write>(&self, f: &mut fmt::Formatter<W>) -> fmt::Result {
        f.debug_struct("Change")
            .field("name", &self.name)
            .field("what", &self.what)
            .finish_non_exhaustive()
    }
}

impl fmt::Debug for Record {
    /// Shows a change as its own, and of the settling that it is one.
    fn fmt<W: fmt::Write>(&self, f: &mut fmt::Formatter<W>) -> fmt::Result {
        match self {
            Record::Made(change) => f.debug_tuple("Made").field(change).finish(),
            Record::Settling(_) => f.write_str("Settling(..)"),
        }
    }
}
