ghost use Rattle.std.specs.Prelude.{◌≡◌, ◌++◌, ◌∷◌, [], true, None, Ok, IfErr, IfOk, OnErr, OnOk, option_map};
ghost use Rattle.std.specs.Bool.{beq};
ghost use Rattle.std.specs.List.{position};
ghost use Rattle.state_changes.specs.Changes.{IsWhy, change_refusal, never_refuses, refusal_of_entry, refused_credential, refused_drop, refused_row, rows_changed};
ghost use Rattle.state_changes.specs.code.Index.{has_seen};
ghost use Rattle.state_changes.specs.Rows.{has_under, is_deep, is_row_named, is_row_under_lease, is_taken, is_under, named, row_lacks_parent, with_named, without_row};

use crate::change::ChangeKind;
use crate::fault::ChangeFault;
use crate::index::{Places, credentials_of, place_of, places_of};
use crate::row::Row;
use base_moment::{Name, Text};
use plan_forest::{MAX_DEPTH, MAX_ENTRIES};
use std::alloc::{AllocError, Global};
use std::fmt;
use std::marker::Model;
use vault_inventory::Need;

/// The entries of an inventory as its tables write them, in order, with a look-up by name.
#[derive(Drop)]
pub struct Rows {
    items: Vec<Row>,
    places: Places,
    // Whether no two rows have one name; the look-up goes over all rows where two have.
    is_apart: bool,
    // The credentials that rows have, or had.
    credentials: Places,
}

impl Model for Rows {
    ghost use Rattle.std.specs.Prelude.{◌≡◌, List, true};
    ghost use Rattle.state_changes.specs.declared.row.Row.{Row};
    ghost use Rattle.state_changes.specs.code.Index.{has_seen, is_index};

    ghost Value = { List Row };

    ghost view = { λ rows. rows.items.items };

    ghost invariant = { λ rows. (is_index rows.is_apart rows.places rows.items.items ≡ true) × (has_seen rows.credentials rows.items.items ≡ true) };
}

impl fmt::Debug for Rows {
    /// Shows the rows, without their credentials.
    fn fmt<W: fmt::Write>(&self, f: &mut fmt::Formatter<W>) -> fmt::Result {
        f.debug_struct("Rows")
            .field("items", &self.items)
            .finish_non_exhaustive()
    }
}

impl Rows {
    /// These rows. The only error is out of memory.
    pub fn of(alloc: Global, items: Vec<Row>) -> Result<Rows, AllocError>
        ensures { IfOk result (λ rows. rows ≡ items.items) }
    {
        let (places, is_apart) = places_of(alloc, &items)?;
        let credentials = credentials_of(alloc, &items)?;
        Ok(Rows {
            items,
            places,
            is_apart,
            credentials,
        })
    }

    /// The rows in order.
    pub fn list(&self) -> &[Row]
        ensures { result.now ≡ self.now }
    {
        &self.items
    }

    /// Gives the rows back, without taking memory.
    pub fn into_vec(self) -> Vec<Row>
        ensures { result.items ≡ self }
    {
        self.items
    }

    /// The row of the entry of that name.
    #[tactic(auto, using(crate::proofs::Places::place_within, crate::proofs::Places::found_at, crate::proofs::Places::unplaced))]
    pub fn named(&self, name: &[u8]) -> Option<&Row>
        ensures { option_map (λ row. row.now) result ≡ named self.now name.now }
    {
        let place = self.place(name)?;
        Some(&self.items[place])
    }

    // The place of the entry of that name.
    fn place(&self, name: &[u8]) -> Option<usize>
        ensures { result ≡ position (is_row_named name.now) self.now }
    {
        place_of(&self.items, &self.places, self.is_apart, name)
    }

    /// The same rows once more. The only error is out of memory.
    pub fn copy(&self, alloc: Global) -> Result<Rows, AllocError>
        ensures { IfOk result (λ rows. rows ≡ self.now) }
    {
        Rows::of(alloc, copy_rows(alloc, &self.items)?)
    }

    /// Makes a change of the entry of that name, in an inventory of that margin in seconds; an entry that is added has the name
    /// of its row. Where it is refused, nothing is changed. A need and a drop take no memory.
    ///
    /// # Errors
    ///
    /// The first that applies: `NoEntry`, no entry has the name; of a credential, `CredentialTwice`, another entry of the
    /// kind has it, and `InFile`, the entry names a file that holds its credential; of a drop, `HasUnder`, other entries
    /// are under the entry; of an addition, those from `NameTwice` to `CredentialTwice` in their order, and `OutOfMemory`.
    #[tactic(auto, using(crate::proofs::Places::free_name), unfolding(crate::specs::Changes::rows_changed))]
    pub fn change(&mut self, margin: u32, name: &[u8], what: ChangeKind) -> Result<(), ChangeFault>
        ensures made { OnOk result (rows_changed margin self.old name.now what ≡ Ok self.new) }
        ensures refused { IfErr result (IsWhy (change_refusal margin self.old name.now what) what) }
        ensures unchanged { OnErr result (self.new ≡ self.old) }
    {
        if let Some(fault) = self.refusal(margin, name, &what) {
            return Err(fault);
        }
        match what {
            ChangeKind::Need(until) => {
                self.set_need(name, until);
                Ok(())
            }
            ChangeKind::Replace(credential) => self.set_credential(name, credential),
            ChangeKind::Add(row) => self.push(row),
            ChangeKind::Drop => {
                self.remove(name);
                Ok(())
            }
        }
    }

    // Sets until when the entry of that name is needed, where there is one.
    #[tactic(auto, using(crate::proofs::Places::place_within, crate::proofs::Places::need_named, crate::proofs::Places::nobody_needs, crate::proofs::Places::index_need, crate::proofs::Places::seen_set_need))]
    fn set_need(&mut self, name: &[u8], until: Need)
        ensures { self.new ≡ with_named (λ row. record row { need = until }) name.now self.old }
    {
        if let Some(index) = self.place(name) {
            self.items[index].need = until;
        }
    }

    // Sets the credential of the entry of that name, where there is one.
    #[tactic(auto, using(crate::proofs::Places::place_within, crate::proofs::Places::credential_named, crate::proofs::Places::nobody_has, crate::proofs::Places::index_credential, crate::proofs::Places::seen_set_credential, crate::proofs::Seen::seen_again))]
    fn set_credential(&mut self, name: &[u8], credential: Text) -> Result<(), ChangeFault>
        ensures set { OnOk result (self.new ≡ with_named (λ row. record row { credential = credential }) name.now self.old) }
        ensures unchanged { IfErr result (λ fault. (fault ≡ ChangeFault.OutOfMemory) × (self.new ≡ self.old)) }
    {
        let place = self.place(name);
        let key = Vec::from_slice(*self.items.allocator(), credential.list())?;
        self.credentials.insert(key, 0)?;
        if let Some(place) = place {
            self.items[place].credential = credential;
        }
        Ok(())
    }

    // Appends an entry whose name no other has.
    #[tactic(auto, using(crate::proofs::Finding::index_more, crate::proofs::Finding::index_push, crate::proofs::Seen::seen_again, crate::proofs::Seen::seen_push))]
    fn push(&mut self, row: Row) -> Result<(), ChangeFault>
        requires { named self.old row.name ≡ None }
        ensures pushed { OnOk result (self.new ≡ self.old ++ row ∷ []) }
        ensures unchanged { IfErr result (λ fault. (fault ≡ ChangeFault.OutOfMemory) × (self.new ≡ self.old)) }
    {
        let place = self.items.len();
        let name = Vec::from_slice(*self.items.allocator(), row.name.list())?;
        let credential = Vec::from_slice(*self.items.allocator(), row.credential.list())?;
        self.items.reserve(1)?;
        self.places.insert(name, place)?;
        self.credentials.insert(credential, place)?;
        self.items.push(row).unwrap();
        Ok(())
    }

    // Takes out the entry of that name, where there is one.
    #[tactic(auto, using(crate::proofs::Places::place_within, crate::proofs::Places::remove_named, crate::proofs::Places::nobody_dropped, crate::proofs::Places::index_removed, crate::proofs::Places::seen_removed))]
    fn remove(&mut self, name: &[u8])
        ensures { self.new ≡ without_row name.now self.old }
    {
        if let Some(index) = self.place(name) {
            self.items.remove(index);
        }
    }

    /// Why a change of the entry of that name cannot be made, in an inventory of that margin in seconds; `None` where it can.
    #[tactic(auto, unfolding(crate::specs::Changes::change_refusal))]
    pub fn refusal(&self, margin: u32, name: &[u8], what: &ChangeKind) -> Option<ChangeFault>
        ensures { result ≡ change_refusal margin self.now name.now what.now }
    {
        match what {
            ChangeKind::Need(_) => self.refused_need(name),
            ChangeKind::Replace(credential) => self.refused_credential(name, credential.list()),
            ChangeKind::Add(row) => self.refused_row(margin, row),
            ChangeKind::Drop => self.refused_drop(name),
        }
    }

    fn refused_need(&self, name: &[u8]) -> Option<ChangeFault>
        ensures { result ≡ refusal_of_entry never_refuses (named self.now name.now) }
    {
        match self.named(name) {
            None => Some(ChangeFault::NoEntry),
            Some(_) => None,
        }
    }

    fn refused_credential(&self, name: &[u8], credential: &[u8]) -> Option<ChangeFault>
        ensures { result ≡ refusal_of_entry (refused_credential self.now credential.now) (named self.now name.now) }
    {
        match self.named(name) {
            None => Some(ChangeFault::NoEntry),
            Some(row) if self.is_taken(row, credential) => Some(ChangeFault::CredentialTwice),
            Some(row) if row.file.is_some() => Some(ChangeFault::InFile),
            Some(_) => None,
        }
    }

    fn refused_drop(&self, name: &[u8]) -> Option<ChangeFault>
        ensures { result ≡ refusal_of_entry (refused_drop self.now) (named self.now name.now) }
    {
        match self.named(name) {
            None => Some(ChangeFault::NoEntry),
            Some(row) if self.has_under(row.name.list()) => Some(ChangeFault::HasUnder),
            Some(_) => None,
        }
    }

    // Why an entry cannot be added.
    #[tactic(auto, unfolding(crate::specs::Changes::refused_row))]
    fn refused_row(&self, margin: u32, row: &Row) -> Option<ChangeFault>
        ensures { result ≡ refused_row margin self.now row.now }
    {
        if self.named(row.name.list()).is_some() {
            Some(ChangeFault::NameTwice)
        } else if self.lacks_parent(&row.parent) {
            Some(ChangeFault::NoParent)
        } else if self.is_under_lease(&row.parent) {
            Some(ChangeFault::ParentIsLease)
        } else if (row.terms.step() as u64) < margin as u64 + 1 {
            Some(ChangeFault::StepTooSmall)
        } else if self.is_deep(MAX_DEPTH, &row.parent) {
            Some(ChangeFault::TooDeep)
        } else if self.items.len() >= MAX_ENTRIES {
            Some(ChangeFault::Full)
        } else if self.is_taken(row, row.credential.list()) {
            Some(ChangeFault::CredentialTwice)
        } else {
            None
        }
    }

    // Whether no entry has the name of the one that is to stand over.
    fn lacks_parent(&self, parent: &Option<Name>) -> bool
        ensures { result ≡ row_lacks_parent self.now parent.now }
    {
        match parent {
            None => false,
            Some(name) => self.named(name.list()).is_none(),
        }
    }

    // Whether the entry that is to stand over is a lease.
    fn is_under_lease(&self, parent: &Option<Name>) -> bool
        ensures { result ≡ is_row_under_lease self.now parent.now }
    {
        match parent {
            None => false,
            Some(name) => match self.named(name.list()) {
                None => false,
                Some(row) => row.kind.is_lease(),
            },
        }
    }

    // Whether so many entries or more stand one over the other, from that one up.
    #[tactic(auto, using(crate::proofs::Depths::deep_none, crate::proofs::Depths::deep_orphan, crate::proofs::Depths::deep_under))]
    fn is_deep(&self, most: usize, parent: &Option<Name>) -> bool
        ensures { result ≡ is_deep most self.now parent.now }
    {
        if most == 0 {
            return true;
        }
        let Some(name) = parent else {
            return false;
        };
        match self.named(name.list()) {
            None => false,
            Some(row) => self.is_deep(most - 1, &row.parent),
        }
    }

    // Whether another entry of the kind has that credential.
    fn is_taken(&self, row: &Row, credential: &[u8]) -> bool
        ensures { result ≡ is_taken self.now row.now credential.now }
    {
        is_taken_in(&self.items, &self.credentials, row, credential)
    }

    /// Whether some entry is right under the one of that name.
    #[tactic(auto, unfolding(crate::specs::Rows::has_under))]
    pub fn has_under(&self, name: &[u8]) -> bool
        ensures { result ≡ has_under self.now name.now }
    {
        self.items.iter().any(|row| is_under(row, name))
    }
}

// The same rows once more.
fn copy_rows(alloc: Global, rows: &[Row]) -> Result<Vec<Row>, AllocError>
    ensures { IfOk result (λ copies. copies.items ≡ rows.now) }
{
    let mut copies = Vec::new(alloc);
    for row in rows {
        copies.push(row.copy()?)?;
    }
    Ok(copies)
}

// Whether the token of that name is the one over the entry.
fn is_under(row: &Row, name: &[u8]) -> bool
    ensures { result ≡ is_under name.now row.now }
{
    match &row.parent {
        None => false,
        Some(parent) => parent.list() == name,
    }
}

// Whether another of these rows of the kind has that credential. One that was never seen is no other's.
#[tactic(auto, using(crate::proofs::Seen::never_seen))]
fn is_taken_in(rows: &[Row], credentials: &Places, row: &Row, credential: &[u8]) -> bool
    requires { has_seen credentials.now rows.now ≡ true }
    ensures { result ≡ is_taken rows.now row.now credential.now }
{
    if credentials.get(credential).is_none() {
        return false;
    }
    is_held(rows, row, credential)
}

#[tactic(auto, unfolding(crate::specs::Rows::is_taken))]
fn is_held(rows: &[Row], row: &Row, credential: &[u8]) -> bool
    ensures { result ≡ is_taken rows.now row.now credential.now }
{
    rows.iter().any(|other| {
        other.name.list() != row.name.list()
            && other.kind.is_lease() == row.kind.is_lease()
            && other.credential.list() == credential
    })
}
