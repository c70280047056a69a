ghost use Rattle.std.specs.Prelude.{◌≡◌, ◌<◌, Err, IfSome, length};
ghost use Rattle.toml.specs.View.{items_view, table_view};
ghost use Rattle.plan_forest.specs.Push.{entry_refusal};
ghost use Rattle.vault_inventory.specs.declared.fault.InvFault.TheVariants.{Tree};
ghost use Rattle.vault_inventory.specs.Intake.{Changes, empty_intake, tree_fault_told, pushed, distinct, key_written, with_token, with_lease};
ghost use Rattle.vault_inventory.specs.Languages.{full};
ghost use Rattle.vault_inventory.specs.Inventory.{token_entered, lease_entered, entered_by};

use crate::fault::InvFault;
use crate::key::Key;
use crate::note::EntryNote;
use crate::register::Register;
use crate::row::{TableRow, lease_row, token_row};
use crate::terms::Terms;
use base_moment::{Span, Text};
use plan_forest::{Entry, Forest, TreeFault};
use std::alloc::Global;
use std::marker::Model;
use toml::{Table, Value};

/// An inventory while its tables are read. After a fault it is of no more use.
#[derive(Debug, Drop)]
pub struct Draft {
    pub forest: Forest,
    pub secrets: Register,
    pub lease_ids: Register,
    pub terms: Vec<Terms>,
    pub notes: Vec<EntryNote>,
}

impl Model for Draft {
    ghost use Rattle.vault_inventory.specs.Intake.{Intake};

    ghost Value = { Intake };

    ghost view = { λ d. record { forest = d.forest; secrets = d.secrets; lease_ids = d.lease_ids; terms = d.terms.items; notes = d.notes.items } };
}

impl Draft {
    /// No entry, in a forest of that margin. It takes no memory.
    pub fn new(alloc: Global, margin: u32) -> Draft
        requires least { 0 < margin }
        requires most { margin < 3601 }
        ensures { result ≡ empty_intake margin }
    {
        Draft {
            forest: Forest::with_margin(alloc, margin),
            secrets: Register::new(alloc),
            lease_ids: Register::new(alloc),
            terms: Vec::new(alloc),
            notes: Vec::new(alloc),
        }
    }

    /// Enters the tables of the tokens, in the order written.
    pub fn enter_tokens(
        &mut self,
        alloc: Global,
        system_max: Span,
        tokens: &[Value],
    ) -> Result<(), InvFault>
        ensures { Changes (entered_by (token_entered full system_max) Key.Token self.old (items_view tokens.now)) self.new result }
    {
        for token in tokens {
            let Some(table) = token.as_table() else {
                return Err(InvFault::BadValue(None, Key::Token));
            };
            self.enter_token(alloc, system_max, table)?;
        }
        Ok(())
    }

    /// Enters the tables of the leases, in the order written.
    pub fn enter_leases(
        &mut self,
        alloc: Global,
        system_max: Span,
        leases: &[Value],
    ) -> Result<(), InvFault>
        ensures { Changes (entered_by (lease_entered full system_max) Key.Lease self.old (items_view leases.now)) self.new result }
    {
        for lease in leases {
            let Some(table) = lease.as_table() else {
                return Err(InvFault::BadValue(None, Key::Lease));
            };
            self.enter_lease(alloc, system_max, table)?;
        }
        Ok(())
    }

    // Enters the table of one token.
    #[tactic(auto, unfolding(crate::specs::Inventory::token_entered))]
    fn enter_token(
        &mut self,
        alloc: Global,
        system_max: Span,
        table: &Table,
    ) -> Result<(), InvFault>
        ensures { Changes (token_entered full system_max self.old (table_view table.now)) self.new result }
    {
        let row = token_row(alloc, system_max, &self.forest, table)?;
        self.add_token(alloc, row)
    }

    // Enters the table of one lease.
    #[tactic(auto, unfolding(crate::specs::Inventory::lease_entered))]
    fn enter_lease(
        &mut self,
        alloc: Global,
        system_max: Span,
        table: &Table,
    ) -> Result<(), InvFault>
        ensures { Changes (lease_entered full system_max self.old (table_view table.now)) self.new result }
    {
        let row = lease_row(alloc, system_max, &self.forest, table)?;
        self.add_lease(alloc, row)
    }

    // Adds the row of a token.
    #[tactic(auto, unfolding(crate::specs::Intake::with_token))]
    fn add_token(&mut self, alloc: Global, row: TableRow) -> Result<(), InvFault>
        ensures { Changes (with_token self.old row) self.new result }
    {
        let index = self.forest.len();
        push(&mut self.forest, row.entry)?;
        let key = key_written(Key::Secret, Key::SecretFile, &row.note);
        keep(alloc, &mut self.secrets, key, index, row.credential)?;
        self.terms.push(row.terms)?;
        self.notes.push(row.note)?;
        Ok(())
    }

    // Adds the row of a lease.
    #[tactic(auto, unfolding(crate::specs::Intake::with_lease))]
    fn add_lease(&mut self, alloc: Global, row: TableRow) -> Result<(), InvFault>
        ensures { Changes (with_lease self.old row) self.new result }
    {
        let index = self.forest.len();
        push(&mut self.forest, row.entry)?;
        let key = key_written(Key::LeaseId, Key::LeaseIdFile, &row.note);
        keep(alloc, &mut self.lease_ids, key, index, row.credential)?;
        self.terms.push(row.terms)?;
        self.notes.push(row.note)?;
        Ok(())
    }
}

// Appends an entry, or names why the forest refuses it. Where it refuses the entry, no memory is wanted.
#[tactic(auto, unfolding(crate::specs::Intake::pushed))]
fn push(forest: &mut Forest, entry: Entry) -> Result<(), InvFault>
    ensures pushed { Changes (pushed forest.old entry) forest.new result }
    ensures refused { IfSome (entry_refusal forest.old entry) (λ fault. result ≡ Err (Tree (length forest.old.entries) fault)) }
{
    let index = forest.len();
    match forest.push(entry) {
        Ok(_) => Ok(()),
        Err(fault) => Err(told(index, fault)),
    }
}

// What a forest said of the entry at an index.
fn told(index: u32, fault: TreeFault) -> InvFault
    ensures { result ≡ tree_fault_told index fault }
{
    match fault {
        TreeFault::OutOfMemory => InvFault::OutOfMemory,
        fault => InvFault::Tree(index, fault),
    }
}

// The key that writes the credential of an entry, or the name of its file.
fn key_written(key: Key, file_key: Key, note: &EntryNote) -> Key
    ensures { result ≡ key_written key file_key note.now.file }
{
    match &note.file {
        None => key,
        Some(_) => file_key,
    }
}

// Keeps the credential of the entry at an index, which none of its kind before it may have.
#[tactic(auto, unfolding(crate::specs::Intake::distinct))]
fn keep(
    alloc: Global,
    register: &mut Register,
    key: Key,
    index: u32,
    credential: Text,
) -> Result<(), InvFault>
    ensures { Changes (distinct key index register.old credential) register.new result }
{
    if register.add(alloc, credential)? {
        Ok(())
    } else {
        Err(InvFault::BadValue(Some(index), key))
    }
}
