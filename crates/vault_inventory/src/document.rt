ghost use Rattle.std.specs.Prelude.{◌≡◌, ◌⊎◌, Err, IfErr, IfOk, Ok};
ghost use Rattle.toml.specs.Errors.{IsMemory};
ghost use Rattle.toml.specs.View.{table_view};
ghost use Rattle.vault_inventory.specs.Answers.{GivesOrInvFault};
ghost use Rattle.vault_inventory.specs.declared.fault.InvFault.TheVariants.{NotToml, OutOfMemory};
ghost use Rattle.vault_inventory.specs.Inventory.{intake_of, served_of, document_tree, read_inventory, read_known, read_served, system_max_in};
ghost use Rattle.vault_inventory.specs.Languages.{full};

use crate::draft::Draft;
use crate::fault::InvFault;
use crate::inventory::Inventory;
use crate::key::Key;
use crate::known::only_top_keys;
use crate::limits::{SPAN_MAX, SYSTEM_MAX};
use crate::served::ServedInventory;
use crate::value::{is_there, span_at, tables_at};
use base_moment::Span;
use plan_forest::MARGIN_MAX;
use std::alloc::Global;
use toml::Table;

/// What these bytes write: a document of TOML 1.1 in UTF-8, with the tables `[[token]]` and `[[lease]]`, in the full language.
///
/// # Errors
///
/// The first fault in the order of [`InvFault`], or out of memory.
#[tactic(auto, unfolding(crate::specs::Inventory::read_served))]
pub fn read_served(alloc: Global, bytes: &[u8]) -> Result<ServedInventory, InvFault>
    ensures { GivesOrInvFault (λ served. served) result (read_served bytes.now) }
{
    let table = read_document(alloc, bytes)?;
    served_in(alloc, &table)
}

/// What these bytes write, where each table writes its end.
///
/// # Errors
///
/// Those of [`read_served`]; then `MissingKey` with `issued`, of the first table that leaves its end to a lookup.
#[tactic(auto, unfolding(crate::specs::Inventory::read_known))]
pub fn read_known(alloc: Global, bytes: &[u8]) -> Result<ServedInventory, InvFault>
    ensures { GivesOrInvFault (λ served. served) result (read_known bytes.now) }
{
    read_served(alloc, bytes)?.into_known()
}

/// The inventory that these bytes write, where no table leaves anything open.
///
/// # Errors
///
/// Those of [`read_served`]; then, of the first table that leaves something open, `MissingKey` with `issued` where a lookup is to
/// tell its end, and `BadValue` with `need` where that is `always`.
#[tactic(auto, unfolding(crate::specs::Inventory::read_inventory))]
pub fn read(alloc: Global, bytes: &[u8]) -> Result<Inventory, InvFault>
    ensures { GivesOrInvFault (λ inventory. inventory) result (read_inventory bytes.now) }
{
    read_served(alloc, bytes)?.into_whole()
}

/// The tree of a document of TOML 1.1 in UTF-8.
///
/// # Errors
///
/// `NotToml`, or out of memory.
#[tactic(auto, unfolding(crate::specs::Inventory::document_tree))]
pub fn read_document(alloc: Global, bytes: &[u8]) -> Result<Table, InvFault>
    ensures { GivesOrInvFault table_view result (document_tree bytes.now) }
{
    let Ok(text) = std::str::from_utf8(bytes) else {
        return Err(InvFault::NotToml);
    };
    judged(toml::table_from_str(alloc, text))
}

// The tree that was read; and why there is none: memory ran out only where the reader says so.
fn judged(read: Result<Table, toml::de::Error>) -> Result<Table, InvFault>
    ensures tree { IfOk read (λ table. result ≡ Ok table) }
    ensures none { IfErr read (λ error. (IsMemory error × (result ≡ Err OutOfMemory)) ⊎ ((¬ IsMemory error) × (result ≡ Err NotToml))) }
{
    match read {
        Ok(table) => Ok(table),
        Err(error) if error.is_memory() => Err(InvFault::OutOfMemory),
        Err(_) => Err(InvFault::NotToml),
    }
}

// What a document's tree writes: the first fault is never `NotToml`.
#[tactic(auto, unfolding(crate::specs::Inventory::served_of))]
fn served_in(alloc: Global, table: &Table) -> Result<ServedInventory, InvFault>
    ensures { GivesOrInvFault (λ served. served) result (served_of full (table_view table.now)) }
{
    let draft = read_draft(alloc, table)?;
    let has_margin = is_there(table, Key::Margin);
    Ok(ServedInventory::of(draft, has_margin, system_max_in(table)))
}

// The maximum TTL of the system that a document's tree writes.
#[tactic(auto, unfolding(crate::specs::Inventory::system_max_in))]
fn system_max_in(table: &Table) -> Option<Span>
    ensures { result ≡ system_max_in (table_view table.now) }
{
    match span_at(table, None, Key::SystemMax, 1, SPAN_MAX) {
        Ok(most) => most,
        Err(_) => None,
    }
}

// The entries of a document's tree.
#[tactic(auto, unfolding(crate::specs::Inventory::intake_of))]
fn read_draft(alloc: Global, table: &Table) -> Result<Draft, InvFault>
    ensures { GivesOrInvFault (λ intake. intake) result (intake_of full (table_view table.now)) }
{
    only_top_keys(table)?;
    let system_max = span_at(table, None, Key::SystemMax, 1, SPAN_MAX)?.unwrap_or(SYSTEM_MAX);
    let margin = span_at(table, None, Key::Margin, 1, MARGIN_MAX)?.unwrap_or(1);
    let tokens = tables_at(table, Key::Token)?.unwrap_or(&[]);
    let leases = tables_at(table, Key::Lease)?.unwrap_or(&[]);
    let mut draft = Draft::new(alloc, margin);
    draft.enter_tokens(alloc, system_max, tokens)?;
    draft.enter_leases(alloc, system_max, leases)?;
    Ok(draft)
}
