//! What an entry of a text that is no inventory is called. The only error is lack of memory.
ghost use Rattle.std.specs.Prelude.{◌≡◌, IfOk, option_map, string_bytes};
ghost use Rattle.std.specs.Char.{is_ascii_graphic};
ghost use Rattle.std.specs.List.{list_all};
ghost use Rattle.toml.specs.Data.{get_item, get_member};
ghost use Rattle.toml.specs.View.{items_view, table_view, view};
ghost use Rattle.vault_inventory.specs.Inventory.{document_tree};
ghost use Rattle.vault_inventory.specs.Keys.{key_text};
ghost use Rattle.vault_inventory.specs.Written.{count_of};
ghost use Rattle.vault_lint.specs.FaultNames.{called, called_at, called_if, called_in, is_shown_name, items_in, name_in, numbered, tables_at, text_in};

use crate::naming::label_of;
use std::alloc::{AllocError, Global};
use toml::{Table, Value};
use vault_inventory::{InvFault, Key, read_document};

/// What the entry at an index is called: by its name, where the text has one that can be shown, else by its place among those of its
/// kind.
pub(crate) fn called_if(alloc: Global, bytes: &[u8], entry: u32) -> Result<String, AllocError>
    ensures { IfOk result (λ text. string_bytes text ≡ called_if (document_tree bytes.now) entry) }
{
    match read_document(alloc, bytes) {
        Ok(table) => called_in(alloc, &table, entry),
        Err(InvFault::OutOfMemory) => Err(AllocError),
        Err(_) => String::from_str(alloc, "an entry"),
    }
}

#[tactic(auto, unfolding(crate::specs::FaultNames::called_in))]
fn called_in(alloc: Global, table: &Table, entry: u32) -> Result<String, AllocError>
    ensures { IfOk result (λ text. string_bytes text ≡ called_in (table_view table.now) entry) }
{
    let tokens = tables_at(table, Key::Token);
    let count = count(tokens);
    if (entry as usize) < count {
        called_at(alloc, "token", tokens, entry)
    } else {
        let leases = tables_at(table, Key::Lease);
        called_at(alloc, "lease", leases, entry - count as u32)
    }
}

// The tables at a key.
fn tables_at(table: &Table, key: Key) -> &[Value]
    ensures { items_view result.now ≡ tables_at key (table_view table.now) }
{
    items_in(at(table, key))
}

// The value at a key.
fn at(table: &Table, key: Key) -> Option<&Value>
    ensures { option_map (λ v. view v.now) result ≡ get_member (key_text key) (table_view table.now) }
{
    table.get(key.text())
}

fn items_in(value: Option<&Value>) -> &[Value]
    ensures { items_view result.now ≡ items_in (option_map (λ v. view v.now) value.entry) }
{
    match value {
        Some(Value::Array(values)) => values.as_slice(),
        _ => &[],
    }
}

#[tactic(auto, using(crate::proofs::Names::counted))]
fn count(tables: &[Value]) -> usize
    ensures { result ≡ count_of (items_view tables.now) }
{
    tables.len()
}

fn called_at(alloc: Global, kind: &str, tables: &[Value], place: u32) -> Result<String, AllocError>
    ensures { IfOk result (λ text. string_bytes text ≡ called_at kind.now (items_view tables.now) place) }
{
    called(alloc, kind, place, name_in(item_at(tables, place)))
}

fn item_at(tables: &[Value], place: u32) -> Option<&Value>
    ensures { option_map (λ v. view v.now) result ≡ get_item place (items_view tables.now) }
{
    tables.get(place as usize)
}

// The name that a table writes.
fn name_in(table: Option<&Value>) -> Option<&str>
    ensures { option_map (λ name. name.now) result ≡ name_in (option_map (λ v. view v.now) table.entry) }
{
    match table {
        Some(Value::Table(table)) => text_in(at(table, Key::Name)),
        _ => None,
    }
}

fn text_in(value: Option<&Value>) -> Option<&str>
    ensures { option_map (λ text. text.now) result ≡ text_in (option_map (λ v. view v.now) value.entry) }
{
    match value {
        Some(Value::String(text)) => Some(text.as_str()),
        _ => None,
    }
}

fn called(alloc: Global, kind: &str, place: u32, name: Option<&str>) -> Result<String, AllocError>
    ensures { IfOk result (λ text. string_bytes text ≡ called kind.now place (option_map (λ n. n.now) name.entry)) }
{
    match name {
        Some(name) if is_shown_name(name) => label_of(alloc, name),
        _ => numbered(alloc, kind, place),
    }
}

fn numbered(alloc: Global, kind: &str, place: u32) -> Result<String, AllocError>
    ensures { IfOk result (λ text. string_bytes text ≡ numbered kind.now place) }
{
    let number = u64::from(place) + 1;
    format!(in alloc; "{kind} {number}")
}

// Whether a name is one that can be shown: 1 to 64 printable ASCII characters without blanks.
fn is_shown_name(name: &str) -> bool
    ensures { result ≡ is_shown_name name.now }
{
    let bytes = name.as_bytes();
    !bytes.is_empty() && bytes.len() <= 64 && is_graphic(bytes)
}

fn is_graphic(bytes: &[u8]) -> bool
    ensures { result ≡ list_all is_ascii_graphic bytes.now }
{
    bytes.iter().all(|byte| byte.is_ascii_graphic())
}
