ghost use Rattle.std.specs.Prelude.{◌≡◌, ◌++◌, ◌∷◌, [], Err, IfOk, MatchResult, Ok, OnOk, codes, decimal, option_copied, option_map, string_bytes};
ghost use Rattle.std.specs.List.{list_all};
ghost use Rattle.std.specs.BTreeMap.{keys as map_keys};
ghost use Rattle.toml.specs.Data.{get_member};
ghost use Rattle.toml.specs.View.{items_view, table_view, view};
ghost use Rattle.plan_forest.specs.Push.{is_name, is_name_byte};
ghost use Rattle.vault_inventory.specs.Keys.{all_keys, is_one_of, key_text};
ghost use Rattle.state_keeping.specs.Tables.{GivesOr, beside, if_name, most_text, name_in, over_entry, over_in, over_item, over_items, over_of, over_text, place_after_parent, row_at_place, row_of_table};

use crate::fault::TableFault;
use base_moment::{Span, Text};
use base_words::push_number;
use plan_forest::NAME_MAX;
use state_changes::{Row, rows_of};
use std::alloc::{AllocError, Global};
use toml::{Table, Value};
use vault_inventory::{Key, ServedInventory, read_document, read_served};

/// The entry that a text writes: one table `[[token]]` or `[[lease]]` of an inventory with that maximum TTL of the system, where one is
/// written, whatever it stands under.
///
/// # Errors
///
/// The first in the order of [`TableFault`].
#[tactic(auto, unfolding(crate::specs::Tables::row_of_table))]
pub fn read_table(alloc: Global, system_max: Option<Span>, table: &[u8]) -> Result<Row, TableFault>
    ensures { GivesOr result (row_of_table system_max table.now) }
{
    let tree = read_document(alloc, table)?;
    let over = over_entry(&tree)?;
    let text = beside(alloc, system_max, over, table)?;
    match read_served(alloc, text.list()) {
        Ok(served) => entry_at(alloc, &served, place_of(over)),
        Err(fault) => Err(TableFault::from(fault)),
    }
}

// The name of the token over the one entry of a document.
#[tactic(auto, unfolding(crate::specs::Tables::over_entry))]
fn over_entry(tree: &Table) -> Result<Option<&[u8]>, TableFault>
    ensures { MatchResult result (λ over. over_entry (table_view tree.now) ≡ Ok (option_copied over)) (λ fault. over_entry (table_view tree.now) ≡ Err fault) }
{
    if !has_only(tree, &[Key::Token, Key::Lease]) {
        return Err(TableFault::NotOne);
    }
    match (at(tree, Key::Token), at(tree, Key::Lease)) {
        (Some(tokens), None) => over_in(Key::Parent, tokens),
        (None, Some(leases)) => over_in(Key::Token, leases),
        _ => Err(TableFault::NotOne),
    }
}

// The name at a key of the one table of an array.
fn over_in(key: Key, tables: &Value) -> Result<Option<&[u8]>, TableFault>
    ensures { MatchResult result (λ over. over_in key (view tables.now) ≡ Ok (option_copied over)) (λ fault. over_in key (view tables.now) ≡ Err fault) }
{
    match tables {
        Value::Array(items) => over_items(key, items.as_slice()),
        _ => Err(TableFault::NotOne),
    }
}

#[tactic(auto, using(crate::proofs::Tabled::one_item, crate::proofs::Tabled::other_items))]
fn over_items(key: Key, items: &[Value]) -> Result<Option<&[u8]>, TableFault>
    ensures { MatchResult result (λ over. over_items key (items_view items.now) ≡ Ok (option_copied over)) (λ fault. over_items key (items_view items.now) ≡ Err fault) }
{
    if items.len() != 1 {
        return Err(TableFault::NotOne);
    }
    over_item(key, &items[0])
}

fn over_item(key: Key, item: &Value) -> Result<Option<&[u8]>, TableFault>
    ensures { MatchResult result (λ over. over_item key (view item.now) ≡ Ok (option_copied over)) (λ fault. over_item key (view item.now) ≡ Err fault) }
{
    match item {
        Value::Table(table) => Ok(name_at(table, key)),
        _ => Err(TableFault::NotOne),
    }
}

fn name_at(table: &Table, key: Key) -> Option<&[u8]>
    ensures { option_copied result ≡ name_in (get_member (key_text key) (table_view table.now)) }
{
    match at(table, key) {
        Some(Value::String(name)) => if_name(name.as_bytes()),
        _ => None,
    }
}

// The bytes, where they are a name that an entry may have.
fn if_name(bytes: &[u8]) -> Option<&[u8]>
    ensures { option_copied result ≡ if_name bytes.now }
{
    if is_name(bytes) { Some(bytes) } else { None }
}

#[tactic(auto, unfolding(plan_forest::specs::Push::is_name))]
fn is_name(bytes: &[u8]) -> bool
    ensures { result ≡ is_name bytes.now }
{
    !bytes.is_empty() && bytes.len() <= NAME_MAX && has_name_bytes(bytes)
}

fn has_name_bytes(bytes: &[u8]) -> bool
    ensures { result ≡ list_all is_name_byte bytes.now }
{
    bytes.iter().all(|b| b.is_ascii_alphanumeric()
        || *b == b'-'
        || *b == b'_'
        || *b == b'.'
        || *b == b'/')
}

// The value at a key.
fn at(table: &Table, key: Key) -> Option<&Value>
    ensures { option_map (λ v. view v.now) result ≡ get_member (key_text key) (table_view table.now) }
{
    table.get(key.text())
}

// Whether a table has no other key than these.
fn has_only(table: &Table, keys: &[Key]) -> bool
    ensures { result ≡ all_keys (is_one_of keys.now) (table_view table.now) }
{
    are_known(table, keys)
}

fn are_known(table: &Table, keys: &[Key]) -> bool
    ensures { result ≡ list_all (λ k. is_one_of keys.now (string_bytes k)) (map_keys table.now) }
{
    table.keys().all(|key| is_one_of(keys, key.as_str()))
}

// Whether this is the text of one of the keys.
fn is_one_of(keys: &[Key], text: &str) -> bool
    ensures { result ≡ is_one_of keys.now text.now }
{
    keys.iter().any(|key| key.text() == text)
}

// The table in an inventory: after the maximum TTL of the system and the token over it.
#[tactic(auto, unfolding(crate::specs::Tables::beside))]
fn beside(
    alloc: Global,
    system_max: Option<Span>,
    over: Option<&[u8]>,
    table: &[u8],
) -> Result<Text, AllocError>
    ensures { IfOk result (λ text. text ≡ beside system_max (option_copied over.entry) table.now) }
{
    let mut text = Vec::new(alloc);
    push_most(alloc, system_max, &mut text)?;
    push_over(over, &mut text)?;
    text.extend_from_slice(table)?;
    Ok(Text::from_vec(text))
}

// Appends the maximum TTL of the system, where one is written.
fn push_most(alloc: Global, system_max: Option<Span>, text: &mut Vec<u8>) -> Result<(), AllocError>
    ensures { OnOk result (text.new.items ≡ text.old.items ++ most_text system_max) }
{
    match system_max {
        None => Ok(()),
        Some(most) => push_system_max(alloc, u64::from(most), text),
    }
}

fn push_system_max(alloc: Global, most: u64, text: &mut Vec<u8>) -> Result<(), AllocError>
    ensures { OnOk result (text.new.items ≡ text.old.items ++ (codes "system_max = " ++ (decimal most ++ 10 ∷ []))) }
{
    text.extend_from_slice(b"system_max = ")?;
    push_number(alloc, most, text)?;
    text.push(b'\n')?;
    Ok(())
}

// Appends a token of that name, where there is one.
fn push_over(over: Option<&[u8]>, text: &mut Vec<u8>) -> Result<(), AllocError>
    ensures { OnOk result (text.new.items ≡ text.old.items ++ over_text (option_copied over.entry)) }
{
    let Some(name) = over else {
        return Ok(());
    };
    text.extend_from_slice(b"[[token]]")?;
    text.push(b'\n')?;
    text.extend_from_slice(b"name = '")?;
    text.extend_from_slice(name)?;
    text.push(b'\'')?;
    text.push(b'\n')?;
    text.extend_from_slice(b"secret = '-'")?;
    text.push(b'\n')?;
    Ok(())
}

// The place of the entry, after the token over it.
fn place_of(over: Option<&[u8]>) -> usize
    ensures { result ≡ place_after_parent (option_copied over.entry) }
{
    match over {
        None => 0,
        Some(_) => 1,
    }
}

// The row of the entry at a place.
fn entry_at(alloc: Global, served: &ServedInventory, place: usize) -> Result<Row, TableFault>
    ensures { GivesOr result (row_at_place place (Ok served.now)) }
{
    let rows = rows_of(alloc, served)?;
    match rows.list().get(place) {
        None => Err(TableFault::NotOne),
        Some(row) => Ok(row.copy()?),
    }
}
