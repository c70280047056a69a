ghost use Rattle.std.specs.Prelude.{◌≡◌, ◌&&◌, ◌==◌, option_map, option_copied, None, is_some, nat_le, not};
ghost use Rattle.std.specs.List.{list_all};
ghost use Rattle.std.specs.Int.{is_in_range};
ghost use Rattle.toml.specs.View.{view, table_view, items_view};
ghost use Rattle.toml.specs.Data.{get_member, as_table};
ghost use Rattle.toml.specs.Text.{are_tables};
ghost use Rattle.vault_inventory.specs.Keys.{key_text};
ghost use Rattle.vault_inventory.specs.Answers.{GivesOrInvFault};
ghost use Rattle.vault_inventory.specs.Languages.{full};
ghost use Rattle.vault_inventory.specs.Values.{whole, if_within, span, moment_value, end_value, is_always, need, flag_value, text, credential, is_credential, is_path, path, tables, is_key_there, value_at};

use crate::duration::read_duration;
use crate::fault::InvFault;
use crate::key::Key;
use crate::limits::{CREDENTIAL_MAX, PATH_MAX};
use crate::need::Need;
use base_moment::{LAST, Moment, Span, read_rfc3339};
use plan_forest::END_MAX;
use toml::{Table, Value};

// The value at a key.
fn at(table: &Table, key: Key) -> Option<&Value>
    ensures { option_map (λ v. view v.now) result ≡ get_member (key_text key) (table_view table.now) }
{
    table.get(key.text())
}

// A whole number of this range.
fn whole(value: &Value, low: u64, high: u64) -> Option<u64>
    ensures { result ≡ whole low high (view value.now) }
{
    match value {
        Value::Integer(n) if *n >= 0 && low <= *n as u64 && *n as u64 <= high => Some(*n as u64),
        _ => None,
    }
}

// The number, where it is of this range.
fn if_within(number: Option<u64>, low: u64, high: u64) -> Option<u64>
    ensures { result ≡ if_within low high number }
{
    match number {
        Some(n) if low <= n && n <= high => Some(n),
        _ => None,
    }
}

// A duration of this range: a whole number of seconds, or a text with units.
fn as_span(value: &Value, low: u64, high: u64) -> Option<u64>
    ensures { result ≡ span full low high (view value.now) }
{
    match value {
        Value::String(text) => if_within(read_duration(text.as_bytes()), low, high),
        _ => whole(value, low, high),
    }
}

// A need: a moment, or `always`.
fn as_need(value: &Value) -> Option<Need>
    ensures { result ≡ need full (view value.now) }
{
    match value {
        Value::String(text) if is_always(text.as_str()) => Some(Need::Always),
        _ => Some(Need::Until(as_moment(value)?)),
    }
}

#[tactic(auto, unfolding(crate::specs::Values::is_always))]
fn is_always(text: &str) -> bool
    ensures { result ≡ is_always text.now }
{
    text == "always"
}

// A moment: a whole number of seconds, or a date and time by RFC 3339.
fn as_moment(value: &Value) -> Option<Moment>
    ensures { result ≡ moment_value (view value.now) }
{
    match value {
        Value::String(text) => read_rfc3339(text.as_str()).ok(),
        _ => Moment::new(whole(value, 0, LAST)?),
    }
}

// An end: a moment, or a whole number of seconds up to the greatest end.
fn as_end(value: &Value) -> Option<u64>
    ensures { result ≡ end_value (view value.now) }
{
    match value {
        Value::String(text) => Some(read_rfc3339(text.as_str()).ok()?.get()),
        _ => whole(value, 0, END_MAX),
    }
}

/// The moment at a key, in whole seconds since 1970-01-01T00:00:00Z, if the key is there.
pub fn moment_at(table: &Table, place: Option<u32>, key: Key) -> Result<Option<Moment>, InvFault>
    ensures { result ≡ value_at moment_value place key (table_view table.now) }
{
    let Some(value) = at(table, key) else {
        return Ok(None);
    };
    match as_moment(value) {
        Some(moment) => Ok(Some(moment)),
        None => Err(InvFault::BadValue(place, key)),
    }
}

/// The end at a key, in whole seconds since 1970-01-01T00:00:00Z, if the key is there.
pub fn end_at(table: &Table, place: Option<u32>, key: Key) -> Result<Option<u64>, InvFault>
    ensures { result ≡ value_at end_value place key (table_view table.now) }
{
    let Some(value) = at(table, key) else {
        return Ok(None);
    };
    match as_end(value) {
        Some(seconds) => Ok(Some(seconds)),
        None => Err(InvFault::BadValue(place, key)),
    }
}

/// The need at a key, if the key is there.
pub fn need_at(table: &Table, place: Option<u32>, key: Key) -> Result<Option<Need>, InvFault>
    ensures { result ≡ value_at (need full) place key (table_view table.now) }
{
    let Some(value) = at(table, key) else {
        return Ok(None);
    };
    match as_need(value) {
        Some(need) => Ok(Some(need)),
        None => Err(InvFault::BadValue(place, key)),
    }
}

/// The duration at a key, in seconds of this range, if the key is there.
pub fn span_at(
    table: &Table,
    place: Option<u32>,
    key: Key,
    low: Span,
    high: Span,
) -> Result<Option<Span>, InvFault>
    ensures { result ≡ value_at (span full low high) place key (table_view table.now) }
{
    let Some(value) = at(table, key) else {
        return Ok(None);
    };
    match as_span(value, low as u64, high as u64) {
        Some(seconds) => Ok(Some(seconds as u32)),
        None => Err(InvFault::BadValue(place, key)),
    }
}

/// Whether the value at a key is true, if the key is there.
pub fn flag_at(table: &Table, place: Option<u32>, key: Key) -> Result<Option<bool>, InvFault>
    ensures { result ≡ value_at flag_value place key (table_view table.now) }
{
    let Some(value) = at(table, key) else {
        return Ok(None);
    };
    match value {
        Value::Boolean(flag) => Ok(Some(*flag)),
        _ => Err(InvFault::BadValue(place, key)),
    }
}

/// The text at a key, if the key is there.
pub fn text_at(table: &Table, place: Option<u32>, key: Key) -> Result<Option<&str>, InvFault>
    ensures { GivesOrInvFault option_copied result (value_at text place key (table_view table.now)) }
{
    let Some(value) = at(table, key) else {
        return Ok(None);
    };
    match value {
        Value::String(text) => Ok(Some(text.as_str())),
        _ => Err(InvFault::BadValue(place, key)),
    }
}

// Whether these bytes are a credential: 1 to 256 bytes from 0x21 to 0x7E.
fn is_credential(text: &[u8]) -> bool
    ensures { result ≡ is_credential text.now }
{
    !text.is_empty() && text.len() <= CREDENTIAL_MAX && is_visible(text)
}

fn is_visible(text: &[u8]) -> bool
    ensures { result ≡ list_all (is_in_range 0x21 0x7E) text.now }
{
    text.iter().all(|b| *b >= 0x21 && *b <= 0x7e)
}

/// The credential at a key, if the key is there.
pub fn credential_at(table: &Table, place: Option<u32>, key: Key) -> Result<Option<&str>, InvFault>
    ensures { GivesOrInvFault option_copied result (value_at credential place key (table_view table.now)) }
{
    let Some(value) = at(table, key) else {
        return Ok(None);
    };
    match value {
        Value::String(text) if is_credential(text.as_bytes()) => Ok(Some(text.as_str())),
        _ => Err(InvFault::BadValue(place, key)),
    }
}

// Whether these bytes are the path of a file: 1 to 4,096 bytes, none of them a control character.
#[tactic(auto, unfolding(crate::specs::Values::is_path))]
fn is_path(text: &[u8]) -> bool
    ensures { result ≡ is_path text.now }
{
    !text.is_empty() && text.len() <= PATH_MAX && has_no_control(text)
}

fn has_no_control(text: &[u8]) -> bool
    ensures { result ≡ list_all (λ b. nat_le 0x20 b && not (b == 0x7F)) text.now }
{
    text.iter().all(|b| *b >= 0x20 && *b != 0x7f)
}

/// The path of a file at a key, if the key is there.
pub fn path_at(table: &Table, place: Option<u32>, key: Key) -> Result<Option<&str>, InvFault>
    ensures { GivesOrInvFault option_copied result (value_at path place key (table_view table.now)) }
{
    let Some(value) = at(table, key) else {
        return Ok(None);
    };
    match value {
        Value::String(text) if is_path(text.as_bytes()) => Ok(Some(text.as_str())),
        _ => Err(InvFault::BadValue(place, key)),
    }
}

/// Whether a key is there.
pub fn is_there(table: &Table, key: Key) -> bool
    ensures { result ≡ is_key_there key (table_view table.now) }
{
    at(table, key).is_some()
}

// Whether each of these values is a table.
fn are_tables(values: &[Value]) -> bool
    ensures { result ≡ are_tables (items_view values.now) }
{
    all_are_tables(values)
}

fn all_are_tables(values: &[Value]) -> bool
    ensures { result ≡ list_all (λ v. is_some (as_table (view v))) values.now }
{
    values.iter().all(|value| value.is_table())
}

/// The tables of the array at a key, none if the key is not there.
pub fn tables_at(table: &Table, key: Key) -> Result<Option<&[Value]>, InvFault>
    ensures { GivesOrInvFault (option_map (λ vs. items_view vs.now)) result (value_at tables None key (table_view table.now)) }
{
    let Some(value) = at(table, key) else {
        return Ok(None);
    };
    match value {
        Value::Array(values) if are_tables(values) => Ok(Some(values.as_slice())),
        _ => Err(InvFault::BadValue(None, key)),
    }
}
