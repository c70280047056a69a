//! The lines of entries, keys and faults, counted from 1.
ghost use Rattle.std.specs.Prelude.{◌≡◌, slice_get};
ghost use Rattle.vault_lint.specs.FaultPlaces.{first_other, has_key, is_other, kind_at, kind_of, line_from, line_of, line_unless_0, sought_line, unknown_line};

use crate::mark::Mark;
use crate::places::{Sought, first_in};
use crate::subject::Places;
use plan_forest::Kind;
use vault_inventory::Key;

/// The line of a key of the entry at an index, else that of its table; of the top level, where there is no entry; 0 where it is not
/// found.
pub fn line_of(places: &Places, entry: Option<u32>, key: Key) -> u64
    ensures { result ≡ line_of places.now.marks.items places.now.heads.items entry key }
{
    sought_line(places, entry, Sought::Key(key))
}

/// The same of the first key that the table of an entry does not have; of the first key or table that the top level does not have.
pub(crate) fn unknown_line(places: &Places, entry: Option<u32>) -> u64
    ensures { result ≡ unknown_line places.now.marks.items places.now.heads.items entry }
{
    match entry {
        None => line_unless_0(
            sought_line(places, None, Sought::Unknown(None)),
            first_other(&places.marks),
        ),
        Some(entry) => {
            let kind = kind_of(places, entry);
            sought_line(places, Some(entry), Sought::Unknown(kind))
        }
    }
}

fn line_unless_0(line: u64, other: u64) -> u64
    ensures { result ≡ line_unless_0 line other }
{
    if line == 0 { other } else { line }
}

/// Whether the table of the entry at an index has that key; `unfound` where the table is not found.
pub(crate) fn has_key(places: &Places, entry: u32, key: Key, unfound: bool) -> bool
    ensures { result ≡ has_key places.now.marks.items places.now.heads.items entry key unfound }
{
    match places.heads.get(entry as usize) {
        None => unfound,
        Some(head) => first_in(&places.marks, Sought::Key(key), *head).is_some(),
    }
}

/// The kind of the entry at an index, where its table is found.
pub fn kind_of(places: &Places, entry: u32) -> Option<Kind>
    ensures { result ≡ kind_of places.now.marks.items places.now.heads.items entry }
{
    match places.heads.get(entry as usize) {
        None => None,
        Some(head) => kind_on(&places.marks, head.saturating_sub(1)),
    }
}

// The kind of the entry whose table this line begins, counted from 0.
fn kind_on(marks: &[Mark], line: usize) -> Option<Kind>
    ensures { result ≡ kind_at (slice_get marks.now line) }
{
    match marks.get(line) {
        Some(Mark::Table(kind)) => Some(*kind),
        _ => None,
    }
}

// The line of the first table that no inventory has; 0 where there is none.
fn first_other(marks: &[Mark]) -> u64
    ensures { result ≡ first_other 0 marks.now }
{
    for at in 0..marks.len() {
        if is_other(marks[at]) {
            return (at + 1) as u64;
        }
    }
    0
}

fn is_other(mark: Mark) -> bool
    ensures { result ≡ is_other mark }
{
    matches!(mark, Mark::Other)
}

// The line of what is sought in the table of an entry, else its head; before all tables, where there is no entry.
fn sought_line(places: &Places, entry: Option<u32>, sought: Sought) -> u64
    ensures { result ≡ sought_line places.now.marks.items places.now.heads.items entry sought }
{
    match entry {
        None => line_from(&places.marks, sought, 0, 0),
        Some(entry) => match places.heads.get(entry as usize) {
            None => 0,
            Some(head) => line_from(&places.marks, sought, *head, *head),
        },
    }
}

// The line of what is sought from a line on, before the next table; else another.
fn line_from(marks: &[Mark], sought: Sought, from: usize, other: usize) -> u64
    ensures { result ≡ line_from marks.now sought from other }
{
    match first_in(marks, sought, from) {
        None => other as u64,
        Some(at) => (at + 1) as u64,
    }
}
