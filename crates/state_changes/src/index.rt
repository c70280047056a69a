ghost use Rattle.std.specs.Prelude.{◌≡◌, ◌+◌, ◌∷◌, ◌++◌, [], true, List, IfOk, IfSome, None, length, take, drop};
ghost use Rattle.std.specs.List.{position};
ghost use Rattle.state_changes.specs.declared.row.Row.{Row};
ghost use Rattle.state_changes.specs.Rows.{is_row_named, named};
ghost use Rattle.state_changes.specs.code.Index.{begins_with, has_seen, is_index};

use crate::row::Row;
use std::alloc::{AllocError, Global};
use std::collections::BTreeMap;

/// By the name or the credential of each row its place, or a later one where rows before it were taken out since.
pub(crate) type Places = BTreeMap<Vec<u8>, usize>;

/// The places of rows, and whether no two rows have one name.
pub(crate) fn places_of(alloc: Global, rows: &[Row]) -> Result<(Places, bool), AllocError>
    ensures { IfOk result (λ found. is_index found.1 found.0 rows.now ≡ true) }
{
    let mut places = BTreeMap::new(alloc);
    let mut is_apart = true;
    for place in 0..rows.len() {
        let name = Vec::from_slice(alloc, rows[place].name.list())?;
        is_apart = add_place(&mut places, is_apart, name, place)?;
    }
    Ok((places, is_apart))
}

// Adds the place of the name of one row more, and says whether no two rows have one name still.
fn add_place(
    places: &mut Places,
    is_apart: bool,
    name: Vec<u8>,
    place: usize,
) -> Result<bool, AllocError>
    ensures { IfOk result (λ apart. (rows : List Row) (x : Row) → length rows ≡ place → name.items ≡ x.name
        → is_index is_apart places.old rows ≡ true → is_index apart places.new (rows ++ x ∷ []) ≡ true) }
{
    let old = places.insert(name, place)?;
    Ok(is_apart && old.is_none())
}

/// The credentials of rows.
pub(crate) fn credentials_of(alloc: Global, rows: &[Row]) -> Result<Places, AllocError>
    ensures { IfOk result (λ credentials. has_seen credentials rows.now ≡ true) }
{
    let mut credentials = BTreeMap::new(alloc);
    for place in 0..rows.len() {
        let credential = Vec::from_slice(alloc, rows[place].credential.list())?;
        credentials.insert(credential, place)?;
    }
    Ok(credentials)
}

/// The place of the first row of that name.
pub(crate) fn place_of(rows: &[Row], places: &Places, is_apart: bool, name: &[u8]) -> Option<usize>
    requires { is_index is_apart places.now rows.now ≡ true }
    ensures { result ≡ position (is_row_named name.now) rows.now }
{
    if is_apart {
        found_place(rows, places, name)
    } else {
        first_place(rows, name)
    }
}

// The place of the one row of that name, by the map.
#[tactic(auto, using(crate::proofs::Finding::not_found))]
fn found_place(rows: &[Row], places: &Places, name: &[u8]) -> Option<usize>
    requires { is_index true places.now rows.now ≡ true }
    ensures { result ≡ position (is_row_named name.now) rows.now }
{
    match places.get(name) {
        None => None,
        Some(place) => last_place(up_to(rows, *place), name),
    }
}

fn first_place(rows: &[Row], name: &[u8]) -> Option<usize>
    ensures { result ≡ position (is_row_named name.now) rows.now }
{
    rows.iter().position(|row| row.name.list() == name)
}

// The rows up to a place, that one included.
fn up_to(rows: &[Row], place: usize) -> &[Row]
    ensures { result.now ≡ take (place + 1) rows.now }
{
    if place < rows.len() {
        &rows[..place + 1]
    } else {
        rows
    }
}

// The last place of a row of that name.
#[tactic(auto, using(crate::proofs::Finding::nothing_left, crate::proofs::Finding::none_drop, crate::proofs::Finding::begins_drop))]
fn last_place(rows: &[Row], name: &[u8]) -> Option<usize>
    ensures none { result ≡ None → named rows.now name.now ≡ None }
    ensures some { IfSome result (λ place. begins_with name.now (drop place rows.now) ≡ true) }
{
    let mut place = rows.len();
    while place > 0 {
        place -= 1;
        if rows[place].name.list() == name {
            return Some(place);
        }
    }
    None
}
