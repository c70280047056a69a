//! The entries that an inventory names and that are not served.
ghost use Rattle.std.specs.Prelude.{◌≡◌, ◌∷◌, ◌++◌, ◌<◌, [], IfOk, OnOk, if◌then◌else◌, length, map};
ghost use Rattle.vault_inventory.specs.Needs.{has_always, until};
ghost use Rattle.base_moment.specs.declared.moment.TheConstants.{LAST};
ghost use Rattle.plan_needs.specs.Carried.{load_at};
ghost use Rattle.plan_forest.specs.Carried.{carried};
ghost use Rattle.agent_pages.specs.Naming.{entries_after, named_by, named_entry, parent_among};
ghost use Rattle.agent_pages.specs.Waiting.{is_some_waiting, is_waiting, row_if_waiting, rows_among, waiting_row, waiting_rows};

use crate::board::BoardRow;
use crate::state::EntryState;
use base_moment::{LAST, Moment, Name};
use plan_forest::{Entry, Forest};
use plan_needs::{Carried, carry};
use state_changes::Row as Named;
use std::alloc::{AllocError, Global};
use vault_inventory::Need;

/// Appends a row for each entry that is named and not served, in the order in which they are named. The only error is out of memory, here
/// and in what follows.
#[tactic(auto, unfolding(crate::specs::Waiting::waiting_rows))]
pub(crate) fn push_waiting(
    alloc: Global,
    served: &Forest,
    named: &[Named],
    rows: &mut Vec<BoardRow>,
) -> Result<(), AllocError>
    ensures { OnOk result (rows.new.items ≡ rows.old.items ++ waiting_rows served.now.entries (map named_by named.now)) }
{
    if is_some_waiting(served, named) {
        let all = forest_of(alloc, named)?;
        push_among(alloc, served, &all, rows)
    } else {
        Ok(())
    }
}

/// Whether one of them waits.
fn is_some_waiting(served: &Forest, named: &[Named]) -> bool
    ensures { result ≡ is_some_waiting served.now.entries (map named_by named.now) }
{
    for row in named {
        if is_waiting(served, row.name.list()) {
            return true;
        }
    }
    false
}

/// Whether no entry of that name is served.
fn is_waiting(served: &Forest, name: &[u8]) -> bool
    ensures { result ≡ is_waiting served.now.entries name.now }
{
    served.find(name).is_none()
}

/// The forest of all that are named. An inventory is a forest, so that memory alone may be wanting for it.
fn forest_of(alloc: Global, named: &[Named]) -> Result<Forest, AllocError>
    ensures { IfOk result (λ forest. forest.entries ≡ entries_after [] (map named_by named.now)) }
{
    let mut forest = Forest::new(alloc);
    for row in named {
        push_named(&mut forest, row)?;
    }
    Ok(forest)
}

fn push_named(forest: &mut Forest, row: &Named) -> Result<(), AllocError>
    ensures { OnOk result (forest.new.entries ≡ forest.old.entries ++ named_entry forest.old.entries (named_by row.now) ∷ []) }
{
    let entry = named_entry(forest, row)?;
    match forest.push(entry) {
        Ok(_) => Ok(()),
        Err(_) => Err(AllocError),
    }
}

/// The entry of that forest, of which only the place and the need count.
fn named_entry(forest: &Forest, row: &Named) -> Result<Entry, AllocError>
    ensures { IfOk result (λ entry. entry ≡ named_entry forest.now.entries (named_by row.now)) }
{
    Ok(Entry {
        name: row.name.clone()?,
        kind: row.kind,
        parent: parent_among(forest, &row.parent),
        end: 0,
        renewable: false,
        step: 2,
        ceiling: None,
        need: last_needed(row.need),
    })
}

/// The index of the entry of that name, which stands over another.
fn parent_among(forest: &Forest, parent: &Option<Name>) -> Option<u32>
    ensures { result ≡ parent_among forest.now.entries parent.now }
{
    match parent {
        None => None,
        Some(name) => forest.find(name.list()),
    }
}

/// Until when that is, in seconds since 1970-01-01T00:00:00Z: [`LAST`] where it is always.
fn last_needed(need: Need) -> u64
    ensures { result ≡ (if has_always need then LAST else until need) }
{
    match need {
        Need::Until(moment) => moment.get(),
        Need::Always => LAST,
    }
}

/// Appends a row for each of all that are named which waits.
fn push_among(
    alloc: Global,
    served: &Forest,
    all: &Forest,
    rows: &mut Vec<BoardRow>,
) -> Result<(), AllocError>
    ensures { OnOk result (rows.new.items ≡ rows.old.items ++ rows_among served.now.entries all.now.entries) }
{
    let Ok(needs) = carry(alloc, all, Moment::new(0).unwrap()) else {
        return Err(AllocError);
    };
    for index in 0..all.len() {
        push_row(served, all, &needs, index, rows)?;
    }
    Ok(())
}

/// Appends the row of the entry at an index, where it waits.
fn push_row(
    served: &Forest,
    all: &Forest,
    needs: &Carried,
    index: u32,
    rows: &mut Vec<BoardRow>,
) -> Result<(), AllocError>
    requires named { index < length all.now.entries }
    requires within { index < length needs.now }
    requires carried { (load_at needs.now index).need ≡ carried all.now.entries 0 index }
    ensures { OnOk result (rows.new.items ≡ rows.old.items ++ row_if_waiting served.now.entries all.now.entries index) }
{
    if is_waiting(served, all.get(index).name.list()) {
        rows.push(waiting_row(all, needs, index)?)?;
    }
    Ok(())
}

/// The row of the entry at an index, which waits.
#[tactic(auto, unfolding(crate::specs::Waiting::waiting_row))]
fn waiting_row(all: &Forest, needs: &Carried, index: u32) -> Result<BoardRow, AllocError>
    requires named { index < length all.now.entries }
    requires within { index < length needs.now }
    requires carried { (load_at needs.now index).need ≡ carried all.now.entries 0 index }
    ensures { IfOk result (λ row. row ≡ waiting_row all.now.entries index) }
{
    let entry = all.get(index);
    Ok(BoardRow {
        name: entry.name.clone()?,
        kind: entry.kind,
        state: EntryState::Waiting,
        end: None,
        need: entry.need,
        carried: needs.need(index),
        in_force: 0,
        last_success: None,
        trouble: None,
        granted: 0,
        refused: 0,
        lost: 0,
    })
}
