ghost use Rattle.std.specs.Prelude.{◌≡◌, ◌<◌, IfOk, length, option_map};
ghost use Rattle.plan_forest.specs.Forest.{entry_at};
ghost use Rattle.vault_inventory.specs.Served.{note_at};
ghost use Rattle.state_changes.specs.Listed.{name_at, need_with, row_at, rows_before, rows_of_served};

use crate::row::{Row, copy_if};
use crate::rows::Rows;
use base_moment::{Moment, Name, Text};
use plan_forest::Forest;
use std::alloc::{AllocError, Global};
use vault_inventory::{EntryNote, Need, ServedInventory};

/// The rows of what is served, one for each entry, in order. The only error is out of memory.
pub fn rows_of(alloc: Global, served: &ServedInventory) -> Result<Rows, AllocError>
    ensures { IfOk result (λ rows. rows ≡ rows_of_served served.now) }
{
    Rows::of(alloc, listed_rows(alloc, served)?)
}

/// The same rows, without a look-up by name. The only error is out of memory.
#[tactic(auto, using(crate::proofs::Rowed::rows_none, crate::proofs::Rowed::rows_more), unfolding(crate::specs::Listed::rows_of_served))]
pub fn listed_rows(alloc: Global, served: &ServedInventory) -> Result<Vec<Row>, AllocError>
    ensures { IfOk result (λ rows. rows.items ≡ rows_of_served served.now) }
{
    let mut rows = Vec::new(alloc);
    for index in 0..served.inventory().forest().len() {
        rows.push(row_at(alloc, served, index)?)?;
    }
    Ok(rows)
}

// The row of the entry at an index.
#[tactic(auto, unfolding(crate::specs::Listed::row_at))]
fn row_at(alloc: Global, served: &ServedInventory, index: u32) -> Result<Row, AllocError>
    requires { index < length served.now.inventory.forest.entries }
    ensures { IfOk result (λ row. row ≡ row_at served.now index) }
{
    let inventory = served.inventory();
    let forest = inventory.forest();
    let entry = forest.get(index);
    let note = note_at(served, index);
    Ok(Row {
        name: entry.name.clone()?,
        kind: entry.kind,
        parent: parent_of(forest, index)?,
        is_told: note.is_told,
        end: entry.end,
        renewable: entry.renewable,
        terms: inventory.terms(index),
        need: need_of(forest, index, note.is_always),
        credential: Text::of(alloc, inventory.credential(index))?,
        file: copy_if(&note.file)?,
    })
}

// The note of an entry.
#[tactic(auto, unfolding(vault_inventory::specs::Served::note_at))]
fn note_at(served: &ServedInventory, index: u32) -> &EntryNote
    requires { index < length served.now.inventory.forest.entries }
    ensures { result.now ≡ note_at served.now.notes index }
{
    &served.notes()[index as usize]
}

// The name of the token over an entry.
fn parent_of(forest: &Forest, index: u32) -> Result<Option<Name>, AllocError>
    requires { index < length forest.now.entries }
    ensures { IfOk result (λ name. name ≡ option_map (name_at forest.now.entries) (entry_at forest.now.entries index).parent) }
{
    match forest.get(index).parent {
        None => Ok(None),
        Some(parent) => Ok(Some(forest.get(parent).name.clone()?)),
    }
}

// The need of an entry, which has no moment of its own where it is `always`.
fn need_of(forest: &Forest, index: u32, is_always: bool) -> Need
    requires { index < length forest.now.entries }
    ensures { result ≡ need_with is_always (entry_at forest.now.entries index).need }
{
    let need = forest.get(index).need;
    if is_always {
        return Need::Always;
    }
    Need::Until(Moment::new(need).unwrap())
}
