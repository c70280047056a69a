//! An inventory that is to be judged, from its text.
ghost use Rattle.std.specs.Prelude.{◌≡◌, IfOk, Ok};
ghost use Rattle.vault_inventory.specs.Inventory.{read_served};
ghost use Rattle.plan_needs.specs.Carried.{IsCarried};
ghost use Rattle.vault_served.specs.ForGood.{inventory_for_good};
ghost use Rattle.vault_lint.specs.Subjects.{IsSubject};
ghost use Rattle.vault_lint.specs.Marks.{marks_of};
ghost use Rattle.vault_lint.specs.Places.{heads_of};

use crate::places::{heads_of, marks_of};
use crate::subject::{Places, Subject};
use base_moment::{Moment, Span};
use plan_forest::Forest;
use plan_needs::{Carried, carry};
use std::alloc::{AllocError, Global};
use vault_inventory::{Inventory, ServedInventory};
use vault_served::read_for_good;

/// What these bytes write, to be judged at a moment by a time-out; `open_files` says whose files others may read or write. The only error is
/// lack of memory.
pub fn subject_of(
    alloc: Global,
    bytes: &[u8],
    served: ServedInventory,
    open_files: Vec<bool>,
    now: Moment,
    timeout: Span,
) -> Result<Subject, AllocError>
    requires { read_served bytes.now ≡ Ok served }
    ensures { IfOk result (λ s. IsSubject bytes.now open_files.items now timeout s) }
{
    let inventory = inventory_for_good(alloc, bytes)?;
    let carried = carried_of_all(alloc, inventory.forest())?;
    let places = places_of(alloc, bytes)?;
    Ok(Subject {
        served,
        inventory,
        carried,
        open_files,
        places,
        at: now,
        timeout,
    })
}

// The inventory in which a need that is `always` lasts to the last moment.
fn inventory_for_good(alloc: Global, bytes: &[u8]) -> Result<Inventory, AllocError>
    ensures { IfOk result (λ inventory. inventory_for_good bytes.now ≡ Ok inventory) }
{
    match read_for_good(alloc, bytes) {
        Ok(inventory) => Ok(inventory),
        Err(_) => Err(AllocError),
    }
}

// What each entry carries of all needs.
fn carried_of_all(alloc: Global, forest: &Forest) -> Result<Carried, AllocError>
    ensures { IfOk result (IsCarried forest.now 0) }
{
    match carry(alloc, forest, Moment::new(0).unwrap()) {
        Ok(carried) => Ok(carried),
        Err(_) => Err(AllocError),
    }
}

/// Where a text has what. The only error is lack of memory.
pub fn places_of(alloc: Global, bytes: &[u8]) -> Result<Places, AllocError>
    ensures marks { IfOk result (λ places. places.marks.items ≡ marks_of bytes.now) }
    ensures heads { IfOk result (λ places. places.heads.items ≡ heads_of (marks_of bytes.now)) }
{
    let marks = marks_of(alloc, bytes)?;
    let heads = heads_of(alloc, &marks)?;
    Ok(Places { marks, heads })
}
