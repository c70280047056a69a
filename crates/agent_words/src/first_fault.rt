//! Whether an inventory that can be read may be served, and each fault of what it writes.
ghost use Rattle.std.specs.Prelude.{◌≡◌, ◌++◌, ◌<◌, IfOk, OnOk, bytes_eq, length};
ghost use Rattle.vault_inventory.specs.Inventories.{credential_at};
ghost use Rattle.program_lines.specs.Text.{name_of};
ghost use Rattle.agent_words.specs.Starts.{bare_at, bare_faults, fault_list, first_listed_fault, first_start_fault, is_bare, is_bare_row, margin_fault, written_faults};

use crate::demands::Demands;
use crate::fault::StartFault;
use state_changes::Row;
use std::alloc::{AllocError, Global};
use vault_inventory::{EntryNote, Inventory, ServedInventory};

/// The first fault of what is written.
#[tactic(auto, unfolding(crate::specs::Starts::first_start_fault, crate::specs::Starts::written_faults))]
pub(crate) fn first_fault(demands: Demands, served: &ServedInventory) -> Option<StartFault>
    ensures { result ≡ first_start_fault demands served.now }
{
    if let Some(fault) = margin_fault(demands, served) {
        return Some(fault);
    }
    if demands.names_are_secrets {
        return None;
    }
    first_bare(served, served.notes())
}

/// All faults of what is written. The only error is out of memory.
#[tactic(auto, unfolding(crate::specs::Starts::written_faults))]
pub(crate) fn written_faults(
    alloc: Global,
    demands: Demands,
    served: &ServedInventory,
) -> Result<Vec<StartFault>, AllocError>
    ensures { IfOk result (λ faults. faults.items ≡ written_faults demands served.now) }
{
    let mut faults = Vec::new(alloc);
    push_if(margin_fault(demands, served), &mut faults)?;
    if demands.names_are_secrets {
        return Ok(faults);
    }
    push_bare(served, served.notes(), &mut faults)?;
    Ok(faults)
}

/// Appends a fault, where there is one.
pub(crate) fn push_if(
    fault: Option<StartFault>,
    faults: &mut Vec<StartFault>,
) -> Result<(), AllocError>
    ensures { OnOk result (faults.new.items ≡ faults.old.items ++ fault_list fault) }
{
    match fault {
        None => Ok(()),
        Some(fault) => Ok(faults.push(fault)?),
    }
}

// The fault of the margin.
fn margin_fault(demands: Demands, served: &ServedInventory) -> Option<StartFault>
    ensures { result ≡ margin_fault demands served.now }
{
    if !served.has_margin() {
        return Some(StartFault::NoMargin);
    }
    let margin = u64::from(served.inventory().forest().margin());
    if margin < demands.least_margin() {
        return Some(StartFault::SmallMargin);
    }
    None
}

// The fault of the first entry without a credential of its own and without a file.
fn first_bare(served: &ServedInventory, notes: &[EntryNote]) -> Option<StartFault>
    requires { length notes.now ≡ length served.now.inventory.forest.entries }
    ensures { result ≡ first_listed_fault (bare_faults served.now 0 notes.now) }
{
    for entry in 0..notes.len() {
        if is_bare(served, entry, &notes[entry]) {
            return Some(StartFault::NoCredential(entry));
        }
    }
    None
}

// Appends the fault of each such entry.
fn push_bare(
    served: &ServedInventory,
    notes: &[EntryNote],
    faults: &mut Vec<StartFault>,
) -> Result<(), AllocError>
    requires { length notes.now ≡ length served.now.inventory.forest.entries }
    ensures { OnOk result (faults.new.items ≡ faults.old.items ++ bare_faults served.now 0 notes.now) }
{
    for entry in 0..notes.len() {
        push_if(bare_fault(served, entry, &notes[entry]), faults)?;
    }
    Ok(())
}

// The fault of an entry without a credential of its own and without a file.
fn bare_fault(served: &ServedInventory, entry: usize, note: &EntryNote) -> Option<StartFault>
    requires { entry < length served.now.inventory.forest.entries }
    ensures { fault_list result ≡ bare_at served.now entry note.now }
{
    if is_bare(served, entry, note) {
        Some(StartFault::NoCredential(entry))
    } else {
        None
    }
}

// Whether an entry has neither a credential of its own nor a file with one.
fn is_bare(served: &ServedInventory, entry: usize, note: &EntryNote) -> bool
    requires { entry < length served.now.inventory.forest.entries }
    ensures { result ≡ is_bare served.now entry note.now }
{
    note.file.is_none() && is_sent_by_name(served.inventory(), entry)
}

// Whether the name of an entry is sent as its credential; there is none past the last one.
fn is_sent_by_name(inventory: &Inventory, entry: usize) -> bool
    requires { entry < length inventory.now.forest.entries }
    ensures { result ≡ bytes_eq (credential_at inventory.now.credentials entry) (name_of inventory.now.forest entry) }
{
    let names = inventory.forest();
    if entry >= names.len() as usize {
        return false;
    }
    let entry = entry as u32;
    inventory.credential(entry) == names.get(entry).name.list()
}

/// Whether a row writes neither a credential of its own nor a file with one.
pub fn is_bare_row(row: &Row) -> bool
    ensures { result ≡ is_bare_row row.now }
{
    row.file.is_none() && row.credential.list() == row.name.list()
}
