ghost use Rattle.std.specs.Prelude.{◌≡◌, ◌<◌, length};
ghost use Rattle.vault_inventory.specs.Intake.{inventory_of_intake};
ghost use Rattle.vault_inventory.specs.Served.{IsServedInventory, first_open, first_untold, inventory_if_whole, open_fault, served_if_told};

use crate::draft::Draft;
use crate::fault::InvFault;
use crate::inventory::Inventory;
use crate::key::Key;
use crate::note::EntryNote;
use base_moment::Span;
use std::marker::Model;

/// An inventory as it is written, with what its tables leave open: ends that a lookup tells, needs that are `always`, and
/// credentials that stand in files.
#[derive(Debug, Drop)]
pub struct ServedInventory {
    inventory: Inventory,
    notes: Vec<EntryNote>,
    has_margin: bool,
    system_max: Option<Span>,
}

impl Model for ServedInventory {
    ghost use Rattle.vault_inventory.specs.Served.{IsServedInventory, Served};

    ghost Value = { Served };

    ghost view = { λ v. record { inventory = v.inventory; notes = v.notes.items; has_margin = v.has_margin; system_max = v.system_max } };

    ghost invariant = { λ v. IsServedInventory (record { inventory = v.inventory; notes = v.notes.items; has_margin = v.has_margin; system_max = v.system_max }) };
}

impl ServedInventory {
    /// The inventory. An end that is left open is 0, as is its issue; a need that is `always` is none; and the name stands for a
    /// credential in a file.
    pub fn inventory(&self) -> &Inventory
        ensures value { result.now ≡ self.now.inventory }
        ensures sound { IsServedInventory self.now }
    {
        &self.inventory
    }

    /// What each table leaves open, in the order of the entries.
    pub fn notes(&self) -> &[EntryNote]
        ensures value { result.now ≡ self.now.notes }
        ensures sound { IsServedInventory self.now }
    {
        &self.notes
    }

    /// Whether the margin is written.
    pub fn has_margin(&self) -> bool
        ensures { result ≡ self.now.has_margin }
    {
        self.has_margin
    }

    /// The maximum TTL of the system, in seconds, where it is written.
    pub fn system_max(&self) -> Option<Span>
        ensures { result ≡ self.now.system_max }
    {
        self.system_max
    }

    /// The inventory, where nothing is left open; else why the first table that leaves something open cannot be planned. It takes
    /// no memory.
    #[tactic(auto, unfolding(crate::specs::Served::inventory_if_whole))]
    pub fn into_whole(self) -> Result<Inventory, InvFault>
        ensures { result ≡ inventory_if_whole self }
    {
        match first_open(&self.notes) {
            None => Ok(self.inventory),
            Some(fault) => Err(fault),
        }
    }

    /// What is served, where each table writes its end; else `MissingKey` with `issued` of the first that leaves it to a lookup. It
    /// takes no memory.
    #[tactic(auto, unfolding(crate::specs::Served::served_if_told))]
    pub fn into_known(self) -> Result<ServedInventory, InvFault>
        ensures { result ≡ served_if_told self }
    {
        match first_untold(&self.notes) {
            None => Ok(self),
            Some(index) => Err(InvFault::MissingKey(index, Key::Issued)),
        }
    }

    /// The inventory and the notes, one for each of its entries. It takes no memory.
    pub fn into_parts(self) -> (Inventory, Vec<EntryNote>)
        ensures inventory { result.0 ≡ self.inventory }
        ensures notes { result.1.items ≡ self.notes }
        ensures sound { IsServedInventory self }
    {
        (self.inventory, self.notes)
    }

    /// What is served by a draft whose tables are all read.
    pub(crate) fn of(draft: Draft, has_margin: bool, system_max: Option<Span>) -> ServedInventory
        requires { IsServedInventory (record { inventory = inventory_of_intake draft; notes = draft.notes; has_margin = has_margin; system_max = system_max }) }
        ensures { result ≡ record { inventory = inventory_of_intake draft; notes = draft.notes; has_margin = has_margin; system_max = system_max } }
    {
        let (inventory, notes) = Inventory::of(draft);
        ServedInventory {
            inventory,
            notes,
            has_margin,
            system_max,
        }
    }
}

// The first table that leaves its end to a lookup.
fn first_untold(notes: &[EntryNote]) -> Option<u32>
    requires { length notes.now < 4097 }
    ensures { result ≡ first_untold 0 notes.now }
{
    for (index, note) in notes.iter().enumerate() {
        if !note.is_told {
            return Some(index as u32);
        }
    }
    None
}

// Why the first table that leaves something open cannot be planned.
fn first_open(notes: &[EntryNote]) -> Option<InvFault>
    requires { length notes.now < 4097 }
    ensures { result ≡ first_open 0 notes.now }
{
    for (index, note) in notes.iter().enumerate() {
        if let Some(fault) = open_fault(index as u32, note) {
            return Some(fault);
        }
    }
    None
}

// Why the table of an entry cannot be planned.
fn open_fault(index: u32, note: &EntryNote) -> Option<InvFault>
    ensures { result ≡ open_fault index note.now }
{
    if !note.is_told {
        Some(InvFault::MissingKey(index, Key::Issued))
    } else if note.is_always {
        Some(InvFault::BadValue(Some(index), Key::Need))
    } else {
        None
    }
}
