ghost use Rattle.std.specs.Prelude.{◌≡◌, ◌<◌, true, false, IfOk, IfSome, length, option_map, bytes_eq, slice_set, ◌&&◌};
ghost use Rattle.std.specs.List.{position};
ghost use Rattle.plan_forest.specs.Forest.{entry_at};
ghost use Rattle.plan_forest.specs.Push.{lacks_parent};
ghost use Rattle.broker_rule.specs.Rows.{broker_row, row_named};
ghost use Rattle.broker_rule.specs.Renewing.{with_row};
ghost use Rattle.broker_rule.specs.Sweep.{swept};
ghost use Rattle.broker_table.specs.Slots.{AreKept, AreSlots, EndFrom, end_in_slot, listed_rows, slot_of, slots_of, slot_at, is_listed, stands, swept_slots};
ghost use Rattle.broker_table.specs.Index.{AreUnlike, credentials_of, if_listed};

use base_moment::{Moment, Name};
use broker_rule::BrokerRow;
use std::alloc::{AllocError, Global};
use vault_inventory::Inventory;

/// A row in its place, which is that of its entry in the forest. A row that has ended stays where it is, and is listed no
/// more: so no other row moves.
#[derive(Debug, Drop)]
pub struct Slot {
    pub row: BrokerRow,
    /// The place of the row over this one.
    pub over: Option<u32>,
    pub listed: bool,
}

/// The slots of an inventory, one for each of its entries.
pub(crate) fn slots_of(alloc: Global, inventory: &Inventory) -> Result<Vec<Slot>, AllocError>
    ensures slots { IfOk result (λ slots. slots.items ≡ slots_of inventory.now) }
    ensures sound { IfOk result (λ slots. AreSlots slots.items) }
    ensures unlike { IfOk result (λ slots. AreUnlike slots.items) }
{
    let mut slots = Vec::new(alloc);
    for index in 0..inventory.forest().len() {
        slots.push(slot_of(alloc, inventory, index)?)?;
    }
    Ok(slots)
}

/// The slot of an entry.
#[tactic(auto, unfolding(broker_rule::specs::Rows::broker_row, crate::specs::Slots::slot_of))]
fn slot_of(alloc: Global, inventory: &Inventory, index: u32) -> Result<Slot, AllocError>
    requires { index < length inventory.now.forest.entries }
    ensures { IfOk result (λ slot. slot ≡ slot_of inventory.now index) }
{
    let entry = inventory.forest().get(index);
    let terms = inventory.terms(index);
    let row = BrokerRow {
        name: Name::of(alloc, entry.name.list())?,
        kind: entry.kind,
        parent: parent_of(alloc, inventory, entry.parent)?,
        end: entry.end,
        renewable: entry.renewable,
        step: entry.step,
        ceiling: entry.ceiling,
        issued: terms.issued,
        period: terms.period,
        explicit_max: terms.explicit_max,
        credential: Name::of(alloc, inventory.credential(index))?,
    };
    Ok(Slot {
        row,
        over: entry.parent,
        listed: true,
    })
}

/// The name of a parent, if there is one.
fn parent_of(
    alloc: Global,
    inventory: &Inventory,
    parent: Option<u32>,
) -> Result<Option<Name>, AllocError>
    requires { lacks_parent inventory.now.forest.entries parent ≡ false }
    ensures { IfOk result (λ name. name ≡ option_map (λ p. (entry_at inventory.now.forest.entries p).name) parent) }
{
    match parent {
        None => Ok(None),
        Some(index) => Ok(Some(Name::of(alloc, inventory.forest().get(index).name.list())?)),
    }
}

/// Lists no more each row that has ended at `t`, and each that stands under such a row. No listed row ends before `soonest`,
/// so before that there is nothing to do.
pub(crate) fn sweep(slots: &mut [Slot], soonest: &mut u64, t: Moment)
    requires { AreKept soonest.old slots.old }
    ensures swept { slots.new ≡ swept_slots t slots.old }
    ensures rows { listed_rows slots.new ≡ swept t (listed_rows slots.old) }
    ensures kept { AreKept soonest.new slots.new }
    ensures credentials { credentials_of slots.new ≡ credentials_of slots.old }
{
    if *soonest <= t.get() {
        *soonest = sweep_all(slots, t);
    }
}

/// Judges each slot in one pass, since a row stands after the one over it. Gives the least end of those that stay listed,
/// the greatest `u64` where none does.
fn sweep_all(slots: &mut [Slot], t: Moment) -> u64
    requires { AreSlots slots.old }
    ensures swept { slots.new ≡ swept_slots t slots.old }
    ensures ends { EndFrom result (length slots.new) slots.new }
{
    let mut soonest = u64::MAX;
    for at in 0..slots.len() {
        relist(slots, at, t);
        soonest = soonest.min(end_in(slots, at));
    }
    soonest
}

/// Judges one slot, where those before it were judged.
fn relist(slots: &mut [Slot], at: usize, t: Moment)
    requires within { at < length slots.old }
    requires over { IfSome (slot_at slots.old at).over (λ p. p < length slots.old) }
    ensures { slots.new ≡ slice_set slots.old at (record (slot_at slots.old at) { listed = stands slots.old t (slot_at slots.old at) }) }
{
    let listed = stands(slots, at, t);
    slots[at].listed = listed;
}

/// The end of a listed slot's row; of one that is not listed the greatest `u64`.
#[tactic(auto, unfolding(crate::specs::Slots::end_in_slot))]
fn end_in(slots: &[Slot], at: usize) -> u64
    requires { at < length slots.now }
    ensures { result ≡ end_in_slot (slot_at slots.now at) }
{
    let slot = slot_in(slots, at);
    if slot.listed { slot.row.end } else { u64::MAX }
}

/// Whether a slot stays listed, where those before it were judged.
#[tactic(auto, unfolding(crate::specs::Slots::stands))]
fn stands(slots: &[Slot], at: usize, t: Moment) -> bool
    requires within { at < length slots.now }
    requires over { IfSome (slot_at slots.now at).over (λ p. p < length slots.now) }
    ensures { result ≡ stands slots.now t (slot_at slots.now at) }
{
    let slot = slot_in(slots, at);
    slot.listed & (t.get() < slot.row.end) & is_listed(slots, slot.over)
}

/// Whether the slot over another is listed, where there is one.
fn is_listed(slots: &[Slot], over: Option<u32>) -> bool
    requires { IfSome over (λ p. p < length slots.now) }
    ensures { result ≡ is_listed slots.now over }
{
    match over {
        None => true,
        Some(place) => slot_in(slots, place as usize).listed,
    }
}

/// The slot in that place.
pub(crate) fn slot_in(slots: &[Slot], place: usize) -> &Slot
    requires { place < length slots.now }
    ensures { result.now ≡ slot_at slots.now place }
{
    &slots[place]
}

/// The place, where its slot is listed.
pub(crate) fn if_listed(slots: &[Slot], place: Option<u32>) -> Option<usize>
    requires { IfSome place (λ p. p < length slots.now) }
    ensures { result ≡ if_listed slots.now place }
{
    match place {
        None => None,
        Some(place) => {
            if slot_in(slots, place as usize).listed {
                Some(place as usize)
            } else {
                None
            }
        }
    }
}

/// The place of the listed row of that name.
pub(crate) fn place_named(slots: &[Slot], name: &[u8]) -> Option<usize>
    ensures row { option_map (λ i. (slot_at slots.now i).row) result ≡ row_named (listed_rows slots.now) name.now }
    ensures within { IfSome result (λ i. (i < length slots.now) × ((slot_at slots.now i).listed ≡ true)) }
{
    first_named(slots, name)
}

fn first_named(slots: &[Slot], name: &[u8]) -> Option<usize>
    ensures { result ≡ position (λ s. s.listed && bytes_eq s.row.name name.now) slots.now }
{
    slots
        .iter()
        .position(|slot| slot.listed && slot.row.name.list() == name)
}

/// The end of the listed row of that name.
pub(crate) fn end_named(slots: &[Slot], name: &[u8]) -> Option<u64>
    ensures { result ≡ option_map (λ r. r.end) (row_named (listed_rows slots.now) name.now) }
{
    let place = place_named(slots, name)?;
    Some(slot_in(slots, place).row.end)
}

/// Gives the row in that place another end, to which `soonest` is lowered where that is sooner.
pub(crate) fn set_end(slots: &mut [Slot], soonest: &mut u64, place: usize, end: u64)
    requires kept { AreKept soonest.old slots.old }
    requires within { place < length slots.old }
    ensures rows { listed_rows slots.new ≡ with_row (listed_rows slots.old) (record (slot_at slots.old place).row { end = end }) }
    ensures kept { AreKept soonest.new slots.new }
    ensures credentials { credentials_of slots.new ≡ credentials_of slots.old }
{
    *soonest = (*soonest).min(end);
    write_end(slots, place, end);
}

fn write_end(slots: &mut [Slot], place: usize, end: u64)
    requires { place < length slots.old }
    ensures { slots.new ≡ slice_set slots.old place (record (slot_at slots.old place) { row = record (slot_at slots.old place).row { end = end } }) }
{
    slots[place].row.end = end;
}
