//! What a watch reads: the inventory in which a need that is `always` lasts to the last moment.
ghost use Rattle.std.specs.Prelude.{◌≡◌, ◌<◌, IfOk, length};
ghost use Rattle.plan_forest.specs.Forest.{entry_at};
ghost use Rattle.vault_inventory.specs.Answers.{GivesOrInvFault};
ghost use Rattle.vault_served.specs.ForGood.{inventory_for_good, inventory_with_needs, marks, need_for_good, needs_for_good, served_for_good};

use base_moment::{LAST, Moment};
use plan_forest::Forest;
use std::alloc::{AllocError, Global};
use vault_inventory::{EntryNote, InvFault, Inventory, ServedInventory, read_served};

/// The inventory that these bytes write, for a watch: an entry whose need is `always` is needed until the last moment, since a watch
/// shortens each need to what can be kept as it goes. Ends that are not written are 0, as a lookup is to tell them, and files of
/// secrets are not read: the name stands for a credential in one.
///
/// # Errors
///
/// Those of [`read_served`].
#[tactic(auto, unfolding(crate::specs::ForGood::inventory_for_good))]
pub fn read_for_good(alloc: Global, bytes: &[u8]) -> Result<Inventory, InvFault>
    ensures { GivesOrInvFault (λ inventory. inventory) result (inventory_for_good bytes.now) }
{
    let served = read_served(alloc, bytes)?;
    Ok(served_for_good(alloc, served)?)
}

/// What was read of an inventory, for a watch, as [`read_for_good`] gives it of the bytes. The only error is out of memory.
#[tactic(auto, using(crate::proofs::ForGood::places, crate::proofs::ForGood::good_for_each), unfolding(crate::specs::ForGood::served_for_good))]
pub fn served_for_good(alloc: Global, served: ServedInventory) -> Result<Inventory, AllocError>
    ensures { IfOk result (λ inventory. inventory ≡ served_for_good served) }
{
    let (mut inventory, notes) = served.into_parts();
    let always = marks(alloc, &notes)?;
    let needs = needs_for_good(alloc, inventory.forest(), &always)?;
    set_needs(&mut inventory, &needs);
    Ok(inventory)
}

/// Which entries are needed as long as they can be kept, by what their tables leave open. The only error is out of memory.
#[tactic(auto, using(crate::proofs::ForGood::marks_none, crate::proofs::ForGood::marks_more, crate::proofs::ForGood::marks_all))]
pub fn marks(alloc: Global, notes: &[EntryNote]) -> Result<Vec<bool>, AllocError>
    ensures { IfOk result (λ always. always.items ≡ marks notes.now) }
{
    let mut always = Vec::new(alloc);
    for note in notes {
        always.push(note.is_always)?;
    }
    Ok(always)
}

/// Gives the entries these needs, one for each. It takes no memory.
pub fn set_needs(inventory: &mut Inventory, needs: &[Moment])
    requires { length needs.now ≡ length inventory.old.forest.entries }
    ensures { inventory.new ≡ inventory_with_needs inventory.old needs.now }
{
    for index in 0..inventory.forest().len() {
        inventory.set_need(index, needs[index as usize]);
    }
}

/// The needs of all entries, where those that `always` marks are needed until the last moment.
#[tactic(auto, unfolding(crate::specs::ForGood::needs_for_good))]
fn needs_for_good(
    alloc: Global,
    forest: &Forest,
    always: &[bool],
) -> Result<Vec<Moment>, AllocError>
    requires { length always.now ≡ length forest.now.entries }
    ensures { IfOk result (λ needs. needs.items ≡ needs_for_good forest.now always.now) }
{
    let mut needs = Vec::new(alloc);
    for index in 0..forest.len() {
        needs.push(need_for_good(forest, always, index))?;
    }
    Ok(needs)
}

/// The need of an entry, where those that `always` marks are needed until the last moment.
#[tactic(auto, unfolding(crate::specs::ForGood::need_for_good))]
fn need_for_good(forest: &Forest, always: &[bool], index: u32) -> Moment
    requires within { index < length forest.now.entries }
    requires places { length always.now ≡ length forest.now.entries }
    ensures { result ≡ need_for_good forest.now always.now index }
{
    if always[index as usize] {
        Moment::new(LAST).unwrap()
    } else {
        own_need(forest, index)
    }
}

/// The need of an entry as it stands.
fn own_need(forest: &Forest, index: u32) -> Moment
    requires { index < length forest.now.entries }
    ensures { result ≡ (entry_at forest.now.entries index).need }
{
    Moment::new(forest.get(index).need).unwrap()
}
