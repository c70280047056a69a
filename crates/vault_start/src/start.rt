ghost use Rattle.std.specs.Prelude.{◌≡◌, OnErr, OnOk, length};
ghost use Rattle.vault_inventory.specs.Answers.{GivesOrInvFault};
ghost use Rattle.vault_start.specs.Start.{from_start, inventory_at};

use base_moment::Moment;
use std::alloc::{AllocError, Global};
use tick_keeper::needs_always;
use vault_inventory::{InvFault, Inventory, read_known};
use vault_served::{marks, set_needs};

/// The inventory that these bytes write, from `start` on: an entry whose need is `always` is needed as long as it can be kept from
/// then on, a year where nothing limits it. Files of secrets are not read: the name stands for a credential in one.
///
/// # Errors
///
/// Those of [`read_served`](vault_inventory::read_served); then `MissingKey` with `issued`, of the first table that leaves its end
/// to a lookup.
#[tactic(auto, using(vault_served::proofs::ForGood::places), unfolding(crate::specs::Start::inventory_at))]
pub fn read_at(alloc: Global, bytes: &[u8], start: Moment) -> Result<Inventory, InvFault>
    ensures { GivesOrInvFault (λ inventory. inventory) result (inventory_at start bytes.now) }
{
    let served = read_known(alloc, bytes)?;
    let (mut inventory, notes) = served.into_parts();
    let always = marks(alloc, &notes)?;
    need_always(alloc, &mut inventory, &always, start)?;
    Ok(inventory)
}

/// Gives each of the entries that `always` marks, which has a place for each entry, the need that it has from `start` on: the
/// least reach over it, or a year from `start` where nothing limits it, and no later than the last moment. The others keep theirs.
///
/// The only error is out of memory, which leaves the inventory as it was.
#[tactic(auto, using(crate::proofs::Started::needs_for_each, crate::proofs::Started::needs_set))]
pub fn need_always(
    alloc: Global,
    inventory: &mut Inventory,
    always: &[bool],
    start: Moment,
) -> Result<(), AllocError>
    requires { length always.now ≡ length inventory.old.forest.entries }
    ensures needed { OnOk result (inventory.new ≡ from_start inventory.old always.now start) }
    ensures unchanged { OnErr result (inventory.new ≡ inventory.old) }
{
    let needs = needs_always(alloc, inventory.forest(), always, start)?;
    set_needs(inventory, &needs);
    Ok(())
}
