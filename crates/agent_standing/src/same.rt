//! Whether an inventory is the one that is served.
ghost use Rattle.std.specs.Prelude.{◌≡◌, ◌↔◌, ◌<◌, IsTrue, length};
ghost use Rattle.vault_inventory.specs.Inventories.{IsInventory};
ghost use Rattle.agent_standing.specs.code.Same.{IsAsLarge, IsSameAt};

use crate::agent::Agent;
use vault_inventory::Inventory;

impl Agent {
    /// Whether this inventory is the one that is served, with the needs as they were given last: whether margin and entries are the same,
    /// in the same order, and of each entry all that is written of it, its credential and its terms. What a broker has said since changes
    /// nothing of it.
    pub fn serves(&self, inventory: &Inventory) -> bool
        ensures { IsTrue result ↔ (inventory.now ≡ self.now.inventory) }
    {
        is_same(inventory, &self.inventory)
    }
}

/// Whether two inventories are the same.
#[tactic(auto, using(crate::proofs::Equal::same_everywhere, crate::proofs::Equal::same_large, crate::proofs::Equal::same_at))]
fn is_same(one: &Inventory, other: &Inventory) -> bool
    ensures { IsTrue result ↔ (one.now ≡ other.now) }
{
    if !is_as_large(one, other) {
        return false;
    }
    for index in 0..one.forest().len() {
        if !is_same_at(one, other, index) {
            return false;
        }
    }
    true
}

/// Whether two inventories have as many entries, and the same margin.
fn is_as_large(one: &Inventory, other: &Inventory) -> bool
    ensures value { IsTrue result ↔ IsAsLarge one.now other.now }
    ensures sound { IsInventory one.now × IsInventory other.now }
{
    one.forest().len() == other.forest().len() && one.forest().margin() == other.forest().margin()
}

/// Whether two inventories say the same of the entry at an index.
#[tactic(auto, using(crate::proofs::Equal::deciding))]
fn is_same_at(one: &Inventory, other: &Inventory, index: u32) -> bool
    requires one { index < length one.now.forest.entries }
    requires other { index < length other.now.forest.entries }
    ensures { IsTrue result ↔ IsSameAt one.now other.now index }
{
    one.forest().get(index) == other.forest().get(index)
        && one.credential(index) == other.credential(index)
        && one.terms(index) == other.terms(index)
}
