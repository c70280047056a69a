ghost use Rattle.std.specs.Prelude.{◌≡◌, ◌<◌, true, IfOk, IfSome, length, option_map};
ghost use Rattle.broker_rule.specs.Renewing.{with_row};
ghost use Rattle.broker_table.specs.Slots.{listed_rows, slot_at, slots_of};
ghost use Rattle.broker_rule.specs.Subject.{lease_with, token_with};
ghost use Rattle.broker_rule.specs.Sweep.{swept};

use crate::index::{Index, index_of};
use crate::slot::{Slot, if_listed, set_end, slots_of, sweep};
use base_moment::Moment;
use std::alloc::{AllocError, Global};
use std::marker::Model;
use vault_inventory::Inventory;

/// The slots of a table: each is found by its credential, and a sweep looks at them only where one may have ended.
///
/// To contracts it is their list.
#[derive(Debug, Drop)]
pub struct Slots {
    all: Vec<Slot>,
    /// No listed row ends before this moment, so before it a sweep has nothing to do.
    soonest: u64,
    index: Index,
}

impl Model for Slots {
    ghost use Rattle.std.specs.Prelude.{List};
    ghost use Rattle.broker_table.specs.declared.slot.Slot.{Slot};
    ghost use Rattle.broker_table.specs.Index.{IsIndexed};
    ghost use Rattle.broker_table.specs.Slots.{AreKept};

    ghost Value = { List Slot };

    ghost view = { λ s. s.all.items };

    ghost invariant = { λ s. AreKept s.soonest s.all.items × IsIndexed s.index s.all.items };
}

impl Slots {
    /// The slots of an inventory. The only error is out of memory.
    pub(crate) fn load(alloc: Global, inventory: &Inventory) -> Result<Slots, AllocError>
        ensures { IfOk result (λ slots. slots ≡ slots_of inventory.now) }
    {
        let all = slots_of(alloc, inventory)?;
        let index = index_of(alloc, &all)?;
        Ok(Slots {
            all,
            soonest: 0,
            index,
        })
    }

    /// The slots in order.
    pub(crate) fn list(&self) -> &[Slot]
        ensures { result.now ≡ self.now }
    {
        &self.all
    }

    /// The allocator of their memory.
    pub(crate) fn allocator(&self) -> Global {
        *self.all.allocator()
    }

    /// Lists no more each row that has ended at `t`, and each that stands under such a row.
    pub(crate) fn sweep(&mut self, t: Moment)
        ensures { listed_rows self.new ≡ swept t (listed_rows self.old) }
    {
        sweep(&mut self.all, &mut self.soonest, t);
    }

    /// Gives the row in that place another end.
    pub(crate) fn set_end(&mut self, place: usize, end: u64)
        requires { place < length self.old }
        ensures { listed_rows self.new ≡ with_row (listed_rows self.old) (record (slot_at self.old place).row { end = end }) }
    {
        set_end(&mut self.all, &mut self.soonest, place, end);
    }

    /// The place of the listed token row with that credential.
    pub(crate) fn token(&self, credential: &[u8]) -> Option<usize>
        ensures row { option_map (λ i. (slot_at self.now i).row) result ≡ token_with (listed_rows self.now) credential.now }
        ensures within { IfSome result (λ i. (i < length self.now) × ((slot_at self.now i).listed ≡ true)) }
    {
        if_listed(&self.all, self.index.token(credential))
    }

    /// The place of the listed lease row with that id.
    pub(crate) fn lease(&self, id: &[u8]) -> Option<usize>
        ensures row { option_map (λ i. (slot_at self.now i).row) result ≡ lease_with (listed_rows self.now) id.now }
        ensures within { IfSome result (λ i. (i < length self.now) × ((slot_at self.now i).listed ≡ true)) }
    {
        if_listed(&self.all, self.index.lease(id))
    }
}
