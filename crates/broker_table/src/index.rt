ghost use Rattle.std.specs.Prelude.{◌≡◌, ℕ, List, Some, IfOk, OnOk, bytes_eq, if◌then◌else◌};
ghost use Rattle.broker_table.specs.Index.{AreUnlike, EntersRow, IsIndexOfNone, IsIndexed, place_in};
ghost use Rattle.broker_table.specs.Slots.{AreSlots};

use crate::slot::{Slot, slot_in};
use broker_rule::BrokerRow;
use plan_forest::Kind;
use std::alloc::{AllocError, Global};
use std::collections::BTreeMap;
use std::fmt;

/// Where the row with a credential stands: that of a token by its own value, that of a lease by its id. A row that has
/// ended is still found.
#[derive(Drop)]
pub struct Index {
    tokens: BTreeMap<Vec<u8>, u32>,
    leases: BTreeMap<Vec<u8>, u32>,
}

impl fmt::Debug for Index {
    /// Shows nothing of the credentials, which are secret.
    fn fmt<W: fmt::Write>(&self, f: &mut fmt::Formatter<W>) -> fmt::Result {
        f.debug_struct("Index").finish_non_exhaustive()
    }
}

/// The index of these slots, of which no two tokens and no two leases have the same credential. The only error is want of
/// memory.
pub(crate) fn index_of(alloc: Global, slots: &[Slot]) -> Result<Index, AllocError>
    requires sound { AreSlots slots.now }
    requires unlike { AreUnlike slots.now }
    ensures { IfOk result (λ index. IsIndexed index slots.now) }
{
    let mut index = Index::new(alloc);
    for place in 0..slots.len() {
        index.add(alloc, &slot_in(slots, place).row, place as u32)?;
    }
    Ok(index)
}

impl Index {
    /// The index of no slots. It takes no memory.
    fn new(alloc: Global) -> Index
        ensures { IsIndexOfNone result }
    {
        Index {
            tokens: BTreeMap::new(alloc),
            leases: BTreeMap::new(alloc),
        }
    }

    /// Enters the row of the next slot.
    fn add(&mut self, alloc: Global, row: &BrokerRow, place: u32) -> Result<(), AllocError>
        ensures { OnOk result (EntersRow self.old self.new row.now place) }
    {
        let credential = row.credential.list();
        match row.kind {
            Kind::Token => enter(alloc, &mut self.tokens, credential, place),
            Kind::Lease => enter(alloc, &mut self.leases, credential, place),
        }
    }

    /// The place of the token with that credential.
    pub(crate) fn token(&self, credential: &[u8]) -> Option<u32>
        ensures { result ≡ place_in self.now.tokens credential.now }
    {
        self.tokens.get(credential).copied()
    }

    /// The place of the lease with that id.
    pub(crate) fn lease(&self, id: &[u8]) -> Option<u32>
        ensures { result ≡ place_in self.now.leases id.now }
    {
        self.leases.get(id).copied()
    }
}

/// Enters a place.
fn enter(
    alloc: Global,
    places: &mut BTreeMap<Vec<u8>, u32>,
    credential: &[u8],
    place: u32,
) -> Result<(), AllocError>
    ensures { OnOk result ((q : List ℕ) → place_in places.new q ≡ (if bytes_eq credential.now q then Some place else place_in places.old q)) }
{
    let key = Vec::from_slice(alloc, credential)?;
    places.insert(key, place)?;
    Ok(())
}
