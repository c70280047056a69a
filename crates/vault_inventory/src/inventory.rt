ghost use Rattle.std.specs.Prelude.{◌≡◌, ◌<◌, None, Ok, Err, IfSome, length};
ghost use Rattle.vault_inventory.specs.Inventories.{IsSendableText, IsInventory, terms_at, credential_at, inventory_with_need};
ghost use Rattle.vault_inventory.specs.Intake.{inventory_of_intake};
ghost use Rattle.vault_inventory.specs.Lookup.{lookup_fault, told};

use crate::draft::Draft;
use crate::lookup::{LookupFault, set_need, tell, told_terms, write_terms};
use crate::note::EntryNote;
use crate::register::Register;
use crate::terms::Terms;
use base_moment::Moment;
use plan_forest::Forest;
use std::marker::Model;
use vault_json::Lookup;

/// The credentials of a forest's entries, in order: a token's own value, or a lease's id.
#[derive(Debug, Drop)]
pub struct Credentials {
    secrets: Register,
    lease_ids: Register,
}

impl Model for Credentials {
    ghost use Rattle.std.specs.Prelude.{List, ℕ, ◌++◌};
    ghost use Rattle.std.specs.List.{All};
    ghost use Rattle.vault_inventory.specs.Inventories.{IsSendableText};

    ghost Value = { List (List ℕ) };

    ghost view = { λ c. c.secrets ++ c.lease_ids };

    ghost invariant = { λ c. All IsSendableText (c.secrets ++ c.lease_ids) };
}

impl Credentials {
    /// The credential of the entry at an index: 1 to 256 bytes, each from 0x21 to 0x7E.
    #[tactic(auto, using(crate::proofs::Inventories::halves))]
    pub fn get(&self, index: u32) -> &[u8]
        requires { index < length self.now }
        ensures value { result.now ≡ credential_at self.now index }
        ensures sendable { IsSendableText result.now }
    {
        let (index, tokens) = (index as usize, self.secrets.len());
        if index < tokens {
            self.secrets.get(index)
        } else {
            self.lease_ids.get(index - tokens)
        }
    }
}

/// The tokens and leases to keep: a forest, and beside each entry its credential and its terms.
#[derive(Debug, Drop)]
pub struct Inventory {
    forest: Forest,
    credentials: Credentials,
    terms: Vec<Terms>,
}

impl Model for Inventory {
    ghost use Rattle.vault_inventory.specs.Inventories.{Inventory, IsInventory};

    ghost Value = { Inventory };

    ghost view = { λ v. record { forest = v.forest; credentials = v.credentials; terms = v.terms.items } };

    ghost invariant = { λ v. IsInventory (record { forest = v.forest; credentials = v.credentials; terms = v.terms.items }) };
}

impl Inventory {
    /// The forest.
    pub fn forest(&self) -> &Forest
        ensures value { result.now ≡ self.now.forest }
        ensures sound { IsInventory self.now }
    {
        &self.forest
    }

    /// The credential of the entry at an index: a token's own value, or a lease's id.
    pub fn credential(&self, index: u32) -> &[u8]
        requires { index < length self.now.forest.entries }
        ensures value { result.now ≡ credential_at self.now.credentials index }
        ensures sendable { IsSendableText result.now }
        ensures sound { IsInventory self.now }
    {
        self.credentials.get(index)
    }

    /// The credentials, one for each entry of the forest.
    pub fn credentials(&self) -> &Credentials
        ensures value { result.now ≡ self.now.credentials }
        ensures sound { IsInventory self.now }
    {
        &self.credentials
    }

    /// The terms of the entry at an index.
    pub fn terms(&self, index: u32) -> Terms
        requires { index < length self.now.forest.entries }
        ensures value { result ≡ terms_at self.now.terms index }
        ensures sound { IsInventory self.now }
    {
        self.terms[index as usize]
    }

    /// Makes of the entry at an index what a broker has said of it at `now`: its end, whether it can be renewed, its issue
    /// and its ceiling; of a token also its period, its explicit max TTL and its step. It takes no memory.
    ///
    /// The first that applies, and then nothing is changed: `OtherKind`, it was said of a lease and the entry is a token, or
    /// the other way; `OtherEntry`, it was said of a lease with another id; `OtherTree`, the token is an orphan, and the
    /// inventory names its parent; `NoStep`, the period, or the increment where there is none, is not more than the margin.
    pub fn apply_lookup(
        &mut self,
        index: u32,
        lookup: &Lookup,
        now: Moment,
    ) -> Result<(), LookupFault>
        requires { index < length self.old.forest.entries }
        ensures refused { IfSome (lookup_fault self.old index lookup.now) (λ fault. (result ≡ Err fault) × (self.new ≡ self.old)) }
        ensures applied { lookup_fault self.old index lookup.now ≡ None → (result ≡ Ok tt) × (self.new ≡ told self.old index lookup.now now) }
    {
        if let Some(fault) = self.lookup_fault(index, lookup) {
            return Err(fault);
        }
        let terms = told_terms(lookup, self.terms(index));
        tell(&mut self.forest, index, lookup, &terms, now);
        write_terms(&mut self.terms, index, terms);
        Ok(())
    }

    /// Sets until when the entry at an index is needed. It takes no memory.
    pub fn set_need(&mut self, index: u32, need: Moment)
        requires { index < length self.old.forest.entries }
        ensures { self.new ≡ inventory_with_need self.old index need }
    {
        set_need(&mut self.forest, index, need);
    }

    /// Why what a broker has said is not applied to an entry, `None` where it is.
    #[tactic(auto, unfolding(crate::specs::Lookup::lookup_fault))]
    pub fn lookup_fault(&self, index: u32, lookup: &Lookup) -> Option<LookupFault>
        requires { index < length self.now.forest.entries }
        ensures { result ≡ lookup_fault self.now index lookup.now }
    {
        let entry = self.forest.get(index);
        match lookup {
            Lookup::Token { orphan, .. } => {
                if entry.kind.is_lease() {
                    return Some(LookupFault::OtherKind);
                }
                if *orphan && entry.parent.is_some() {
                    return Some(LookupFault::OtherTree);
                }
                let terms = told_terms(lookup, self.terms(index));
                if terms.step() < self.forest.margin() + 1 {
                    return Some(LookupFault::NoStep);
                }
                None
            }
            Lookup::Lease { id, .. } => {
                if !entry.kind.is_lease() {
                    Some(LookupFault::OtherKind)
                } else if self.credential(index) == id.list() {
                    None
                } else {
                    Some(LookupFault::OtherEntry)
                }
            }
        }
    }

    /// The forest and the credentials, one for each of its entries. It takes no memory.
    pub fn into_parts(self) -> (Forest, Credentials)
        ensures forest { result.0 ≡ self.forest }
        ensures credentials { result.1 ≡ self.credentials }
        ensures sound { IsInventory self }
    {
        (self.forest, self.credentials)
    }

    /// The inventory of a draft whose tables are all read, and what they leave open.
    pub(crate) fn of(draft: Draft) -> (Inventory, Vec<EntryNote>)
        requires { IsInventory (inventory_of_intake draft) }
        ensures inventory { result.0 ≡ inventory_of_intake draft }
        ensures notes { result.1.items ≡ draft.notes }
    {
        let inventory = Inventory {
            forest: draft.forest,
            credentials: Credentials {
                secrets: draft.secrets,
                lease_ids: draft.lease_ids,
            },
            terms: draft.terms,
        };
        (inventory, draft.notes)
    }
}
