//! Another inventory is served from now on, and the Watch goes on over it.
ghost use Rattle.std.specs.Prelude.{◌≡◌, ◌<◌, IfErr, IfOk, IfSome, OnErr, OnOk, length, map};
ghost use Rattle.std.specs.List.{All, range_with_len};
ghost use Rattle.plan_forest.specs.Forest.{entry_at};
ghost use Rattle.agent_standing.specs.Agent.{IsStanding};
ghost use Rattle.agent_standing.specs.Changed.{AgentIsChanged, all_was, carried_standing, former, has_same_parent, is_said_again, is_same_answer, is_same_entry, is_same_kind, is_same_number, is_same_terms, parent_name, was_of};
ghost use Rattle.watch_machine.specs.declared.fault.WatchFault.TheVariants.{OutOfMemory};

use crate::agent::Agent;
use crate::standing::EntryStanding;
use base_moment::Span;
use plan_forest::{Entry, Forest, Kind};
use std::alloc::{AllocError, Global};
use vault_inventory::{Inventory, Terms};
use watch_machine::{Was, WatchFault};

impl Agent {
    /// Serves another inventory from now on.
    ///
    /// An entry that was served before, by its name, of the same kind and with the same credential, keeps its standing and all that the
    /// Watch knows of it, its request that is out too. One that was not, or of which the inventory says something else but for its need,
    /// is looked up at once. The only error is out of memory: then all is as it was.
    pub fn change(&mut self, alloc: Global, inventory: Inventory) -> Result<(), WatchFault>
        ensures changed { OnOk result (AgentIsChanged self.old inventory self.new) }
        ensures refused { IfErr result (λ fault. fault ≡ OutOfMemory) }
        ensures unchanged { OnErr result (self.new ≡ self.old) }
    {
        let forest = inventory.forest().copy()?;
        let standings = self.carried(alloc, &inventory)?;
        let was = self.all_was(alloc, &inventory)?;
        self.watch.change(alloc, forest, &was)?;
        self.inventory = inventory;
        self.standings = standings;
        Ok(())
    }

    /// What is said of each entry of another inventory from then on. The only error is out of memory.
    fn carried(
        &self,
        alloc: Global,
        inventory: &Inventory,
    ) -> Result<Vec<EntryStanding>, AllocError>
        ensures value { IfOk result (λ standings. standings.items ≡ map (carried_standing self.now inventory.now) (range_with_len 0 (length inventory.now.forest.entries))) }
        ensures bounds { IfOk result (λ standings. All IsStanding standings.items) }
    {
        let mut standings = Vec::new(alloc);
        for index in 0..inventory.forest().len() {
            standings.push(self.carried_standing(inventory, index))?;
        }
        Ok(standings)
    }

    /// What is said of an entry of another inventory from then on.
    #[tactic(auto, unfolding(crate::specs::Changed::carried_standing))]
    fn carried_standing(&self, inventory: &Inventory, index: u32) -> EntryStanding
        requires { index < length inventory.now.forest.entries }
        ensures value { result ≡ carried_standing self.now inventory.now index }
        ensures bounds { IsStanding result }
    {
        match self.former(inventory, index) {
            None => EntryStanding::fresh(),
            Some(former) => self.standing(former),
        }
    }

    /// Where an entry of another inventory is served now.
    #[tactic(auto, unfolding(crate::specs::Changed::former))]
    fn former(&self, inventory: &Inventory, index: u32) -> Option<u32>
        requires { index < length inventory.now.forest.entries }
        ensures value { result ≡ former self.now.inventory inventory.now index }
        ensures within { IfSome result (λ i. i < length self.now.inventory.forest.entries) }
    {
        let name = inventory.forest().get(index).name.list();
        let former = self.inventory.forest().find(name)?;
        if is_same_entry(&self.inventory, inventory, former, index) {
            Some(former)
        } else {
            None
        }
    }

    /// Where each entry of another inventory is served now. The only error is out of memory.
    #[tactic(auto, unfolding(crate::specs::Changed::all_was))]
    fn all_was(&self, alloc: Global, inventory: &Inventory) -> Result<Vec<Was>, AllocError>
        ensures { IfOk result (λ was. was.items ≡ all_was self.now.inventory inventory.now) }
    {
        let mut was = Vec::new(alloc);
        for index in 0..inventory.forest().len() {
            was.push(self.was_of(inventory, index))?;
        }
        Ok(was)
    }

    /// Where an entry of another inventory is served now, and whether that says of it what this one says.
    #[tactic(auto, unfolding(crate::specs::Changed::was_of))]
    fn was_of(&self, inventory: &Inventory, index: u32) -> Was
        requires { index < length inventory.now.forest.entries }
        ensures { result ≡ was_of self.now.inventory inventory.now index }
    {
        match self.former(inventory, index) {
            None => Was::New,
            Some(former) if is_said_again(&self.inventory, inventory, former, index) => {
                Was::Same(former)
            }
            Some(former) => Was::Retold(former),
        }
    }
}

/// Whether an entry of one inventory is that of another: of its kind, and with its credential.
#[tactic(auto, unfolding(crate::specs::Changed::is_same_entry))]
fn is_same_entry(old: &Inventory, new: &Inventory, before: u32, after: u32) -> bool
    requires before { before < length old.now.forest.entries }
    requires after { after < length new.now.forest.entries }
    ensures { result ≡ is_same_entry old.now new.now before after }
{
    is_same_kind(old.forest().get(before).kind, new.forest().get(after).kind)
        && old.credential(before) == new.credential(after)
}

fn is_same_kind(one: Kind, other: Kind) -> bool
    ensures { result ≡ is_same_kind one other }
{
    match (one, other) {
        (Kind::Token, Kind::Token) | (Kind::Lease, Kind::Lease) => true,
        _ => false,
    }
}

/// Whether an inventory says of an entry what another says of one of its own, but for its need.
#[tactic(auto, unfolding(crate::specs::Changed::is_said_again))]
fn is_said_again(old: &Inventory, new: &Inventory, before: u32, after: u32) -> bool
    requires before { before < length old.now.forest.entries }
    requires after { after < length new.now.forest.entries }
    ensures { result ≡ is_said_again old.now new.now before after }
{
    let one = old.forest().get(before);
    let other = new.forest().get(after);
    one.end == other.end
        && is_same_answer(one.renewable, other.renewable)
        && has_same_parent(old.forest(), new.forest(), one, other)
        && is_same_terms(old.terms(before), new.terms(after))
}

/// Whether two entries have parents of the same name, or none.
#[tactic(auto, unfolding(crate::specs::Changed::has_same_parent))]
fn has_same_parent(old: &Forest, new: &Forest, one: &Entry, other: &Entry) -> bool
    ensures { result ≡ has_same_parent old.now.entries new.now.entries one.now other.now }
{
    parent_name(old, one.parent) == parent_name(new, other.parent)
}

/// The name of a parent; no name where there is none.
fn parent_name(forest: &Forest, parent: Option<u32>) -> &[u8]
    ensures { result.now ≡ parent_name forest.now.entries parent }
{
    match parent {
        None => b"",
        Some(parent) => name_at(forest, parent),
    }
}

/// The name of the entry at an index; no name past the last.
fn name_at(forest: &Forest, index: u32) -> &[u8]
    ensures { result.now ≡ (entry_at forest.now.entries index).name }
{
    if index < forest.len() {
        forest.get(index).name.list()
    } else {
        b""
    }
}

fn is_same_answer(one: bool, other: bool) -> bool
    ensures { result ≡ is_same_answer one other }
{
    if one { other } else { !other }
}

fn is_same_number(one: Option<Span>, other: Option<Span>) -> bool
    ensures { result ≡ is_same_number one other }
{
    match (one, other) {
        (None, None) => true,
        (Some(one), Some(other)) => one == other,
        (None, Some(_)) | (Some(_), None) => false,
    }
}

#[tactic(auto, unfolding(crate::specs::Changed::is_same_terms))]
fn is_same_terms(one: Terms, other: Terms) -> bool
    ensures { result ≡ is_same_terms one other }
{
    one.issued.get() == other.issued.get()
        && is_same_number(one.increment, other.increment)
        && one.period == other.period
        && one.max_ttl == other.max_ttl
        && one.explicit_max == other.explicit_max
        && is_same_answer(one.reissued, other.reissued)
}
