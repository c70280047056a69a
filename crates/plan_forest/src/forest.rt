ghost use Rattle.std.specs.Prelude.{◌≡◌, ℕ, ◌+◌, ◌<◌, ◌≤◌, false, [], ◌∷◌, ◌++◌, List, Some, None, length, is_some, is_none, slice_set, IfOk, IfSome, IsTrue, OnErr, IsOkUnless, ◌↔◌};
ghost use Rattle.std.specs.List.{list_all};
ghost use Rattle.plan_forest.specs.Forest.{entry_at, index_named};
ghost use Rattle.plan_forest.specs.Margins.{IsMargin, IsMostMargin};
ghost use Rattle.plan_forest.specs.Over.{chain, is_over};
ghost use Rattle.plan_forest.specs.Push.{IsForest, depth_under, entry_refusal, is_lease, is_name, is_name_byte, is_out_of_range, is_too_high, is_under_lease, lacks_parent};

use crate::entry::Entry;
use crate::fault::TreeFault;
use base_moment::{LAST, Moment};
use std::alloc::{AllocError, Global};
use std::collections::BTreeMap;
use std::marker::Model;

/// The greatest end or ceiling: [`LAST`] and the greatest duration, 4294967295 seconds, together.
pub const END_MAX: u64 = 257697268094;

/// The greatest margin, in seconds.
pub const MARGIN_MAX: u32 = 3600;

/// The most entries that a forest has.
pub const MAX_ENTRIES: usize = 4096;

/// The most entries of a chain from an entry to its root, both counted.
pub const MAX_DEPTH: usize = 64;

/// The most bytes of a name.
pub const NAME_MAX: usize = 64;

/// Tokens and leases in one list, each after the one that it belongs to, with a look-up by name; and the margin, in
/// seconds, that an agent leaves before an end.
///
/// Source: Vault, "Tokens"; Vault, "Lease, renew, and revoke". The margin is this project's own.
#[derive(Debug, Drop)]
pub struct Forest {
    entries: Vec<Entry>,
    names: BTreeMap<Vec<u8>, u32>,
    margin: u32,
}

impl Model for Forest {
    ghost use Rattle.std.specs.Prelude.{◌≡◌, List, ℕ};
    ghost use Rattle.std.specs.BTreeMap.{get_by};
    ghost use Rattle.std.specs.Cmp.Lexicographic.{slice_cmp};
    ghost use Rattle.std.specs.Ordering.{nat_cmp};
    ghost use Rattle.plan_forest.specs.Forest.{Forest, index_named};
    ghost use Rattle.plan_forest.specs.Push.{IsForest};

    ghost Value = { Forest };

    ghost view = { λ f. record { entries = f.entries.items; margin = f.margin } };

    ghost invariant = { λ f. IsForest (record { entries = f.entries.items; margin = f.margin })
        × ((q : List ℕ) → get_by (λ k. slice_cmp nat_cmp q k.items) f.names ≡ index_named f.entries.items q) };
}

/// Whether these bytes are a name: 1 to 64 ASCII letters, digits, `-`, `_`, `.` or `/`.
#[tactic(auto, unfolding(crate::specs::Push::is_name))]
fn is_name(name: &[u8]) -> bool
    ensures { result ≡ is_name name.now }
{
    !name.is_empty() && name.len() <= NAME_MAX && has_name_bytes(name)
}

fn has_name_bytes(name: &[u8]) -> bool
    ensures { result ≡ list_all is_name_byte name.now }
{
    name.iter().all(|b| b.is_ascii_alphanumeric()
        || *b == b'-'
        || *b == b'_'
        || *b == b'.'
        || *b == b'/')
}

impl Forest {
    /// A forest with no entry and a margin of one second. It takes no memory.
    pub fn new(alloc: Global) -> Forest
        ensures { result ≡ record { entries = []; margin = 1 } }
    {
        Forest::with_margin(alloc, 1)
    }

    /// A forest with no entry and that margin, in seconds. It takes no memory.
    pub fn with_margin(alloc: Global, margin: u32) -> Forest
        requires least { 1 ≤ margin }
        requires most { margin ≤ MARGIN_MAX }
        ensures { result ≡ record { entries = []; margin = margin } }
    {
        Forest {
            entries: Vec::new(alloc),
            names: BTreeMap::new(alloc),
            margin,
        }
    }

    /// Another forest with the same entries, names and margin. The only error is out of memory.
    pub fn copy(&self) -> Result<Forest, AllocError>
        ensures { IfOk result (λ g. g ≡ self.now) }
    {
        let entries = copy_entries(*self.entries.allocator(), &self.entries)?;
        let names = self.names.clone()?;
        Ok(Forest {
            entries,
            names,
            margin: self.margin,
        })
    }

    /// The margin, in seconds: 1 to 3600.
    pub fn margin(&self) -> u32
        ensures { result ≡ self.now.margin }
    {
        self.margin
    }

    /// The greatest margin that these entries allow, in seconds: at most 3600, and less than each step.
    pub fn most_margin(&self) -> u32
        ensures value { IsMostMargin self.now.entries result }
        ensures sound { IsForest self.now }
    {
        let mut most = MARGIN_MAX;
        for index in 0..self.len() {
            most = most.min(self.get(index).step - 1);
        }
        most
    }

    /// Sets the margin, in seconds.
    pub fn set_margin(&mut self, margin: u32)
        requires { IsMargin self.old.entries margin }
        ensures { self.new ≡ record self.old { margin = margin } }
    {
        self.margin = margin;
    }

    /// The number of entries, at most 4,096.
    pub fn len(&self) -> u32
        ensures value { result ≡ length self.now.entries }
        ensures sound { IsForest self.now }
    {
        self.entries.len() as u32
    }

    /// Whether there is no entry.
    pub fn is_empty(&self) -> bool
        ensures { IsTrue result ↔ (self.now.entries ≡ []) }
    {
        self.entries.is_empty()
    }

    /// The entry at an index.
    pub fn get(&self, index: u32) -> &Entry
        requires { index < length self.now.entries }
        ensures value { result.now ≡ entry_at self.now.entries index }
        ensures sound { IsForest self.now }
    {
        &self.entries[index as usize]
    }

    /// The index of the entry of that name.
    pub fn find(&self, name: &[u8]) -> Option<u32>
        ensures value { result ≡ index_named self.now.entries name.now }
        ensures within { IfSome result (λ i. i < length self.now.entries) }
    {
        self.names.get(name).copied()
    }

    /// Whether the entry `above` is over the entry `below`: that entry itself, its parent, the parent of that and so on.
    ///
    /// Source: Vault, "Tokens" (child tokens and orphans); Vault, "Lease, renew, and revoke".
    pub fn is_over(&self, above: u32, below: u32) -> bool
        requires above_in { above < length self.now.entries }
        requires below_in { below < length self.now.entries }
        ensures { result ≡ is_over self.now.entries above below }
    {
        if above == below {
            return true;
        }
        match self.get(below).parent {
            None => false,
            Some(parent) => self.is_over(above, parent),
        }
    }

    /// Appends the entry and gives its index. A refused entry is dropped and the forest stays as it was; the answer is
    /// the first refusal in the order of [`TreeFault`], and lack of memory only where none of them applies.
    pub fn push(&mut self, entry: Entry) -> Result<u32, TreeFault>
        ensures taken { IfOk result (λ i. (entry_refusal self.old entry ≡ None) × (i ≡ length self.old.entries)
            × (self.new ≡ record self.old { entries = self.old.entries ++ entry ∷ [] })) }
        ensures refused { IfSome (entry_refusal self.old entry) (λ fault. result ≡ Err fault) }
        ensures memory { entry_refusal self.old entry ≡ None → IsOkUnless result TreeFault.OutOfMemory }
        ensures unchanged { OnErr result (self.new ≡ self.old) }
    {
        if let Some(fault) = self.refusal(&entry) {
            return Err(fault);
        }
        let index = self.entries.len() as u32;
        let name = Vec::from_slice(*self.entries.allocator(), entry.name.list())?;
        self.entries.reserve(1)?;
        self.names.insert(name, index)?;
        self.entries.push(entry).unwrap();
        Ok(index)
    }

    /// Sets the end of an entry, in seconds since 1970-01-01T00:00:00Z.
    pub fn set_end(&mut self, index: u32, end: u64)
        requires within { index < length self.old.entries }
        requires range { end ≤ END_MAX }
        ensures { self.new ≡ record self.old { entries = slice_set self.old.entries index (record (entry_at self.old.entries index) { end = end }) } }
    {
        self.entries[index as usize].end = end;
    }

    /// Sets the moment until which an entry is needed; the moment 0 means that it is not.
    pub fn set_need(&mut self, index: u32, need: Moment)
        requires { index < length self.old.entries }
        ensures { self.new ≡ record self.old { entries = slice_set self.old.entries index (record (entry_at self.old.entries index) { need = need }) } }
    {
        self.entries[index as usize].need = need.get();
    }

    /// Sets whether an entry can be renewed.
    pub fn set_renewable(&mut self, index: u32, renewable: bool)
        requires { index < length self.old.entries }
        ensures { self.new ≡ record self.old { entries = slice_set self.old.entries index (record (entry_at self.old.entries index) { renewable = renewable }) } }
    {
        self.entries[index as usize].renewable = renewable;
    }

    /// Sets the step of an entry, in seconds, and its ceiling, in seconds since 1970-01-01T00:00:00Z.
    pub fn set_terms(&mut self, index: u32, step: u32, ceiling: Option<u64>)
        requires within { index < length self.old.entries }
        requires step { self.old.margin + 1 ≤ step }
        requires range { IfSome ceiling (λ c. c ≤ END_MAX) }
        ensures { self.new ≡ record self.old { entries = slice_set self.old.entries index (record (entry_at self.old.entries index) { step = step; ceiling = ceiling }) } }
    {
        let entry = &mut self.entries[index as usize];
        entry.step = step;
        entry.ceiling = ceiling;
    }

    /// Takes an entry away from its parent: a token is an orphan then.
    pub fn orphan(&mut self, index: u32)
        requires within { index < length self.old.entries }
        requires token { is_lease (entry_at self.old.entries index).kind ≡ false }
        ensures { self.new ≡ record self.old { entries = slice_set self.old.entries index (record (entry_at self.old.entries index) { parent = None }) } }
    {
        self.entries[index as usize].parent = None;
    }

    /// Why the entry would be refused: the first of the nine that applies, `None` where none does.
    fn refusal(&self, entry: &Entry) -> Option<TreeFault>
        ensures { result ≡ entry_refusal self.now entry.now }
    {
        if !is_name(entry.name.list()) {
            return Some(TreeFault::BadName);
        }
        if self.find(entry.name.list()).is_some() {
            return Some(TreeFault::NameTwice);
        }
        if self.lacks_parent(entry.parent) {
            return Some(TreeFault::NoParent);
        }
        if self.is_under_lease(entry.parent) {
            return Some(TreeFault::ParentIsLease);
        }
        if entry.kind.is_lease() && entry.parent.is_none() {
            return Some(TreeFault::LeaseWithoutToken);
        }
        if entry.step < self.margin + 1 {
            return Some(TreeFault::StepTooSmall);
        }
        if is_out_of_range(entry) {
            return Some(TreeFault::OutOfRange);
        }
        if self.depth_under(entry.parent) >= MAX_DEPTH {
            return Some(TreeFault::TooDeep);
        }
        if self.entries.len() >= MAX_ENTRIES {
            return Some(TreeFault::Full);
        }
        None
    }

    /// Whether the parent's index is not that of an entry.
    #[tactic(auto, unfolding(crate::specs::Push::lacks_parent))]
    fn lacks_parent(&self, parent: Option<u32>) -> bool
        ensures { result ≡ lacks_parent self.now.entries parent }
    {
        match parent {
            None => false,
            Some(index) => index as usize >= self.entries.len(),
        }
    }

    #[tactic(auto, unfolding(crate::specs::Push::is_under_lease))]
    fn is_under_lease(&self, parent: Option<u32>) -> bool
        requires { lacks_parent self.now.entries parent ≡ false }
        ensures { result ≡ is_under_lease self.now.entries parent }
    {
        match parent {
            None => false,
            Some(index) => self.get(index).kind.is_lease(),
        }
    }

    /// How many entries would stand over a new one with that parent.
    #[tactic(auto, unfolding(crate::specs::Push::depth_under))]
    fn depth_under(&self, parent: Option<u32>) -> usize
        requires { lacks_parent self.now.entries parent ≡ false }
        ensures { result ≡ depth_under self.now.entries parent }
    {
        match parent {
            None => 0,
            Some(index) => self.depth(index),
        }
    }

    /// The number of entries from this one to its root, both counted: at most 64, so the walk is short.
    fn depth(&self, index: u32) -> usize
        requires { index < length self.now.entries }
        ensures value { result ≡ length (chain self.now.entries index) }
        ensures within { result ≤ MAX_DEPTH }
    {
        match self.get(index).parent {
            None => 1,
            Some(parent) => self.depth(parent) + 1,
        }
    }
}

/// An entry with the same fields. The only error is out of memory.
fn copy_entry(entry: &Entry) -> Result<Entry, AllocError>
    ensures { IfOk result (λ e. e ≡ entry.now) }
{
    Ok(Entry {
        name: entry.name.clone()?,
        kind: entry.kind,
        parent: entry.parent,
        end: entry.end,
        renewable: entry.renewable,
        step: entry.step,
        ceiling: entry.ceiling,
        need: entry.need,
    })
}

/// Entries with the same fields. The only error is out of memory.
fn copy_entries(alloc: Global, entries: &[Entry]) -> Result<Vec<Entry>, AllocError>
    ensures { IfOk result (λ copies. copies.items ≡ entries.now) }
{
    let mut copies = Vec::new(alloc);
    for entry in entries {
        copies.push(copy_entry(entry)?)?;
    }
    Ok(copies)
}

#[tactic(auto, unfolding(crate::specs::Push::is_out_of_range))]
fn is_out_of_range(entry: &Entry) -> bool
    ensures { result ≡ is_out_of_range entry.now }
{
    entry.end > END_MAX || is_too_high(entry.ceiling) || entry.need > LAST
}

fn is_too_high(ceiling: Option<u64>) -> bool
    ensures { result ≡ is_too_high ceiling }
{
    match ceiling {
        None => false,
        Some(ceiling) => ceiling > END_MAX,
    }
}
