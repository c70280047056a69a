ghost use Rattle.std.specs.Prelude.{◌≡◌, ◌<◌, ◌==◌, IfOk, length};
ghost use Rattle.watch_scout.specs.Looking.{with_seen};
ghost use Rattle.watch_scout.specs.State.{opened_scout, seen_at, unseen};

use plan_forest::Forest;
use std::alloc::{AllocError, Global};
use std::marker::Model;
use watch_machine::{Millis, Seconds};

/// What was looked up of an entry.
#[derive(Clone, Copy, Debug, PartialEq, Eq)]
pub struct Seen {
    /// The believed end for which the entry had its look last.
    pub looked: Option<Seconds>,
    /// The clock at which the lookup went out that is out.
    pub since: Option<Millis>,
}

/// What an agent that stands behind another holds beside its Watch.
#[derive(Debug, Drop)]
pub struct Scout {
    // the margin of the agent in front, in seconds
    pub(crate) margin: u32,
    pub(crate) width: u32,
    pub(crate) seen: Vec<Seen>,
    // how many lookups are out
    pub(crate) out: u32,
}

impl Model for Scout {
    ghost use Rattle.watch_scout.specs.State.{ScoutState};

    ghost Value = { ScoutState };

    ghost view = { λ s. record { margin = s.margin; width = s.width; seen = s.seen.items; out = s.out } };
}

/// Nothing was looked up yet.
fn unseen() -> Seen
    ensures { result ≡ unseen }
{
    Seen {
        looked: None,
        since: None,
    }
}

impl Scout {
    /// A scout beside a watch over this forest. `margin` is that of the agent in front, in seconds; at most `width` lookups are out at
    /// once. The only error is lack of memory.
    pub fn new(alloc: Global, forest: &Forest, margin: u32, width: u32) -> Result<Scout, AllocError>
        ensures { IfOk result (λ scout. scout ≡ opened_scout forest.now margin width) }
    {
        let seen = vec![in alloc; unseen(); forest.len() as usize]?;
        Ok(Scout {
            margin,
            width,
            seen,
            out: 0,
        })
    }

    /// Whether it was made beside a watch over as many entries.
    pub fn is_beside(&self, forest: &Forest) -> bool
        ensures { result ≡ (length self.now.seen == length forest.now.entries) }
    {
        self.seen.len() == forest.len() as usize
    }

    /// How many lookups are out.
    pub fn out(&self) -> u32
        ensures { result ≡ self.now.out }
    {
        self.out
    }

    /// What was looked up of an entry.
    pub fn seen(&self, entry: u32) -> Seen
        requires { entry < length self.now.seen }
        ensures { result ≡ seen_at self.now entry }
    {
        self.seen[entry as usize]
    }

    /// Sets what was looked up of an entry.
    pub(crate) fn set_seen(&mut self, entry: u32, seen: Seen)
        requires { entry < length self.old.seen }
        ensures { self.new ≡ with_seen self.old entry seen }
    {
        self.seen[entry as usize] = seen;
    }
}
