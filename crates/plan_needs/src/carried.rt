ghost use Rattle.std.specs.Prelude.{◌≡◌, ℕ, ◌<◌, length, IfOk};
ghost use Rattle.plan_forest.specs.Push.{IsForest};
ghost use Rattle.plan_needs.specs.Carried.{IsCarried, load_at};
ghost use Rattle.plan_needs.specs.code.Loads.{AllOwn, IsHandedUp, need_after};

use crate::fault::NeedsFault;
use crate::load::{Load, heavier};
use base_moment::Moment;
use plan_forest::{Entry, Forest};
use std::alloc::{AllocError, Global};
use std::marker::Model;

/// What each entry of a forest carries from a start on.
#[derive(Debug, Drop)]
pub struct Carried {
    loads: Vec<Load>,
}

impl Model for Carried {
    ghost use Rattle.std.specs.Prelude.{List, map};
    ghost use Rattle.plan_needs.specs.Carried.{CarriedNeed};
    ghost use Rattle.plan_needs.specs.code.Loads.{seen_load};

    ghost Value = { List CarriedNeed };

    ghost view = { λ c. map seen_load c.loads.items };
}

impl Carried {
    /// The carried need of the entry at `index`, in seconds since 1970-01-01T00:00:00Z: the greatest need after the start of
    /// an entry that it is over, 0 where there is none.
    pub fn need(&self, index: u32) -> u64
        requires { index < length self.now }
        ensures { result ≡ (load_at self.now index).need }
    {
        self.loads[index as usize].need
    }

    /// The entry that has this need, of several the lowest index; `None` where there is none.
    pub fn from(&self, index: u32) -> Option<u32>
        requires { index < length self.now }
        ensures { result ≡ (load_at self.now index).from }
    {
        let load = self.loads[index as usize];
        if load.need == 0 {
            None
        } else {
            Some(load.from)
        }
    }
}

/// What each entry of the forest carries from `start` on. The work is in proportion to the number of entries, however deep
/// they stand. The only error is out of memory.
///
/// Source: Vault, "Tokens" (a token's end ends its children and its leases); needs are this project's own.
pub fn carry(alloc: Global, forest: &Forest, start: Moment) -> Result<Carried, NeedsFault>
    ensures { IfOk result (λ carried. IsCarried forest.now start carried) }
{
    let mut loads = own_loads(alloc, forest, start)?;
    hand_up(forest, &mut loads);
    Ok(Carried { loads })
}

/// Of each entry its own need, where it comes after the start.
fn own_loads(alloc: Global, forest: &Forest, start: Moment) -> Result<Vec<Load>, AllocError>
    ensures { IfOk result (λ loads. AllOwn forest.now.entries start loads.items) }
{
    let mut loads = Vec::new(alloc);
    for from in 0..forest.len() {
        let need = need_after(start, forest.get(from));
        loads.push(Load { need, from })?;
    }
    Ok(loads)
}

/// The entry's need where it comes after `start`, else 0.
#[tactic(auto, unfolding(crate::specs::code::Loads::need_after))]
fn need_after(start: Moment, entry: &Entry) -> u64
    ensures { result ≡ need_after start entry.now }
{
    if start.get() < entry.need {
        entry.need
    } else {
        0
    }
}

/// Hands the load of each entry to its parent where it is heavier than that of the parent. By falling index, an entry has
/// been handed those of all its children when its turn comes.
fn hand_up(forest: &Forest, loads: &mut [Load])
    requires { length loads.old ≡ length forest.now.entries }
    ensures handed { (s : ℕ) → AllOwn forest.now.entries s loads.old → IsHandedUp forest.now.entries s 0 loads.new }
    ensures sound { IsForest forest.now }
{
    for index in (0..forest.len()).rev() {
        if let Some(parent) = forest.get(index).parent {
            let parent = parent as usize;
            loads[parent] = heavier(loads[parent], loads[index as usize]);
        }
    }
}
