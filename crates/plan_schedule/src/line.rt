ghost use Rattle.std.specs.Prelude.{◌≡◌, ◌<◌, ◌≤◌, [], ◌∷◌, length, IfOk};
ghost use Rattle.std.specs.List.Sorted.{IsPermutation};
ghost use Rattle.plan_schedule.specs.code.Line.{FirstOf, IsFirstInLine, Spot, spot};

use std::alloc::{AllocError, Global};
use std::cmp::Reverse;
use std::collections::BinaryHeap;
use std::marker::Model;

/// Entries in the order of a key in seconds, of equal keys by index. The first is at hand.
#[derive(Drop)]
pub(crate) struct Line {
    heap: BinaryHeap<Reverse<(u64, u32)>, Global>,
}

impl Model for Line {
    ghost use Rattle.std.specs.BinaryHeap.{IsHeap, heap_capacity, heap_items};
    ghost use Rattle.plan_schedule.specs.code.Line.{Lined, falling};

    ghost Value = { Lined };

    ghost view = { λ l. record { spots = heap_items l.heap; room = heap_capacity l.heap } };

    ghost invariant = { λ l. IsHeap falling (heap_items l.heap) };
}

impl Line {
    /// A line of none, with room for `count`.
    pub(crate) fn with_room(alloc: Global, count: usize) -> Result<Line, AllocError>
        ensures { IfOk result (λ line. line ≡ record { spots = []; room = count }) }
    {
        Ok(Line {
            heap: BinaryHeap::with_capacity(alloc, count)?,
        })
    }

    /// The index of the first.
    pub(crate) fn first(&self) -> Option<u32>
        ensures { FirstOf self.now.spots result }
    {
        match self.heap.peek() {
            None => None,
            Some(spot) => Some(spot.0.1),
        }
    }

    /// Takes the first out of the line.
    pub(crate) fn drop_first(&mut self)
        ensures spots { (x : Spot) → IsFirstInLine self.old.spots x → IsPermutation self.old.spots (x ∷ self.new.spots) }
        ensures room { self.new.room ≡ self.old.room }
    {
        self.heap.pop();
    }

    /// Puts an entry into the line. It takes no memory.
    pub(crate) fn add(&mut self, key: u64, index: u32)
        requires { length self.old.spots < self.old.room }
        ensures spots { IsPermutation (spot key index ∷ self.old.spots) self.new.spots }
        ensures room { self.old.room ≤ self.new.room }
    {
        self.heap.push(Reverse((key, index))).unwrap();
    }
}
