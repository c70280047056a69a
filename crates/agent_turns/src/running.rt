//! From a start on, turn after turn.
ghost use Rattle.std.specs.Prelude.{◌≡◌, [], ℕ, List, IfOk, length};
ghost use Rattle.agent_standing.specs.Agent.{fresh};
ghost use Rattle.base_clock.specs.Seen.{AllMade};
ghost use Rattle.agent_turns.specs.Changes.{AllGiven};
ghost use Rattle.agent_turns.specs.Held.{IsInStep, held_at_first, serving_side};
ghost use Rattle.agent_turns.specs.Calls.{calls_of};
ghost use Rattle.agent_turns.specs.Neighbours.{WithCalls};
ghost use Rattle.agent_turns.specs.Runs.{AreTurns, all_calls, all_changes};
ghost use Rattle.agent_turns.specs.Turns.{ServingTurn};

use crate::neighbours::Neighbours;
use crate::serving::Serving;
use agent_standing::Agent;
use base_clock::Clock;
use std::alloc::Global;
use vault_asking::SeenLanes;
use vault_inventory::Inventory;
use vault_lanes::Lanes;
use watch_machine::WatchFault;

impl Serving {
    /// What serves an inventory from now on over these lanes, of which none is taken. As many requests are out at once as there
    /// are lanes. The only error is out of memory.
    pub fn begin<L: Lanes>(
        alloc: Global,
        inventory: Inventory,
        lanes: &L,
    ) -> Result<Serving, WatchFault>
        requires free { L.out lanes.now ≡ [] }
        ensures begun { IfOk result (λ serving. serving ≡ held_at_first (fresh inventory (L.width lanes.now))) }
        ensures in_step { IfOk result (λ serving. IsInStep (L.width lanes.now) (L.out lanes.now) serving) }
    {
        let agent = Agent::new(alloc, inventory, lanes.free())?;
        Ok(Serving::new(alloc, agent))
    }

    /// Makes so many turns.
    ///
    /// It answers to no error: where memory is wanting, or a clock cannot be read, the turn does what it can and the next one
    /// goes on.
    pub fn run<C: Clock, L: Lanes, N: Neighbours>(
        &mut self,
        alloc: Global,
        clock: &mut C,
        lanes: &mut L,
        neighbours: &mut N,
        turns: u64,
    )
        requires in_step { IsInStep (L.width lanes.old) (L.out lanes.old) self.old }
        ensures turns { (ts : List ServingTurn) × ((length ts ≡ turns) × (WithCalls N.does (AreTurns (L.host_port lanes.old) (serving_side self.old (⟦<L as SeenLanes>⟧.seen lanes.old)) ts (serving_side self.new (⟦<L as SeenLanes>⟧.seen lanes.new))) (calls_of (L.host_port lanes.old) (serving_side self.old (⟦<L as SeenLanes>⟧.seen lanes.old)) ts (serving_side self.new (⟦<L as SeenLanes>⟧.seen lanes.new))) neighbours.old neighbours.new × (AllMade (all_calls ts) (C.seen clock.old) (C.seen clock.new) × AllGiven (all_changes ts) (N.given neighbours.old) (N.given neighbours.new)))) }
        ensures in_step { IsInStep (L.width lanes.new) (L.out lanes.new) self.new }
    {
        for _ in 0..turns {
            self.turn(alloc, clock, lanes, neighbours);
        }
    }
}
