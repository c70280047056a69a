//! The wait of a start, and the turns after it.
ghost use Rattle.std.specs.Prelude.{◌≡◌};
ghost use Rattle.agent_turns.specs.Held.{IsInStep, serving_side};
ghost use Rattle.agent_run.specs.Running.{RunsFrom, WaitsFirst};

use agent_turns::{Neighbours, Serving, Wait};
use base_clock::Clock;
use std::alloc::Global;
use vault_asking::SeenLanes;
use vault_lanes::Lanes;

/// Waits where there is a wait, and then makes one turn after another.
pub(crate) fn run_from<C: Clock, L: Lanes, N: Neighbours>(
    alloc: Global,
    wait: Option<Wait>,
    serving: Serving,
    clock: &mut C,
    lanes: &mut L,
    neighbours: &mut N,
)
    requires in_step { IsInStep (L.width lanes.old) (L.out lanes.old) serving }
    ensures { RunsFrom N.does N.given C.seen ⟦<L as SeenLanes>⟧.seen L.host_port wait serving lanes.old clock.old neighbours.old lanes.new clock.new neighbours.new }
{
    let mut serving = serving;
    wait_first(alloc, wait, &mut serving, clock, lanes, neighbours);
    serving.run(alloc, clock, lanes, neighbours, u64::MAX);
}

/// Waits before the first turn, where there is a wait.
#[tactic(auto, using(crate::proofs::Runs::waits_not, crate::proofs::Runs::waits_so))]
fn wait_first<C: Clock, L: Lanes, N: Neighbours>(
    alloc: Global,
    wait: Option<Wait>,
    serving: &mut Serving,
    clock: &mut C,
    lanes: &mut L,
    neighbours: &mut N,
)
    requires in_step { IsInStep (L.width lanes.old) (L.out lanes.old) serving.old }
    ensures waits { WaitsFirst N.does N.given wait (serving_side serving.old (⟦<L as SeenLanes>⟧.seen lanes.old)) (serving_side serving.new (⟦<L as SeenLanes>⟧.seen lanes.new)) (C.seen clock.old) (C.seen clock.new) neighbours.old neighbours.new }
    ensures in_step { IsInStep (L.width lanes.new) (L.out lanes.new) serving.new }
    ensures width { L.width lanes.new ≡ L.width lanes.old }
    ensures port { L.host_port lanes.new ≡ L.host_port lanes.old }
{
    if let Some(mut wait) = wait {
        serving.wait_apart(alloc, &mut wait, clock, lanes, neighbours);
    }
}
