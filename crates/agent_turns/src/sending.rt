//! Requests go out.
ghost use Rattle.std.specs.Prelude.{◌≡◌, ◌+◌, ◌<◌, ◌≤◌, ◌∷◌, OnErr, OnOk, Some, is_ok, length};
ghost use Rattle.agent_turns.specs.Held.{IsInStep, serving_side};
ghost use Rattle.agent_turns.specs.Stages.{IsKeptBack, SendsRequests};
ghost use Rattle.agent_turns.specs.code.Firsts.{GoesFirst};
ghost use Rattle.watch_machine.specs.Clocks.{second_of_wall};

use crate::serving::Serving;
use base_moment::{LAST, Moment};
use std::alloc::{AllocError, Global};
use vault_asking::{SeenLanes, ask_for};
use vault_lanes::Lanes;
use watch_machine::WatchRequest;

impl Serving {
    /// Sends the requests that were not sent, in their order. The only error is out of memory: those that are left are kept.
    pub(crate) fn send_all<L: Lanes>(
        &mut self,
        alloc: Global,
        lanes: &mut L,
    ) -> Result<(), AllocError>
        requires in_step { IsInStep (L.width lanes.old) (L.out lanes.old) self.old }
        ensures sends { SendsRequests (L.host_port lanes.old) (serving_side self.old (⟦<L as SeenLanes>⟧.seen lanes.old)) (is_ok result) (serving_side self.new (⟦<L as SeenLanes>⟧.seen lanes.new)) }
        ensures width { L.width lanes.new ≡ L.width lanes.old }
        ensures port { L.host_port lanes.new ≡ L.host_port lanes.old }
    {
        for _ in 0..self.unsent.len() {
            self.send_first(alloc, lanes)?;
        }
        Ok(())
    }

    /// Sends the first of them.
    fn send_first<L: Lanes>(&mut self, alloc: Global, lanes: &mut L) -> Result<(), AllocError>
        requires some { 0 < length self.old.unsent }
        requires in_step { IsInStep (L.width lanes.old) (L.out lanes.old) self.old }
        ensures sent { OnOk result (GoesFirst (L.host_port lanes.old) (serving_side self.old (⟦<L as SeenLanes>⟧.seen lanes.old)) (serving_side self.new (⟦<L as SeenLanes>⟧.seen lanes.new))) }
        ensures kept { OnErr result (IsKeptBack (L.host_port lanes.old) (serving_side self.old (⟦<L as SeenLanes>⟧.seen lanes.old)) (serving_side self.new (⟦<L as SeenLanes>⟧.seen lanes.new))) }
        ensures width { L.width lanes.new ≡ L.width lanes.old }
        ensures port { L.host_port lanes.new ≡ L.host_port lanes.old }
    {
        let request = self.unsent[0];
        let t = moment_of(self.asked.wall);
        let watch = self.agent.watch();
        let inventory = self.agent.inventory();
        let ask = ask_for(alloc, lanes.port(), inventory, watch, request)?;
        lanes.send(alloc, t, self.asked.elapsed, &ask)?;
        self.unsent.pop_front();
        Ok(())
    }
}

/// The moment that a wall clock shows at so many milliseconds; after the last one, that.
pub fn moment_of(wall: u64) -> Moment
    ensures { result ≡ second_of_wall wall }
{
    Moment::new((wall / 1000).min(LAST)).unwrap()
}
