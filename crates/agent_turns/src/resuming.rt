//! An agent that takes over in the boot in which ends were told.
ghost use Rattle.std.specs.Prelude.{◌≡◌, [], IfOk};
ghost use Rattle.agent_standing.specs.Agent.{Agent, fresh};
ghost use Rattle.agent_turns.specs.Held.{IsInStep, held_at_first};
ghost use Rattle.agent_turns.specs.Resuming.{AreResumed, IsResumed};

use crate::serving::Serving;
use std::alloc::Global;
use vault_inventory::Inventory;
use vault_lanes::Lanes;
use watch_machine::{WatchEvent, WatchFault};

impl Serving {
    /// What serves an inventory from now on, as [`Serving::begin`] gives it, where ends were told before in the same boot: each
    /// [`WatchEvent::Known`] of these is handed in before anything else, one after another. Any other event is left out. The only error
    /// is out of memory.
    pub fn resume<L: Lanes>(
        alloc: Global,
        inventory: Inventory,
        lanes: &L,
        known: &[WatchEvent],
    ) -> Result<Serving, WatchFault>
        requires free { L.out lanes.now ≡ [] }
        ensures resumed { IfOk result (λ serving. (agent : Agent) × ((serving ≡ held_at_first agent) × AreResumed known.now (fresh inventory (L.width lanes.now)) agent)) }
        ensures in_step { IfOk result (λ serving. IsInStep (L.width lanes.now) (L.out lanes.now) serving) }
    {
        let mut serving = Serving::begin(alloc, inventory, lanes)?;
        serving.hand_all_known(alloc, known);
        Ok(serving)
    }

    /// Hands the ends in that were told before, one after another. Any other event is left out.
    fn hand_all_known(&mut self, alloc: Global, known: &[WatchEvent])
        ensures resumed { AreResumed known.now self.old.agent self.new.agent }
        ensures rest { self.new ≡ record self.old { agent = self.new.agent } }
    {
        for event in known {
            self.hand_known(alloc, *event);
        }
    }

    /// Hands an end in that was told before. Any other event is left out.
    fn hand_known(&mut self, alloc: Global, event: WatchEvent)
        ensures resumed { IsResumed event self.old.agent self.new.agent }
        ensures rest { self.new ≡ record self.old { agent = self.new.agent } }
    {
        match event {
            WatchEvent::Known { .. } => self.take(alloc, event),
            WatchEvent::Clock { .. }
            | WatchEvent::Looked { .. }
            | WatchEvent::Renewed { .. }
            | WatchEvent::Need { .. }
            | WatchEvent::Begin => {}
        }
    }
}
