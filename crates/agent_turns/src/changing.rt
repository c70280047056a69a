//! A change is made.
ghost use Rattle.std.specs.Prelude.{◌≡◌, ◌≤◌, ◌==◌, ◌&&◌, [], OnErr, OnOk, Option, Result, length, map, vec_capacity};
ghost use Rattle.agent_standing.specs.Turns.{AgentTurn};
ghost use Rattle.agent_turns.specs.Changes.{AllGiven, ChangeIsMade, InventoryIsServed, MadeChange, OneIsMade, given_by, is_one_made};
ghost use Rattle.agent_turns.specs.Held.{serving_side};
ghost use Rattle.agent_turns.specs.Neighbours.{AllCalled, calls_for_change};
ghost use Rattle.agent_turns.specs.declared.change.AgentChange.TheVariants.{Serve};
ghost use Rattle.watch_machine.specs.declared.command.WatchOutput.{WatchOutput};
ghost use Rattle.watch_machine.specs.declared.fault.WatchFault.{WatchFault};

use crate::change::AgentChange;
use crate::neighbours::Neighbours;
use crate::serving::Serving;
use base_clock::Reading;
use std::alloc::Global;
use vault_asking::SeenLanes;
use vault_inventory::Inventory;
use vault_lanes::Lanes;
use watch_machine::{Out, WatchEvent, WatchFault};

impl Serving {
    /// Takes a change, where the neighbours have one, and makes it. Whether it was made.
    ///
    /// There is no second one in a turn: a change may cost its giver what the whole inventory costs, and answers wait meanwhile.
    pub(crate) fn make_change<L: Lanes, N: Neighbours>(
        &mut self,
        alloc: Global,
        now: Reading,
        lanes: &mut L,
        neighbours: &mut N,
    ) -> bool
        ensures made { (made : Option MadeChange) × (OneIsMade made (serving_side self.old (⟦<L as SeenLanes>⟧.seen lanes.old)) (serving_side self.new (⟦<L as SeenLanes>⟧.seen lanes.new)) × ((result ≡ is_one_made made) × (AllGiven (given_by made) (N.given neighbours.old) (N.given neighbours.new) × AllCalled N.does (calls_for_change self.old.agent now (λ change. self.new.agent) made) neighbours.old neighbours.new))) }
        ensures width { L.width lanes.new ≡ L.width lanes.old }
        ensures port { L.host_port lanes.new ≡ L.host_port lanes.old }
    {
        let Some(change) = neighbours.change(alloc, &self.agent, now) else {
            return false;
        };
        let is_made = self.make(alloc, lanes, change);
        neighbours.settle(alloc, &self.agent, is_made);
        is_made
    }

    /// Makes a change. Whether memory sufficed; where it did not all is as it was. None but another inventory wants memory.
    pub(crate) fn make<L: Lanes>(
        &mut self,
        alloc: Global,
        lanes: &mut L,
        change: AgentChange,
    ) -> bool
        ensures made { ChangeIsMade change result (serving_side self.old (⟦<L as SeenLanes>⟧.seen lanes.old)) (serving_side self.new (⟦<L as SeenLanes>⟧.seen lanes.new)) }
        ensures width { L.width lanes.new ≡ L.width lanes.old }
        ensures port { L.host_port lanes.new ≡ L.host_port lanes.old }
    {
        match change {
            AgentChange::Need { entry, until } => {
                self.take(alloc, WatchEvent::Need { entry, until });
                true
            }
            AgentChange::Begin => {
                self.take(alloc, WatchEvent::Begin);
                true
            }
            AgentChange::Known {
                entry,
                end,
                renewable,
            } => {
                self.take(
                    alloc,
                    WatchEvent::Known {
                        entry,
                        end,
                        renewable,
                    },
                );
                true
            }
            AgentChange::Serve(inventory) => self.serve(alloc, lanes, inventory),
            AgentChange::Kept => true,
        }
    }

    /// The agent takes an event of its own. One of no entry leaves it as it was.
    pub(crate) fn take(&mut self, alloc: Global, event: WatchEvent)
        ensures turned { (result : Result WatchOutput WatchFault) × AgentTurn self.old.agent event result self.new.agent }
        ensures rest { self.new ≡ record self.old { agent = self.new.agent } }
    {
        let _turned = self.agent.turn(alloc, event);
    }

    /// Serves this inventory from now on; where it is served already all stays as it is. Whether memory sufficed.
    #[tactic(auto, using(crate::proofs::Changed::served_already, crate::proofs::Changed::served_anew))]
    fn serve<L: Lanes>(&mut self, alloc: Global, lanes: &mut L, inventory: Inventory) -> bool
        ensures made { ChangeIsMade (Serve inventory) result (serving_side self.old (⟦<L as SeenLanes>⟧.seen lanes.old)) (serving_side self.new (⟦<L as SeenLanes>⟧.seen lanes.new)) }
        ensures width { L.width lanes.new ≡ L.width lanes.old }
        ensures port { L.host_port lanes.new ≡ L.host_port lanes.old }
    {
        if self.agent.serves(&inventory) {
            return true;
        }
        self.serve_another(alloc, lanes, inventory).is_ok()
    }

    /// Serves this inventory from now on. What is out stays out, on its lane.
    ///
    /// The only error is out of memory, also in a turn before, for want of which an answer waits to be handed in, or a request to be
    /// sent. All is as it was then.
    fn serve_another<L: Lanes>(
        &mut self,
        alloc: Global,
        lanes: &mut L,
        inventory: Inventory,
    ) -> Result<(), WatchFault>
        ensures served { OnOk result (InventoryIsServed inventory (serving_side self.old (⟦<L as SeenLanes>⟧.seen lanes.old)) (serving_side self.new (⟦<L as SeenLanes>⟧.seen lanes.new))) }
        ensures kept { OnErr result (serving_side self.new (⟦<L as SeenLanes>⟧.seen lanes.new) ≡ serving_side self.old (⟦<L as SeenLanes>⟧.seen lanes.old)) }
        ensures width { L.width lanes.new ≡ L.width lanes.old }
        ensures port { L.host_port lanes.new ≡ L.host_port lanes.old }
    {
        if !self.is_idle() {
            return Err(WatchFault::OutOfMemory);
        }
        // room for both lists is taken first, so that nothing fails behind the change
        let count = self.agent.watch().out().len();
        let from = Vec::with_capacity(alloc, count)?;
        let to = Vec::with_capacity(alloc, count)?;
        let from = entries_in(self.agent.watch().out(), from);
        self.agent.change(alloc, inventory)?;
        let to = entries_in(self.agent.watch().out(), to);
        lanes.rename(&from, &to);
        Ok(())
    }

    /// Whether no answer waits to be handed in, and no request to be sent.
    fn is_idle(&self) -> bool
        ensures { result ≡ (length self.now.pending == 0 && length self.now.unsent == 0) }
    {
        self.pending.is_empty() && self.unsent.is_empty()
    }
}

/// The entries of requests, in a list that has room for them.
fn entries_in(out: &[Out], room: Vec<u32>) -> Vec<u32>
    requires empty { room.items ≡ [] }
    requires room { length out.now ≤ vec_capacity room }
    ensures { result.items ≡ map (λ r. r.entry) out.now }
{
    let mut entries = room;
    for request in out {
        entries.push_reserved(request.entry);
    }
    entries
}
