//! One event at a time.
ghost use Rattle.std.specs.Prelude.{◌≡◌, ◌<◌, Err, IfSome, IsOkUnless, None, OnErr, length};
ghost use Rattle.std.specs.List.{All};
ghost use Rattle.agent_standing.specs.Agent.{IsStanding};
ghost use Rattle.agent_standing.specs.Standings.{standings_after};
ghost use Rattle.agent_standing.specs.Turns.{AgentTurn, beginnings_after, inventory_after};
ghost use Rattle.agent_standing.specs.code.Within.{IsEventWithin};
ghost use Rattle.watch_machine.specs.Refusal.{refusal};
ghost use Rattle.watch_machine.specs.declared.fault.WatchFault.{WatchFault};

use crate::agent::Agent;
use crate::standing::{EntryStanding, more};
use base_moment::{LAST, Moment};
use std::alloc::Global;
use vault_inventory::Inventory;
use watch_machine::{BeginReason, Watch, WatchEvent, WatchFault, WatchOutput};

impl Agent {
    /// Takes one event: the Watch takes it, and what is said of its entry follows. Readings of clocks are milliseconds, durations
    /// whole seconds.
    ///
    /// The output is that of the Watch. A need is that of the inventory from then on.
    ///
    /// # Errors
    ///
    /// Those of the Watch: `BadIndex`, there is no such entry; `NotAsked`, an answer to no request that is out; `OutOfMemory`, which
    /// may come in the place of the answer to a clock, and to an answer. Each leaves the agent as it was.
    #[tactic(auto, using(crate::proofs::Within::taken_within))]
    pub fn turn(&mut self, alloc: Global, event: WatchEvent) -> Result<WatchOutput, WatchFault>
        ensures turn { AgentTurn self.old event result self.new }
        ensures refused { IfSome (refusal self.old.machine event) (λ fault. result ≡ Err fault) }
        ensures memory { refusal self.old.machine event ≡ None → IsOkUnless result WatchFault.OutOfMemory }
        ensures unchanged { OnErr result (self.new ≡ self.old) }
    {
        let output = self.watch.step(alloc, event)?;
        stand(&self.watch, &mut self.standings, event);
        set_need(&mut self.inventory, event);
        self.beginnings = beginnings_after(output.notes.began, self.beginnings);
        Ok(output)
    }
}

/// What is said of the entry of an event that the Watch has taken. Of an entry that is no more nothing is.
fn stand(watch: &Watch, standings: &mut [EntryStanding], event: WatchEvent)
    requires within { IsEventWithin (length standings.old) event }
    requires count { length standings.old ≡ length watch.now.forest.entries }
    requires bounds { All IsStanding standings.old }
    ensures value { standings.new ≡ standings_after watch.now event standings.old }
    ensures bounds { All IsStanding standings.new }
{
    match event {
        WatchEvent::Clock { .. } | WatchEvent::Need { .. } | WatchEvent::Begin => {}
        WatchEvent::Looked { entry, reply, .. } => {
            let index = entry as usize;
            if index < standings.len() {
                standings[index] = standings[index].looked(watch, entry, reply);
            }
        }
        WatchEvent::Renewed { entry, reply } => {
            let index = entry as usize;
            if index < standings.len() {
                standings[index] = standings[index].renewed(watch, entry, reply);
            }
        }
        WatchEvent::Known { entry, .. } => {
            let index = entry as usize;
            standings[index] = standings[index].known(watch, entry);
        }
    }
}

/// What is served after an event.
fn set_need(inventory: &mut Inventory, event: WatchEvent)
    requires { IsEventWithin (length inventory.old.forest.entries) event }
    ensures { inventory.new ≡ inventory_after event inventory.old }
{
    if let WatchEvent::Need { entry, until } = event {
        inventory.set_need(entry, Moment::new(LAST.min(until)).unwrap());
    }
}

/// How often everything was looked up anew.
fn beginnings_after(began: Option<BeginReason>, beginnings: u64) -> u64
    ensures { result ≡ beginnings_after began beginnings }
{
    match began {
        None => beginnings,
        Some(_) => more(beginnings),
    }
}
