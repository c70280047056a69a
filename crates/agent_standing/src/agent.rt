//! What an agent holds between two events.
ghost use Rattle.std.specs.Prelude.{◌≡◌, ◌<◌, IfErr, IfOk, length, replicate};
ghost use Rattle.agent_standing.specs.Agent.{IsAgent, IsStanding, fresh, standing_at};
ghost use Rattle.agent_standing.specs.Standings.{fresh_standing};
ghost use Rattle.watch_machine.specs.Outlook.{IsNextTime};
ghost use Rattle.watch_machine.specs.declared.fault.WatchFault.TheVariants.{OutOfMemory};

use crate::standing::EntryStanding;
use std::alloc::{AllocError, Global};
use std::marker::Model;
use vault_inventory::Inventory;
use watch_machine::{Next, Watch, WatchFault};

/// What is served, the Watch over it, and what is said of it.
#[derive(Debug, Drop)]
pub struct Agent {
    pub(crate) watch: Watch,
    // the names and the credentials, and the needs as they were given last
    pub(crate) inventory: Inventory,
    pub(crate) standings: Vec<EntryStanding>,
    pub(crate) beginnings: u64,
}

impl Model for Agent {
    ghost use Rattle.agent_standing.specs.Agent.{Agent, IsAgent};

    ghost Value = { Agent };

    ghost view = { λ a. record { machine = a.watch; inventory = a.inventory; standings = a.standings.items; beginnings = a.beginnings } };

    ghost invariant = { λ a. IsAgent (record { machine = a.watch; inventory = a.inventory; standings = a.standings.items; beginnings = a.beginnings }) };
}

/// The standings of so many entries of which nothing was told yet. The only error is out of memory.
fn fresh_standings(alloc: Global, count: u32) -> Result<Vec<EntryStanding>, AllocError>
    ensures { IfOk result (λ standings. standings.items ≡ replicate count fresh_standing) }
{
    let mut standings = Vec::new(alloc);
    for _ in 0..count {
        standings.push(EntryStanding::fresh())?;
    }
    Ok(standings)
}

impl Agent {
    /// An agent that serves an inventory from now on, of which at most `width` requests are out at once, 1 to
    /// [`WIDTH_MAX`](watch_machine::WIDTH_MAX). The only error is out of memory.
    #[tactic(auto, using(crate::proofs::Fresh::fresh_is_agent))]
    pub fn new(alloc: Global, inventory: Inventory, width: u32) -> Result<Agent, WatchFault>
        ensures fresh { IfOk result (λ agent. agent ≡ fresh inventory width) }
        ensures refused { IfErr result (λ fault. fault ≡ OutOfMemory) }
    {
        let forest = inventory.forest().copy()?;
        let standings = fresh_standings(alloc, forest.len())?;
        let watch = Watch::new(alloc, forest, width)?;
        Ok(Agent {
            watch,
            inventory,
            standings,
            beginnings: 0,
        })
    }

    /// What is served, with the needs as they were given last.
    pub fn inventory(&self) -> &Inventory
        ensures value { result.now ≡ self.now.inventory }
        ensures sound { IsAgent self.now }
    {
        &self.inventory
    }

    /// The Watch over it, for whoever asks when an entry ends, is tried next or is at its top.
    pub fn watch(&self) -> &Watch
        ensures value { result.now ≡ self.now.machine }
        ensures sound { IsAgent self.now }
    {
        &self.watch
    }

    /// What is said of the entry at an index.
    pub fn standing(&self, entry: u32) -> EntryStanding
        requires { entry < length self.now.inventory.forest.entries }
        ensures value { result ≡ standing_at self.now entry }
        ensures bounds { IsStanding result }
    {
        self.standings[entry as usize]
    }

    /// How often everything was looked up anew.
    pub fn beginnings(&self) -> u64
        ensures { result ≡ self.now.beginnings }
    {
        self.beginnings
    }

    /// The next time of the Watch, one that is ahead if there is one. The only error is want of memory.
    pub fn next(&mut self, alloc: Global) -> Result<Option<Next>, WatchFault>
        ensures next { IfOk result (λ next. IsNextTime self.old.machine next) }
        ensures refused { IfErr result (λ fault. fault ≡ OutOfMemory) }
        ensures unchanged { self.new ≡ self.old }
    {
        self.watch.next(alloc)
    }
}
