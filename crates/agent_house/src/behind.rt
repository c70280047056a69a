//! What an agent has done behind another: it is said and counted.
ghost use Rattle.std.specs.Prelude.{◌≡◌, option_map};
ghost use Rattle.agent_log.specs.LogDesk.{HearsAhead, HearsSteps};
ghost use Rattle.agent_log.specs.LinesBehind.{steps_in_count};
ghost use Rattle.agent_house.specs.Behind.{looked, stepped};
ghost use Rattle.agent_house.specs.Ends.{to_be_kept};

use crate::ends::spoil;
use crate::house::House;
use agent_pages::Standby;
use agent_standing::Agent;
use std::alloc::Global;
use watch_machine::{Millis, WatchRequest};

impl<S, T, D, K, E> House<S, T, D, K, E> {
    /// An end was looked up ahead, and handed in: the ends are kept anew.
    pub fn hear_ahead(&mut self, alloc: Global, agent: &Agent, entry: u32, end: u64)
        ensures said { HearsAhead agent.now entry end self.old.desk self.new.desk }
        ensures rest { self.new ≡ record self.old { desk = self.new.desk; standby = looked self.old.standby; ends = option_map to_be_kept self.old.ends } }
    {
        self.desk.hear_ahead(alloc, agent, entry, end);
        self.standby = looked(self.standby);
        spoil(&mut self.ends);
    }

    /// The agent asks this, and looks each entry up so many milliseconds before its time. What is counted are the entries of which it is said that
    /// it steps in.
    pub fn hear_steps(
        &mut self,
        alloc: Global,
        agent: &Agent,
        lead: Millis,
        requests: &[WatchRequest],
    )
        ensures said { HearsSteps agent.now lead requests.now self.old.desk self.new.desk }
        ensures rest { self.new ≡ record self.old { desk = self.new.desk; standby = stepped (steps_in_count agent.now.machine lead self.old.desk.marks requests.now) self.old.standby } }
    {
        self.standby = stepped(self.desk.count_steps(agent, lead, requests), self.standby);
        self.desk.hear_steps(alloc, agent, lead, requests);
    }
}

// One end more was looked up ahead.
fn looked(standby: Standby) -> Standby
    ensures { result ≡ looked standby }
{
    Standby {
        looked_ahead: standby.looked_ahead.saturating_add(1),
        ..standby
    }
}

// So many entries more were stepped in for.
fn stepped(count: usize, standby: Standby) -> Standby
    ensures { result ≡ stepped count standby }
{
    Standby {
        stepped_in: standby.stepped_in.saturating_add(count as u64),
        ..standby
    }
}
