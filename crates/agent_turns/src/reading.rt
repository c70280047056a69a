//! The time is handed in.
ghost use Rattle.std.specs.Prelude.{◌≡◌, ◌-◌, [], IfSome, is_ok};
ghost use Rattle.agent_turns.specs.Calls.{calls_of_readings, needs_of};
ghost use Rattle.agent_turns.specs.Neighbours.{Hear, WithCalls};
ghost use Rattle.agent_turns.specs.Outlook.{IsOutlook};
ghost use Rattle.agent_turns.specs.Stages.{ShortsAreSaid, TakesReadings};

use crate::neighbours::{Happened, Neighbours};
use crate::serving::Serving;
use agent_standing::Agent;
use base_clock::Reading;
use std::alloc::{AllocError, Global};
use std::collections::VecDeque;
use watch_machine::{Next, WatchCommand, WatchEvent, WatchOutput};

impl Serving {
    /// Hands in the readings of both clocks; what the Watch commands is then to be sent. The only error is out of memory: all is
    /// as it was.
    pub(crate) fn read<N: Neighbours>(
        &mut self,
        alloc: Global,
        reading: Reading,
        neighbours: &mut N,
    ) -> Result<(), AllocError>
        requires none { self.old.unsent ≡ [] }
        ensures reads { WithCalls N.does (TakesReadings reading self.old (is_ok result) self.new) (calls_of_readings reading self.old (is_ok result) self.new) neighbours.old neighbours.new }
        ensures given { N.given neighbours.new ≡ N.given neighbours.old }
    {
        let Reading { wall, elapsed } = reading;
        let Ok(output) = self.agent.turn(alloc, WatchEvent::Clock { wall, elapsed }) else {
            return Err(AllocError);
        };
        let WatchOutput { command, notes } = output;
        let WatchCommand::Go { requests, until } = command else {
            return Ok(());
        };
        let happened = Happened::Clocked {
            notes: &notes,
            requests: requests.list(),
            next: outlook(alloc, &mut self.agent),
        };
        neighbours.hear(alloc, &self.agent, &happened);
        self.until = self.here(until);
        self.asked = reading;
        self.unsent = VecDeque::from_vec(requests.into_vec());
        self.say_shorts(alloc, neighbours);
        Ok(())
    }

    /// A moment of the Watch, as the clock that is handed in shows it.
    fn here(&self, moment: u64) -> u64
        ensures { result ≡ moment - self.now.agent.machine.clocks.phase }
    {
        moment.saturating_sub(u64::from(self.agent.watch().clocks().phase))
    }

    /// Says what is short, unless memory is wanting for that.
    fn say_shorts<N: Neighbours>(&mut self, alloc: Global, neighbours: &mut N)
        ensures said { (said : ShortsAreSaid self.old.agent self.new.agent) × N.does (Hear self.new.agent (needs_of self.old.agent self.new.agent said)) neighbours.old neighbours.new }
        ensures rest { self.new ≡ record self.old { agent = self.new.agent } }
        ensures given { N.given neighbours.new ≡ N.given neighbours.old }
    {
        match self.agent.say_shorts(alloc) {
            Ok(shorts) => neighbours.hear(alloc, &self.agent, &Happened::Shorts(&shorts)),
            Err(_) => neighbours.hear(alloc, &self.agent, &Happened::Refused),
        }
    }
}

/// The next time of an entry, where nothing is out. Where memory is wanting for it, it is not told.
fn outlook(alloc: Global, agent: &mut Agent) -> Option<Option<Next>>
    ensures next { IfSome result (IsOutlook agent.old.machine) }
    ensures unchanged { agent.new ≡ agent.old }
{
    if !agent.watch().out().is_empty() {
        return None;
    }
    match agent.next(alloc) {
        Ok(next) => Some(next),
        Err(_) => None,
    }
}
