//! The neighbours of the loop besides its clock and its broker: clients, onlookers, the log, and the disk.
ghost use Rattle.std.specs.Prelude.{◌≡◌, List, Option, option_to_list};
ghost use Rattle.agent_turns.specs.Changes.{AllGiven};
ghost use Rattle.agent_turns.specs.Neighbours.{Give, GoOn, Hear, NeighbourCall, Rest, Settle, thing_of};
ghost use Rattle.agent_turns.specs.Outlook.{IsToldNext};
ghost use Rattle.agent_turns.specs.declared.change.AgentChange.{AgentChange};

use crate::change::AgentChange;
use agent_standing::{Agent, Short};
use base_clock::Reading;
use std::alloc::Global;
use vault_asking::HandedIn;
use watch_machine::{Millis, Next, Notes, WatchRequest};

/// What has happened, for the log.
#[derive(Debug, Drop)]
pub enum Happened<'a> {
    /// The time was handed in: what is noted of it, and the requests that go out at once; and where nothing is out then, the first
    /// time of the entries that are wanted and whose end is ahead, `Some(None)` where there is none. Where something is out, or
    /// memory is wanting for it, the next time is `None`.
    Clocked {
        notes: &'a Notes,
        requests: &'a [WatchRequest],
        next: Option<Option<Next>>,
    },
    /// Needs were found to be past what their entries reach.
    Shorts(&'a [Short]),
    /// The answer to a request was handed in: what it says, and what is noted of it.
    Answered(HandedIn<'a>),
    /// An end of an entry was handed in that was looked up before its time, for an agent that stands behind another: it is this, in seconds
    /// of the clock that never steps.
    Ahead {
        entry: u32,
        end: u64,
    },
    /// An agent that stands behind another asks this, renewals among it. It looks each entry up `lead` before its time: what it renews from
    /// that moment on, the one in front has left undone.
    StepsIn {
        lead: Millis,
        requests: &'a [WatchRequest],
    },
    /// Memory was refused for a look at which needs are past what their entries reach.
    Refused,
    /// Memory was wanting to send a request, or to take or hand in an answer, or to hand in the time. The next turn goes on with what
    /// is left over.
    Wanting,
}

/// The agent at a reading of the clocks.
#[derive(Clone, Copy, Debug)]
pub struct AgentAt<'a> {
    /// The agent.
    pub agent: &'a Agent,
    /// The reading.
    pub now: Reading,
}

/// Clients, onlookers, the log and the disk. None of their calls waits, but those of a disk: where a change is made, where ends are
/// kept, and where files of credentials are looked at.
///
/// To contracts they are the changes that they have given, and what a call may do to them.
pub trait Neighbours {
    /// The changes that were given so far, where that is known.
    ghost given: { Self → Option (List AgentChange) };

    /// What a call may do to them: what they are called for, what they were before it, and what they are after it.
    ghost does: { NeighbourCall → Self → Self → Type 0 };

    /// Hears what has happened to the agent, which is handed over as it is after it. The next time that it is told is that of
    /// the Watch.
    fn hear(&mut self, alloc: Global, agent: &Agent, happened: &Happened<'_>)
        requires next { IsToldNext agent.now.machine happened.now }
        ensures given { Self.given self.new ≡ Self.given self.old }
        ensures does { Self.does (Hear agent.now (thing_of happened.now)) self.old self.new };

    /// Goes on with clients and onlookers as far as it can without waiting. Whether more could be done at once.
    fn go_on(&mut self, alloc: Global, agent: &Agent, now: Reading) -> bool
        ensures given { Self.given self.new ≡ Self.given self.old }
        ensures does { Self.does (GoOn agent.now now result) self.old self.new };

    /// The next change that is to be made, if there is one.
    fn change(&mut self, alloc: Global, agent: &Agent, now: Reading) -> Option<AgentChange>
        ensures given { AllGiven (option_to_list result) (Self.given self.old) (Self.given self.new) }
        ensures does { Self.does (Give agent.now now result) self.old self.new };

    /// Whether the change that was given last was made. Where memory was wanting it was not, and is to be given again.
    fn settle(&mut self, alloc: Global, agent: &Agent, is_made: bool)
        ensures given { Self.given self.new ≡ Self.given self.old }
        ensures does { Self.does (Settle agent.now is_made) self.old self.new };

    /// For how long they may be left alone, where nothing tells of one of them before, in milliseconds; `None` where as long as may be. It
    /// is asked at `now`, the moment of the clock that never steps at which they were called.
    fn rest(&self, now: u64) -> Option<u64>
        ensures { Self.does (Rest now result) self.now self.now };
}
