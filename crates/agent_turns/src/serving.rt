//! What the loop holds between two turns.
ghost use Rattle.std.specs.Prelude.{◌≡◌};
ghost use Rattle.agent_turns.specs.Held.{held_at_first};

use agent_standing::Agent;
use base_clock::Reading;
use std::alloc::Global;
use std::collections::VecDeque;
use std::marker::Model;
use vault_lanes::Answered;
use watch_machine::WatchRequest;

/// The agent, and what is under way between it and its lanes.
#[derive(Debug, Drop)]
pub struct Serving {
    pub(crate) agent: Agent,
    /// Answers that came and are not handed in yet. Between turns there are some only where memory was wanting.
    pub(crate) pending: VecDeque<Answered>,
    /// Requests that the Watch commands and that are not sent yet. Between turns there are some only where memory was wanting.
    pub(crate) unsent: VecDeque<WatchRequest>,
    /// The reading at which it commanded them.
    pub(crate) asked: Reading,
    /// The moment of the clock that never steps before which nothing is to be done but to take answers and changes, in
    /// milliseconds.
    pub(crate) until: u64,
}

impl Model for Serving {
    ghost use Rattle.agent_turns.specs.Held.{Held};

    ghost Value = { Held };

    ghost view = { λ s. record { agent = s.agent; pending = s.pending.items; unsent = s.unsent.items; asked = s.asked; until = s.until } };
}

impl Serving {
    /// An agent that has done nothing yet.
    pub fn new(alloc: Global, agent: Agent) -> Serving
        ensures { result ≡ held_at_first agent }
    {
        Serving {
            agent,
            pending: VecDeque::new(alloc),
            unsent: VecDeque::new(alloc),
            asked: Reading {
                wall: 0,
                elapsed: 0,
            },
            until: 0,
        }
    }

    /// The agent.
    pub fn agent(&self) -> &Agent
        ensures { result.now ≡ self.now.agent }
    {
        &self.agent
    }
}
