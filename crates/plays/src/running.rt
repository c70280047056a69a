//! An agent beside its lanes to the broker, in step with them between two turns.
ghost use Rattle.std.specs.Prelude.{◌≡◌, []};

use crate::folder::MemoryFolder;
use crate::guests::PeerDoors;
use crate::starts::{MemoryDay, MemoryLedger, MemoryParts};
use agent_run::{Beginning, Begun, begin};
use agent_standing::Agent;
use agent_turns::{Neighbours, Serving};
use base_clock::{Clock, Reading};
pub use broker_lanes::MemoryLanes;
use play_cases::{CaseFault, put};
use std::alloc::{AllocError, Global};
use std::marker::Model;
use vault_lanes::{LaneFault, Lanes};

/// Lanes to the broker, and the agent that has them, once it is started.
#[derive(Drop)]
pub struct Running {
    serving: Option<Serving>,
    lanes: MemoryLanes,
}

impl Model for Running {
    ghost use Rattle.std.specs.Prelude.{IfSome, Option};
    ghost use Rattle.agent_turns.specs.Held.{Held, IsInStep};

    ghost Value = { Option Held };

    ghost view = { λ r. r.serving };

    ghost invariant = { λ r. IfSome r.serving (λ serving. IsInStep r.lanes.width r.lanes.out serving) };
}

impl Running {
    /// Lanes of which no agent has one.
    pub fn new(lanes: MemoryLanes) -> Running {
        Running {
            serving: None,
            lanes,
        }
    }

    /// An agent is started, of what it begins with; the one before it is gone, and nothing is out any more. Its neighbours are
    /// given back. The only error is out of memory.
    pub fn start<'a>(
        &mut self,
        alloc: Global,
        now: Reading,
        beginning: Beginning<'_, MemoryLedger<'a>, MemoryFolder<'a>>,
        parts: MemoryParts,
    ) -> Result<MemoryDay<'a>, CaseFault>
        requires free { parts.lane.out ≡ [] }
        requires one { parts.lane.width ≡ 1 }
    {
        put(&mut self.serving, None);
        self.lanes.forget();
        let mut doors = PeerDoors;
        let lanes = &self.lanes;
        match begin(alloc, now, beginning, parts, &mut doors, lanes) {
            Ok(
                Begun {
                    serving,
                    neighbours,
                    wait: _,
                },
            ) => {
                put(&mut self.serving, Some(serving));
                Ok(neighbours)
            }
            Err(_) => Err(CaseFault::Memory),
        }
    }

    /// Makes a turn.
    pub fn turn<C: Clock, N: Neighbours>(
        &mut self,
        alloc: Global,
        clock: &mut C,
        neighbours: &mut N,
    ) {
        if let Some(serving) = &mut self.serving {
            serving.run(alloc, clock, &mut self.lanes, neighbours, 1);
        }
    }

    /// This goes wrong with the request of that number, from 1.
    pub fn set_fault(&mut self, number: u64, fault: LaneFault) -> Result<(), AllocError> {
        self.lanes.set_fault(number, fault)
    }

    /// The agent.
    pub fn agent(&self) -> Option<&Agent> {
        match &self.serving {
            None => None,
            Some(serving) => Some(serving.agent()),
        }
    }

    /// The lanes.
    pub fn lanes(&self) -> &MemoryLanes {
        &self.lanes
    }
}
