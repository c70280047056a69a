//! Answers come off their lanes.
ghost use Rattle.std.specs.Prelude.{◌≡◌, [], is_ok};
ghost use Rattle.agent_turns.specs.Held.{serving_side};
ghost use Rattle.agent_turns.specs.Stages.{AnswersCome};

use crate::serving::Serving;
use std::alloc::{AllocError, Global};
use std::collections::VecDeque;
use vault_asking::SeenLanes;
use vault_lanes::Lanes;

impl Serving {
    /// Takes the answers that are there off their lanes, at a moment of the clock that never steps, in milliseconds. The only
    /// error is out of memory: all are out as before.
    pub(crate) fn come<L: Lanes>(
        &mut self,
        alloc: Global,
        lanes: &mut L,
        now: u64,
    ) -> Result<(), AllocError>
        requires none { self.old.pending ≡ [] }
        ensures comes { AnswersCome now (serving_side self.old (⟦<L as SeenLanes>⟧.seen lanes.old)) (is_ok result) (serving_side self.new (⟦<L as SeenLanes>⟧.seen lanes.new)) }
        ensures width { L.width lanes.new ≡ L.width lanes.old }
        ensures port { L.host_port lanes.new ≡ L.host_port lanes.old }
    {
        let answers = lanes.go_on(alloc, now)?;
        self.pending = VecDeque::from_vec(answers);
        Ok(())
    }
}
