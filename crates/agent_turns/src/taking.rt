//! Answers are handed in.
ghost use Rattle.std.specs.Prelude.{◌≡◌, ◌≢◌, ◌<◌, OnErr, OnOk, ℕ, List, None, Some, is_ok, length};
ghost use Rattle.vault_asking.specs.Handing.{out_of};
ghost use Rattle.vault_lanes.specs.Out as lanes;
ghost use Rattle.agent_turns.specs.Held.{IsInStep};
ghost use Rattle.agent_turns.specs.Calls.{calls_of_taking};
ghost use Rattle.agent_turns.specs.Neighbours.{WithCalls};
ghost use Rattle.agent_turns.specs.Stages.{TakesAnswers};
ghost use Rattle.agent_turns.specs.code.Firsts.{TakesFirst, calls_of_first};

use crate::neighbours::{Happened, Neighbours};
use crate::serving::Serving;
use std::alloc::{AllocError, Global};
use vault_asking::{HandedIn, event_of, out_of, said_to};
use watch_machine::Out;

impl Serving {
    /// Hands in the answers that wait, in their order. The only error is out of memory: those that are left wait on.
    pub(crate) fn take_all<N: Neighbours>(
        &mut self,
        alloc: Global,
        neighbours: &mut N,
    ) -> Result<(), AllocError>
        requires in_step { (width : ℕ) × ((out : List lanes.Out) × IsInStep width out self.old) }
        ensures takes { WithCalls N.does (TakesAnswers self.old (is_ok result) self.new) (calls_of_taking self.old (is_ok result) self.new) neighbours.old neighbours.new }
        ensures given { N.given neighbours.new ≡ N.given neighbours.old }
    {
        for _ in 0..self.pending.len() {
            self.take_first(alloc, neighbours)?;
        }
        Ok(())
    }

    /// Hands in the first of them.
    fn take_first<N: Neighbours>(
        &mut self,
        alloc: Global,
        neighbours: &mut N,
    ) -> Result<(), AllocError>
        requires some { 0 < length self.old.pending }
        requires in_step { (width : ℕ) × ((out : List lanes.Out) × IsInStep width out self.old) }
        ensures taken { OnOk result (WithCalls N.does (TakesFirst self.old self.new) (calls_of_first self.old self.new) neighbours.old neighbours.new) }
        ensures kept { OnErr result (self.new ≡ self.old) }
        ensures given { N.given neighbours.new ≡ N.given neighbours.old }
        ensures unheard { OnErr result (neighbours.new ≡ neighbours.old) }
    {
        let answered = &self.pending[0];
        let entry = answered.index;
        let watch = self.agent.watch();
        let request = request_of(watch.out(), entry);
        let inventory = self.agent.inventory();
        let operation = request.operation;
        let said = said_to(alloc, inventory, operation, entry, &answered.answer)?;
        let event = event_of(operation, entry, said);
        let Ok(output) = self.agent.turn(alloc, event) else {
            return Err(AllocError);
        };
        self.pending.pop_front();
        let happened = Happened::Answered(HandedIn {
            entry,
            operation,
            said,
            notes: &output.notes,
        });
        neighbours.hear(alloc, &self.agent, &happened);
        Ok(())
    }
}

/// The request of these that is out of an entry of which one is.
fn request_of(out: &[Out], entry: u32) -> Out
    requires { out_of out.now entry ≢ None }
    ensures { out_of out.now entry ≡ Some result }
{
    out_of(out, entry).unwrap()
}
