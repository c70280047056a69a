ghost use Rattle.std.specs.Prelude.{◌≡◌, IfOk, OnErr};
ghost use Rattle.tick_keeper.specs.History.{CoreHistory};

use crate::event::{Event, Output};
use crate::fault::StepFault;
use crate::keeper::Keeper;
use std::alloc::AllocError;

impl Keeper {
    /// Takes these events one after another, each by [`step`](Keeper::step), and gives what each of them gives: its output,
    /// or why it is refused. A refused event leaves the keeper as it was, and the next one is taken. The only error is want
    /// of memory for the list, which comes before the first event is taken and leaves the keeper as it was.
    pub fn steps(&mut self, events: &[Event]) -> Result<Vec<Result<Output, StepFault>>, AllocError>
        ensures ran { IfOk result (λ results. CoreHistory self.old events.now results.items self.new) }
        ensures unchanged { OnErr result (self.new ≡ self.old) }
    {
        // room for all results is taken first, so that none of them is lost
        let mut results = Vec::with_capacity(*self.shortened.allocator(), events.len())?;
        for event in events {
            results.push_reserved(self.step(*event));
        }
        Ok(results)
    }
}
