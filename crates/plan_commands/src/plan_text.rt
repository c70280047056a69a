ghost use Rattle.std.specs.Prelude.{◌≡◌};
ghost use Rattle.plan_commands.specs.code.Making.{MakesOf, MakesOutcome, decided_exit};
ghost use Rattle.plan_commands.specs.PlanRun.{PlanHalts, PlanTexts};
ghost use Rattle.vault_start.specs.Start.{inventory_at};

use crate::outcome::Outcome;
use base_moment::Moment;
use plan_certificate::{PrintFault, print};
use plan_forest::Forest;
use plan_search::{Decision, PlanFault, plan};
use program_report::{Exit, Stop};
use std::alloc::Global;
use vault_start::read_at;

/// The certificate of an inventory's decision with its exit, or why there is none.
pub(crate) fn plan_text(alloc: Global, inventory: &[u8], start: Moment) -> Result<Outcome, Stop>
    ensures { MakesOutcome (PlanTexts start) (PlanHalts start) (inventory_at start inventory.now) result }
{
    let inventory = read_at(alloc, inventory, start)?;
    certificate(alloc, inventory.forest(), start)
}

/// The certificate of a forest's decision, from its names and numbers alone.
#[tactic(auto, using(plan_certificate::proofs::Printing::decided_is_of, crate::proofs::Delivered::decided_text, crate::proofs::Delivered::decided_long))]
fn certificate(alloc: Global, forest: &Forest, start: Moment) -> Result<Outcome, Stop>
    ensures { MakesOf (PlanTexts start) (PlanHalts start) forest.now result }
{
    let _entries = forest.len();
    let decision = match plan(alloc, forest, start) {
        Ok(decision) => decision,
        Err(PlanFault::OutOfMemory) => return Err(Stop::Memory),
    };
    match print(alloc, forest, start, &decision) {
        Ok(text) => Ok(Outcome {
            exit: decided_exit(&decision),
            text,
        }),
        Err(PrintFault::NoCertificate) => Err(Stop::TooLong),
        Err(PrintFault::OutOfMemory) => Err(Stop::Memory),
    }
}

/// The exit that goes with a decision.
pub(crate) fn decided_exit(decision: &Decision) -> Exit
    ensures { result ≡ decided_exit decision.now }
{
    match decision {
        Decision::Keep(_) => Exit::Done,
        Decision::Unkeepable { .. } => Exit::Unkeepable,
        Decision::TooLong => Exit::TooLong,
    }
}
