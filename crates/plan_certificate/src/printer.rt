ghost use Rattle.std.specs.Prelude.{◌≡◌};
ghost use Rattle.plan_certificate.specs.declared.printer.PrintFault.TheVariants.{OutOfMemory};
ghost use Rattle.plan_certificate.specs.Printing.{IsDecisionOver, PrintsClaim, claim};

use crate::writer::{text_of_pair, text_of_runs};
use base_moment::{Moment, Text};
use plan_forest::Forest;
use plan_search::Decision;
use std::alloc::{AllocError, Global};
use thiserror::Error;

/// Why a decision was not printed.
#[derive(Clone, Copy, Debug, PartialEq, Eq, Error)]
pub enum PrintFault {
    /// The decision is that each plan is too long, which no certificate says.
    #[error("no-certificate")]
    NoCertificate,
    /// Memory was refused.
    #[error("out-of-memory")]
    OutOfMemory,
}

impl From<AllocError> for PrintFault {
    ghost from_gives = { λ _ e. e ≡ OutOfMemory };

    fn from(_e: AllocError) -> PrintFault {
        PrintFault::OutOfMemory
    }
}

/// The text of the certificate of a decision for this forest from `start` on, in version 2: a line for each run of its
/// plan, or the pair that cannot be kept. A decision has the indices of the forest that it was made for.
///
/// # Errors
///
/// `NoCertificate` exactly where the decision is `TooLong`; `OutOfMemory` where a growth was refused.
#[tactic(auto, using(crate::proofs::Printing::few_planned))]
pub fn print(
    alloc: Global,
    forest: &Forest,
    start: Moment,
    decision: &Decision,
) -> Result<Text, PrintFault>
    requires { IsDecisionOver forest.now.entries decision.now }
    ensures { PrintsClaim forest.now.entries start (claim decision.now) result }
{
    match decision {
        Decision::Keep(plan) => Ok(text_of_runs(alloc, forest, start, plan.runs())?),
        Decision::Unkeepable { entry, needed } => Ok(text_of_pair(
            alloc, forest, start, *entry, *needed,
        )?),
        Decision::TooLong => Err(PrintFault::NoCertificate),
    }
}
