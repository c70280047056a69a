//! Why a run stops where the keeper refuses.
ghost use Rattle.std.specs.Prelude.{◌≡◌, Err, IfErr, IfOk, Ok};
ghost use Rattle.tick_runs.specs.code.Playing.{IsPlanFault, stop_of};

use plan_forest::Forest;
use program_report::Stop;
use tick_keeper::{Keeper, StepFault};

/// The stop of a plan that would be too long, or for which memory was wanting.
pub(crate) fn stop_of(fault: StepFault) -> Stop
    requires { IsPlanFault fault }
    ensures { result ≡ stop_of fault }
{
    match fault {
        StepFault::TooLong => Stop::TooLong,
        StepFault::OutOfMemory => Stop::Memory,
        _ => unreachable!(),
    }
}

/// The keeper that was opened; or what stops a run for which none could be: its plan is too long, or memory was refused.
pub(crate) fn opened(made: Result<Keeper, (StepFault, Forest)>) -> Result<Keeper, Stop>
    requires { IfErr made (λ refused. IsPlanFault refused.0) }
    ensures keeper { IfOk made (λ keeper. result ≡ Ok keeper) }
    ensures stop { IfErr made (λ refused. result ≡ Err (stop_of refused.0)) }
{
    match made {
        Ok(keeper) => Ok(keeper),
        Err((fault, _)) => Err(stop_of(fault)),
    }
}
