//! Those who look up what files of credentials hold.
ghost use Rattle.std.specs.Prelude.{◌≡◌, IfOk, Result};
ghost use Rattle.std.specs.declared.alloc.AllocError.{AllocError};
ghost use Rattle.agent_run.specs.Run.{AreAskersFor, IsAskerFor, IsOwnLane};

use crate::begun::most_out;
use agent_ledger::Asker;
use program_commands::ServeWords;
use std::alloc::{AllocError, Global};
use vault_lanes::Lanes;
use vault_proving::Proving;

/// As many of them as requests may be out at once by the words, each over a lane of its own, which `lane` gives. The only error is lack
/// of memory.
pub fn askers_by<L: Lanes + Drop, F: Fn() -> Result<L, AllocError>>(
    alloc: Global,
    served: &ServeWords<'_>,
    lane: F,
) -> Result<Vec<Asker<L>>, AllocError>
    requires callable { F.IsAlwaysCallable lane }
    requires own { (made : Result L AllocError) → F.post lane made → IfOk made (IsOwnLane (L.out) (L.seconds) (L.width) served.now) }
    ensures { IfOk result (λ askers. AreAskersFor (L.out) (L.seconds) (L.width) served.now askers.items) }
{
    let mut askers = Vec::new(alloc);
    for _ in 0..most_out(served) {
        askers.push(asker_by(served, &lane)?)?;
    }
    Ok(askers)
}

/// One of them, over a lane that `lane` gives.
fn asker_by<L: Lanes + Drop, F: Fn() -> Result<L, AllocError>>(
    served: &ServeWords<'_>,
    lane: &F,
) -> Result<Asker<L>, AllocError>
    requires callable { F.IsAlwaysCallable lane.now }
    requires own { (made : Result L AllocError) → F.post lane.now made → IfOk made (IsOwnLane (L.out) (L.seconds) (L.width) served.now) }
    ensures { IfOk result (IsAskerFor (L.out) (L.seconds) (L.width) served.now) }
{
    let made = lane()?;
    Ok(asker_over(served, made))
}

/// One of them over this lane, which looks nothing up yet.
#[tactic(auto, using(crate::proofs::Asking::own_free, crate::proofs::Asking::own_wide, crate::proofs::Asking::is_asker))]
fn asker_over<L: Lanes>(served: &ServeWords<'_>, lane: L) -> Asker<L>
    requires { IsOwnLane (L.out) (L.seconds) (L.width) served.now lane }
    ensures { IsAskerFor (L.out) (L.seconds) (L.width) served.now result }
{
    Asker::new(Proving::new(lane))
}
