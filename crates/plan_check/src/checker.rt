ghost use Rattle.std.specs.Prelude.{◌≡◌, ℕ, IsOk, ◌↔◌, ◌<◌, ◌≤◌, IfOk, IsTrue, Ok, length};
ghost use Rattle.plan_forest.specs.Forest.{end_of};
ghost use Rattle.plan_rule.specs.Unkeepable.{Unkeepable};
ghost use Rattle.plan_rule.specs.Runs.{all_wakes, wake_count};
ghost use Rattle.plan_check.specs.declared.answer.Answer.TheVariants.{Yes};
ghost use Rattle.plan_rule.specs.declared.limit.TheConstants.{LIMIT};
ghost use Rattle.plan_check.specs.Answer.{IsCertificateAnswer, IsWalkAnswer};
ghost use Rattle.plan_check.specs.code.Steps.{AllFit};
ghost use Rattle.plan_check.specs.Fit.{CanBeJudged};
ghost use Rattle.plan_check.specs.Laws.{ClaimHolds};
ghost use Rattle.plan_certificate.specs.declared.cert.Body.TheVariants as body;

use crate::answer::{Answer, Cause, CheckFault};
use crate::kept::first_short;
use crate::rising_runs::RisingRuns;
use crate::walk::first_fault;
use base_moment::Moment;
use plan_certificate::{Body, Cert};
use plan_forest::Forest;
use plan_rule::{Run, reach};
use std::alloc::{AllocError, Global};

/// Whether what the certificate claims of the forest, from its own start on, holds; or the first test that it fails. The
/// only error is lack of memory.
///
/// Of runs it is the answer of a walk over the wake-ups that they mean: for each in turn, whether it is at or after the
/// start and after the one before it, and whether the named pair forces it; then, for each entry by rising index, whether
/// it is kept when each wake-up asks its Asks. Of a pair, whether it is unkeepable. Yes says that the moments are least
/// and latest, or that no plan keeps. Whatever the number of wake-ups, it costs a pass over the runs, and for each entry a
/// few searches whose steps grow with the logarithm of the runs; its memory grows with the runs and the entries.
///
/// The certificate's indices are those of entries, its runs have at least one wake-up each and at most [`LIMIT`] in all,
/// and no moment is after `base_moment::LAST`: all of this is so for a certificate that was read from a text.
///
/// Source: this project's own, over Vault, "Lease, renew, and revoke", and Vault, "Tokens".
///
/// [`LIMIT`]: crate::LIMIT
pub fn check(alloc: Global, forest: &Forest, cert: &Cert) -> Result<Answer, CheckFault>
    requires { CanBeJudged forest.now cert.now.body }
    ensures answer { IfOk result (IsCertificateAnswer forest.now cert.now) }
    ensures pair { (entry needed : ℕ) → cert.now.body ≡ body.Unkeepable entry needed → IsOk result }
    ensures yes { result ≡ Ok Yes → ClaimHolds forest.now cert.now.start cert.now.body }
{
    match &cert.body {
        Body::Runs(runs) => Ok(check_runs(alloc, forest, cert.start, runs.list())?),
        Body::Unkeepable { entry, needed } => {
            if is_unkeepable(forest, cert.start, *entry, *needed) {
                Ok(Answer::Yes)
            } else {
                Ok(Answer::No(Cause::NotUnkeepable))
            }
        }
    }
}

/// The answer to runs.
fn check_runs(
    alloc: Global,
    forest: &Forest,
    start: Moment,
    runs: &[Run],
) -> Result<Answer, AllocError>
    requires fit { AllFit (length forest.now.entries) runs.now }
    requires number { wake_count runs.now ≤ LIMIT }
    ensures { IfOk result (IsWalkAnswer forest.now start (all_wakes runs.now)) }
{
    let start = start.get();
    match first_fault(forest, start, runs) {
        Some(cause) => return Ok(Answer::No(cause)),
        None => {}
    }
    let rising = RisingRuns::over(alloc, start, runs)?;
    match first_short(alloc, forest, &rising)? {
        Some(index) => Ok(Answer::No(Cause::NotKept(index))),
        None => Ok(Answer::Yes),
    }
}

/// Whether `entry` is over `needed` and cannot be led to its need, which comes after the start.
fn is_unkeepable(forest: &Forest, start: Moment, entry: u32, needed: u32) -> bool
    requires entry { entry < length forest.now.entries }
    requires needed { needed < length forest.now.entries }
    ensures { IsTrue result ↔ Unkeepable forest.now.entries forest.now.margin start (end_of forest.now.entries) entry needed }
{
    let need = forest.get(needed).need;
    if !forest.is_over(entry, needed) || need <= start.get() {
        return false;
    }
    match reach(forest, entry, start) {
        Some(most) => most < need,
        None => false,
    }
}
