ghost use Rattle.plan_check.specs.Fit.{CanBeJudged};
ghost use Rattle.std.specs.Prelude.{◌≡◌, ◌↔◌, IfOk, IsTrue};
ghost use Rattle.std.specs.Result.{IfErr};
ghost use Rattle.plan_commands.specs.code.CheckAnswers.{StartTexts, VerdictTexts};
ghost use Rattle.plan_commands.specs.CheckRun.{CheckTexts, StartsAsAsked, stated_start};
ghost use Rattle.plan_commands.specs.code.Making.{MakesOf, MakesOutcome};
ghost use Rattle.plan_commands.specs.Running.{NoHalts};
ghost use Rattle.program_report.specs.declared.stop.Stop.TheVariants.{Memory};
ghost use Rattle.vault_start.specs.Start.{inventory_at};

use crate::check_lines::{no_line, unreadable_line};
use crate::outcome::Outcome;
use base_moment::{Moment, Text};
use plan_certificate::{Cert, CertFault, read_start};
use plan_check::{Answer, CheckFault, check};
use plan_forest::Forest;
use program_report::{Exit, Stop};
use std::alloc::Global;
use vault_start::read_at;

/// The line about a certificate over an inventory's forest with its exit, or why there is none.
pub(crate) fn check_text(
    alloc: Global,
    inventory: &[u8],
    certificate: &[u8],
    asked: Option<Moment>,
) -> Result<Outcome, Stop>
    ensures { MakesOutcome (CheckTexts asked certificate.now) NoHalts (inventory_at (stated_start certificate.now) inventory.now) result }
{
    let start = stated_start(certificate)?;
    let inventory = read_at(alloc, inventory, start)?;
    judge_text(alloc, inventory.forest(), certificate, asked)
}

/// The start that a certificate's text states, 0 where it states none. The only error is out of memory.
#[tactic(auto, unfolding(crate::specs::CheckRun::stated_start))]
fn stated_start(certificate: &[u8]) -> Result<Moment, Stop>
    ensures start { IfOk result (λ start. start ≡ stated_start certificate.now) }
    ensures memory { IfErr result (λ stop. stop ≡ Memory) }
{
    match read_start(certificate) {
        Ok(start) => Ok(start),
        Err(CertFault::OutOfMemory) => Err(Stop::Memory),
        Err(_) => Ok(Moment::new(0).unwrap()),
    }
}

/// The line about a text over a forest, from its names and numbers alone.
#[tactic(auto, using(crate::proofs::Judgements::text_judged, crate::proofs::Judgements::text_unreadable, plan_check::proofs::Written::written_fits))]
fn judge_text(
    alloc: Global,
    forest: &Forest,
    certificate: &[u8],
    asked: Option<Moment>,
) -> Result<Outcome, Stop>
    ensures { MakesOf (CheckTexts asked certificate.now) NoHalts forest.now result }
{
    match plan_certificate::read(alloc, forest, certificate) {
        Ok(cert) => judge_from(alloc, forest, &cert, asked),
        Err(fault) => Ok(Outcome {
            exit: Exit::No,
            text: unreadable_line(alloc, fault)?,
        }),
    }
}

/// The line about a certificate that was read, whose start is looked at before anything that it claims.
#[tactic(auto, using(crate::proofs::Judgements::judged_from))]
fn judge_from(
    alloc: Global,
    forest: &Forest,
    cert: &Cert,
    asked: Option<Moment>,
) -> Result<Outcome, Stop>
    requires { CanBeJudged forest.now cert.now.body }
    ensures { MakesOf (StartTexts asked cert.now) NoHalts forest.now result }
{
    if starts_as_asked(asked, cert) {
        judge(alloc, forest, cert)
    } else {
        Ok(Outcome {
            exit: Exit::No,
            text: Text::of(alloc, b"no start\n")?,
        })
    }
}

/// Whether the certificate's start is the one that is asked for, if one is.
fn starts_as_asked(asked: Option<Moment>, cert: &Cert) -> bool
    ensures { IsTrue result ↔ StartsAsAsked asked cert.now }
{
    match asked {
        None => true,
        Some(start) => cert.start == start,
    }
}

/// The line about what a certificate claims from its start.
#[tactic(auto, using(crate::proofs::Judgements::cause_named))]
fn judge(alloc: Global, forest: &Forest, cert: &Cert) -> Result<Outcome, Stop>
    requires { CanBeJudged forest.now cert.now.body }
    ensures { MakesOf (VerdictTexts cert.now) NoHalts forest.now result }
{
    match check(alloc, forest, cert) {
        Err(CheckFault::OutOfMemory) => Err(Stop::Memory),
        Ok(Answer::Yes) => Ok(Outcome {
            exit: Exit::Done,
            text: Text::of(alloc, b"yes\n")?,
        }),
        Ok(Answer::No(cause)) => Ok(Outcome {
            exit: Exit::No,
            text: no_line(alloc, forest, cause)?,
        }),
    }
}
