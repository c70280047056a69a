ghost use Rattle.std.specs.Prelude.{◌≡◌, ◌<◌, ◌++◌, ◌∷◌, [], All, IfOk, OnOk, decimal, length};
ghost use Rattle.std.specs.Result.{IfErr};
ghost use Rattle.plan_rule.specs.Runs.{IsAmong, wake_count};
ghost use Rattle.plan_certificate.specs.CertificateText.{end_line_text, name_of_entry, unkeepable_text};
ghost use Rattle.plan_certificate.specs.Printing.{IsDecisionOver};
ghost use Rattle.program_report.specs.declared.stop.Stop.TheVariants.{Memory};
ghost use Rattle.vault_start.specs.Start.{inventory_at};
ghost use Rattle.plan_commands.specs.code.Making.{DatesOf, MakesOf, MakesOutcome};
ghost use Rattle.plan_commands.specs.PlanRun.{PlanHalts};
ghost use Rattle.plan_commands.specs.PlanDates.{AreRunLines, AreRunsInDates, IsPairInDates, IsRunLine, PlanDatesTexts, run_line, start_line};

use crate::outcome::Outcome;
use crate::plan_text::decided_exit;
use crate::reach_text::moment_word;
use base_moment::{Moment, Text};
use base_words::push_number;
use plan_forest::Forest;
use plan_rule::Run;
use plan_search::{Decision, PlanFault, plan};
use program_report::Stop;
use std::alloc::{AllocError, Global};
use vault_start::read_at;

/// The whole text of the command `plan --dates` with its exit, or why there is none.
pub(crate) fn plan_dates_text(
    alloc: Global,
    inventory: &[u8],
    start: Moment,
) -> Result<Outcome, Stop>
    ensures { MakesOutcome (PlanDatesTexts start) (PlanHalts start) (inventory_at start inventory.now) result }
{
    let inventory = read_at(alloc, inventory, start)?;
    decision_in_dates(alloc, inventory.forest(), start)
}

/// The text of a forest's decision, from its names and numbers alone.
#[tactic(auto, using(plan_certificate::proofs::Printing::decided_is_of, crate::proofs::Dated::dated_text, crate::proofs::Dated::dated_stop))]
fn decision_in_dates(alloc: Global, forest: &Forest, start: Moment) -> Result<Outcome, Stop>
    ensures { MakesOf (PlanDatesTexts start) (PlanHalts start) forest.now result }
{
    let _entries = forest.len();
    let decision = match plan(alloc, forest, start) {
        Ok(decision) => decision,
        Err(PlanFault::OutOfMemory) => return Err(Stop::Memory),
    };
    match dates_of(alloc, forest, start, &decision) {
        Ok(text) => Ok(Outcome {
            exit: decided_exit(&decision),
            text,
        }),
        Err(stop) => Err(stop),
    }
}

/// The text of a decision, which has the indices of the forest. `TooLong`, where that is the decision; `Memory`.
#[tactic(auto, using(plan_certificate::proofs::Printing::counted_wakes))]
fn dates_of(
    alloc: Global,
    forest: &Forest,
    start: Moment,
    decision: &Decision,
) -> Result<Text, Stop>
    requires { IsDecisionOver forest.now.entries decision.now }
    ensures { DatesOf forest.now.entries start result decision.now }
{
    match decision {
        Decision::Keep(plan) => runs_in_dates(alloc, forest, start, plan.runs(), plan.len()),
        Decision::Unkeepable { entry, needed } => {
            pair_in_dates(alloc, forest, start, *entry, *needed)
        }
        Decision::TooLong => Err(Stop::TooLong),
    }
}

/// The start, a line for each run, and the number of their wake-ups. The only error is out of memory.
#[tactic(auto, using(crate::proofs::Dated::runs_are))]
fn runs_in_dates(
    alloc: Global,
    forest: &Forest,
    start: Moment,
    runs: &[Run],
    count: u64,
) -> Result<Text, Stop>
    requires among { All (IsAmong (length forest.now.entries)) runs.now }
    requires count { count ≡ wake_count runs.now }
    ensures text { IfOk result (λ text. AreRunsInDates forest.now.entries start runs.now text) }
    ensures memory { IfErr result (λ stop. stop ≡ Memory) }
{
    let date = moment_word(alloc, true, start.get())?;
    let lines = run_lines(alloc, forest, runs)?;
    Ok(spell_runs(alloc, date.list(), lines.list(), count)?)
}

/// The start, and the pair that cannot be kept. The only error is out of memory.
#[tactic(auto, using(crate::proofs::Dated::pair_is))]
fn pair_in_dates(
    alloc: Global,
    forest: &Forest,
    start: Moment,
    entry: u32,
    needed: u32,
) -> Result<Text, Stop>
    requires entry { entry < length forest.now.entries }
    requires needed { needed < length forest.now.entries }
    ensures text { IfOk result (λ text. IsPairInDates forest.now.entries start entry needed text) }
    ensures memory { IfErr result (λ stop. stop ≡ Memory) }
{
    let date = moment_word(alloc, true, start.get())?;
    Ok(spell_pair(alloc, forest, date.list(), entry, needed)?)
}

/// The line of each run. The only error is out of memory.
#[tactic(auto, using(crate::proofs::Dated::lines_all))]
fn run_lines(alloc: Global, forest: &Forest, runs: &[Run]) -> Result<Text, Stop>
    requires { All (IsAmong (length forest.now.entries)) runs.now }
    ensures lines { IfOk result (λ lines. AreRunLines forest.now.entries runs.now lines) }
    ensures memory { IfErr result (λ stop. stop ≡ Memory) }
{
    let mut lines = Vec::new(alloc);
    for run in runs {
        let line = run_line(alloc, forest, *run)?;
        lines.extend_from_slice(line.list())?;
    }
    Ok(Text::from_vec(lines))
}

/// `run DATE STEP COUNT ENTRY NEEDED` and a line feed. The only error is out of memory.
#[tactic(auto, using(crate::proofs::Dated::run_is))]
fn run_line(alloc: Global, forest: &Forest, run: Run) -> Result<Text, Stop>
    requires { IsAmong (length forest.now.entries) run }
    ensures line { IfOk result (λ line. IsRunLine forest.now.entries run line) }
    ensures memory { IfErr result (λ stop. stop ≡ Memory) }
{
    let date = moment_word(alloc, true, run.first)?;
    Ok(spell_run(alloc, forest, run, date.list())?)
}

#[tactic(auto, unfolding(crate::specs::PlanDates::start_line, plan_certificate::specs::CertificateText::line_text, plan_certificate::specs::CertificateText::end_line_text))]
fn spell_runs(alloc: Global, date: &[u8], lines: &[u8], count: u64) -> Result<Text, AllocError>
    ensures { IfOk result (λ text. text ≡ start_line date.now ++ (lines.now ++ end_line_text count)) }
{
    let mut text = Vec::new(alloc);
    push_start(date, &mut text)?;
    text.extend_from_slice(lines)?;
    text.extend_from_slice(b"end ")?;
    push_number(alloc, count, &mut text)?;
    text.push(b'\n')?;
    Ok(Text::from_vec(text))
}

#[tactic(auto, unfolding(plan_certificate::specs::CertificateText::line_text, plan_certificate::specs::CertificateText::unkeepable_text))]
fn spell_pair(
    alloc: Global,
    forest: &Forest,
    date: &[u8],
    entry: u32,
    needed: u32,
) -> Result<Text, AllocError>
    requires entry { entry < length forest.now.entries }
    requires needed { needed < length forest.now.entries }
    ensures { IfOk result (λ text. text ≡ start_line date.now ++ unkeepable_text forest.now.entries entry needed) }
{
    let mut text = Vec::new(alloc);
    push_start(date, &mut text)?;
    text.extend_from_slice(b"unkeepable ")?;
    push_pair(forest, entry, needed, &mut text)?;
    Ok(Text::from_vec(text))
}

#[tactic(auto, unfolding(crate::specs::PlanDates::run_line, plan_certificate::specs::CertificateText::line_text, plan_certificate::specs::CertificateText::name_of_entry))]
fn spell_run(alloc: Global, forest: &Forest, run: Run, date: &[u8]) -> Result<Text, AllocError>
    requires { IsAmong (length forest.now.entries) run }
    ensures { IfOk result (λ line. line ≡ run_line forest.now.entries run date.now) }
{
    let mut line = Vec::new(alloc);
    line.extend_from_slice(b"run ")?;
    line.extend_from_slice(date)?;
    line.push(b' ')?;
    push_spaced(alloc, run.step, &mut line)?;
    push_spaced(alloc, run.count, &mut line)?;
    push_pair(forest, run.entry, run.needed, &mut line)?;
    Ok(Text::from_vec(line))
}

/// Appends `start DATE` and a line feed.
#[tactic(auto, unfolding(crate::specs::PlanDates::start_line, plan_certificate::specs::CertificateText::line_text))]
fn push_start(date: &[u8], text: &mut Vec<u8>) -> Result<(), AllocError>
    ensures { OnOk result (text.new.items ≡ text.old.items ++ start_line date.now) }
{
    text.extend_from_slice(b"start ")?;
    text.extend_from_slice(date)?;
    text.push(b'\n')?;
    Ok(())
}

/// Appends a number and a space.
fn push_spaced(alloc: Global, number: u64, text: &mut Vec<u8>) -> Result<(), AllocError>
    ensures { OnOk result (text.new.items ≡ text.old.items ++ (decimal number ++ 32 ∷ [])) }
{
    push_number(alloc, number, text)?;
    text.push(b' ')?;
    Ok(())
}

/// Appends two names, the last words of a line, and its line feed.
#[tactic(auto, unfolding(plan_certificate::specs::CertificateText::name_of_entry))]
fn push_pair(forest: &Forest, entry: u32, needed: u32, text: &mut Vec<u8>) -> Result<(), AllocError>
    requires entry { entry < length forest.now.entries }
    requires needed { needed < length forest.now.entries }
    ensures { OnOk result (text.new.items ≡ text.old.items ++ (name_of_entry forest.now.entries entry ++ (32 ∷ (name_of_entry forest.now.entries needed ++ 10 ∷ [])))) }
{
    text.extend_from_slice(forest.get(entry).name.list())?;
    text.push(b' ')?;
    text.extend_from_slice(forest.get(needed).name.list())?;
    text.push(b'\n')?;
    Ok(())
}
