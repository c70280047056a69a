ghost use Rattle.std.specs.Prelude.{◌≡◌, ◌≤◌, ◌+◌, ◌-◌, ◌*◌, IfOk};
ghost use Rattle.plan_certificate.specs.Answers.{GivesOrCertFault};
ghost use Rattle.plan_certificate.specs.Lines.{lines};
ghost use Rattle.plan_certificate.specs.declared.cert.TheConstants.{MAX_LINES};
ghost use Rattle.plan_certificate.specs.Reading.{entry_named, wake_of, run_of, is_run, run_keyword, run_in_line, nothing_behind, end_of_runs, ending};

use crate::cert::Version;
use crate::fault::CertFault;
use crate::lines::number_at;
use base_moment::LAST;
use base_words::{begins, four_words, six_words, two_words};
use plan_forest::Forest;
use plan_rule::{LIMIT, Run};

/// The entry that a word of the `n`th line names.
#[tactic(auto, unfolding(crate::specs::Reading::entry_named))]
pub(crate) fn entry_named(forest: &Forest, n: u64, word: &[u8]) -> Result<u32, CertFault>
    ensures { result ≡ entry_named n forest.now.entries word.now }
{
    forest.find(word).ok_or(CertFault::UnknownName(n))
}

/// The word with which the lines of wake-ups begin.
#[tactic(auto, unfolding(crate::specs::Reading::run_keyword))]
pub(crate) fn run_keyword(version: Version) -> &'static [u8]
    ensures { result.now ≡ run_keyword version }
{
    match version {
        Version::One => b"wake",
        Version::Two => b"run",
    }
}

/// What such a line says, after so many wake-ups.
#[tactic(auto, unfolding(crate::specs::Reading::run_in_line))]
pub(crate) fn run_line(
    forest: &Forest,
    version: Version,
    n: u64,
    before: u64,
    line: &[u8],
) -> Result<Run, CertFault>
    requires { before ≤ MAX_LINES * LIMIT }
    ensures value { GivesOrCertFault (λ run. run) result (run_in_line version n forest.now.entries before line.now) }
    ensures within { IfOk result (λ run. run.count ≤ LIMIT) }
{
    match version {
        Version::One => wake_of(forest, n, line),
        Version::Two => run_of(forest, n, before, line),
    }
}

/// The line `wake N ENTRY NEEDED`.
#[tactic(auto, unfolding(crate::specs::Reading::wake_of, crate::specs::Lines::four_words))]
fn wake_of(forest: &Forest, n: u64, line: &[u8]) -> Result<Run, CertFault>
    ensures value { GivesOrCertFault (λ run. run) result (wake_of n forest.now.entries line.now) }
    ensures within { IfOk result (λ run. run.count ≤ LIMIT) }
{
    let (_, moment, entry, needed) = four_words(line).ok_or(CertFault::BadLine(n))?;
    let first = number_at(n, moment)?;
    let entry = entry_named(forest, n, entry)?;
    let needed = entry_named(forest, n, needed)?;
    Ok(Run {
        first,
        step: 0,
        count: 1,
        entry,
        needed,
    })
}

/// The line `run FIRST STEP COUNT ENTRY NEEDED`, after so many wake-ups.
#[tactic(auto, unfolding(crate::specs::Reading::run_of, crate::specs::Lines::six_words))]
fn run_of(forest: &Forest, n: u64, before: u64, line: &[u8]) -> Result<Run, CertFault>
    requires { before ≤ MAX_LINES * LIMIT }
    ensures value { GivesOrCertFault (λ run. run) result (run_of n forest.now.entries before line.now) }
    ensures within { IfOk result (λ run. run.count ≤ LIMIT) }
{
    let (_, first, step, count, entry, needed) = six_words(line).ok_or(CertFault::BadLine(n))?;
    let first = number_at(n, first)?;
    let step = number_at(n, step)?;
    let count = number_at(n, count)?;
    if !is_run(before, first, step, count) {
        return Err(CertFault::BadNumber(n));
    }
    let entry = entry_named(forest, n, entry)?;
    let needed = entry_named(forest, n, needed)?;
    Ok(Run {
        first,
        step,
        count,
        entry,
        needed,
    })
}

/// Whether a run can have these numbers after so many wake-ups.
#[tactic(auto, unfolding(crate::specs::Reading::is_run))]
fn is_run(before: u64, first: u64, step: u64, count: u64) -> bool
    requires before { before ≤ MAX_LINES * LIMIT }
    requires first { first ≤ LAST }
    requires step { step ≤ LAST }
    requires count { count ≤ LAST }
    ensures { result ≡ is_run before first step count }
{
    before + count <= LIMIT
        && count > 0
        && (step == 0) == (count == 1)
        && first + (count - 1) * step <= LAST
}

/// The `n`th line is the last one, `end COUNT`, with this count.
#[tactic(auto, unfolding(crate::specs::Reading::ending))]
pub(crate) fn ending(n: u64, count: u64, line: &[u8], rest: &[u8]) -> Result<(), CertFault>
    ensures { GivesOrCertFault (λ u. u) result (ending n count line.now (lines rest.now)) }
{
    end_of_runs(n, count, line)?;
    nothing_behind(rest)
}

#[tactic(auto, unfolding(crate::specs::Reading::end_of_runs, crate::specs::Lines::two_words))]
fn end_of_runs(n: u64, count: u64, line: &[u8]) -> Result<(), CertFault>
    ensures { GivesOrCertFault (λ u. u) result (end_of_runs n count line.now) }
{
    if !begins(line, b"end") {
        return Err(CertFault::BadLine(n));
    }
    let (_, word) = two_words(line).ok_or(CertFault::BadLine(n))?;
    if number_at(n, word)? == count {
        Ok(())
    } else {
        Err(CertFault::BadNumber(n))
    }
}

/// Nothing stands after the last line.
pub(crate) fn nothing_behind(rest: &[u8]) -> Result<(), CertFault>
    ensures { result ≡ nothing_behind (lines rest.now) }
{
    if rest.is_empty() {
        Ok(())
    } else {
        Err(CertFault::Trailing)
    }
}
