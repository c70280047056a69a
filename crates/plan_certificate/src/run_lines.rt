ghost use Rattle.std.specs.Prelude.{[]};
ghost use Rattle.plan_certificate.specs.Answers.{GivesOrCertFault};
ghost use Rattle.plan_certificate.specs.Lines.{lines};
ghost use Rattle.plan_certificate.specs.Reading.{runs_of};

use crate::cert::{MAX_LINES, Version};
use crate::fault::CertFault;
use crate::lines::line_at;
use crate::run_line::{ending, run_keyword, run_line};
use base_words::begins;
use plan_forest::Forest;
use plan_rule::Run;
use std::alloc::Global;

/// The runs of the lines after `start`, the third line first.
pub(crate) fn runs_of(
    alloc: Global,
    forest: &Forest,
    version: Version,
    text: &[u8],
) -> Result<Vec<Run>, CertFault>
    ensures { GivesOrCertFault (λ runs. runs.items) result (runs_of version forest.now.entries [] (lines text.now)) }
{
    let mut runs = Vec::new(alloc);
    let mut total = 0;
    let mut rest = text;
    for read in 0..MAX_LINES {
        let (line, behind) = line_at(read + 3, rest)?;
        if !begins(line, run_keyword(version)) {
            ending(read + 3, total, line, behind)?;
            return Ok(runs);
        }
        let run = run_line(forest, version, read + 3, total, line)?;
        runs.push(run)?;
        total += run.count;
        rest = behind;
    }
    let (line, behind) = line_at(MAX_LINES + 3, rest)?;
    ending(MAX_LINES + 3, total, line, behind)?;
    Ok(runs)
}
