ghost use Rattle.std.specs.Prelude.{◌≡◌, IfOk, Some, length};
ghost use Rattle.std.specs.Result.{IfErr};
ghost use Rattle.plan_commands.specs.CheckText.{no_line, not_kept, numbered, unreadable_line};
ghost use Rattle.plan_commands.specs.code.CheckAnswers.{CauseIsNamed};
ghost use Rattle.program_report.specs.declared.stop.Stop.TheVariants.{Memory};

use base_moment::{Name, Text};
use plan_certificate::CertFault;
use plan_check::Cause;
use plan_forest::Forest;
use program_report::Stop;
use std::alloc::{AllocError, Global};

/// The line of a certificate that does not hold: the first test that it fails.
#[tactic(auto, unfolding(crate::specs::CheckText::no_line))]
pub(crate) fn no_line(alloc: Global, forest: &Forest, cause: Cause) -> Result<Text, AllocError>
    requires { CauseIsNamed (length forest.now.entries) cause }
    ensures { IfOk result (λ line. line ≡ no_line forest.now.entries cause) }
{
    match cause {
        Cause::NotRising(wake) => numbered(alloc, b"no not-rising ", wake),
        Cause::NotForced(wake) => numbered(alloc, b"no not-forced ", wake),
        Cause::NotKept(index) => not_kept(alloc, &forest.get(index).name),
        Cause::NotUnkeepable => Text::of(alloc, b"no not-unkeepable\n"),
    }
}

/// The line of a text that is no certificate: the fault of its first line at fault. Lack of memory has no line.
#[tactic(auto, unfolding(crate::specs::CheckText::unreadable_line))]
pub(crate) fn unreadable_line(alloc: Global, fault: CertFault) -> Result<Text, Stop>
    ensures line { IfOk result (λ line. unreadable_line fault ≡ Some line) }
    ensures memory { IfErr result (λ stop. stop ≡ Memory) }
{
    let line = match fault {
        CertFault::BadHeader => Text::of(alloc, b"unreadable bad-header\n")?,
        CertFault::BadLine(line) => numbered(alloc, b"unreadable bad-line ", line)?,
        CertFault::UnknownName(line) => numbered(alloc, b"unreadable unknown-name ", line)?,
        CertFault::BadNumber(line) => numbered(alloc, b"unreadable bad-number ", line)?,
        CertFault::Truncated => Text::of(alloc, b"unreadable truncated\n")?,
        CertFault::Trailing => Text::of(alloc, b"unreadable trailing\n")?,
        CertFault::OutOfMemory => return Err(Stop::Memory),
    };
    Ok(line)
}

/// These words, a number and a line feed.
#[tactic(auto, unfolding(crate::specs::CheckText::numbered))]
pub(crate) fn numbered(alloc: Global, words: &[u8], number: u64) -> Result<Text, AllocError>
    ensures { IfOk result (λ line. line ≡ numbered words.now number) }
{
    let number = number.to_string(alloc)?;
    let mut line = Vec::new(alloc);
    line.extend_from_slice(words)?;
    line.extend_from_slice(number.as_bytes())?;
    line.push(b'\n')?;
    Ok(Text::from_vec(line))
}

/// `no not-kept NAME` and a line feed.
#[tactic(auto, unfolding(crate::specs::CheckText::not_kept))]
fn not_kept(alloc: Global, name: &Name) -> Result<Text, AllocError>
    ensures { IfOk result (λ line. line ≡ not_kept name.now) }
{
    let mut line = Vec::new(alloc);
    line.extend_from_slice(b"no not-kept ")?;
    line.extend_from_slice(name.list())?;
    line.push(b'\n')?;
    Ok(Text::from_vec(line))
}
