ghost use Rattle.std.specs.Prelude.{◌≡◌, ◌<◌, ◌++◌, ◌∷◌, [], None, Ok, Err, IfErr, IfOk, IfSome, IsErrOf, length};
ghost use Rattle.std.specs.Io.KnownBytes.{Consumes, IsAtEnd, Keeps};
ghost use Rattle.base_device.specs.Failures.{CountsRead};
ghost use Rattle.base_device.specs.Whole.{MakesAtMost};
ghost use Rattle.broker_table.specs.declared.moment_line.TheConstants.{MOST_LINE};
ghost use Rattle.broker_table.specs.declared.moment_line.LineFault.TheVariants as lines;
ghost use Rattle.broker_table.specs.MomentLine.{BreaksOff, CountsLine, HasNoLine, HasNoMoment, IsOneLine, PassesLine, ReadsNothing, TellsMoment, moment_line};

use base_device::{Failed, Source};
use base_moment::{LAST, Moment};
use base_words::number_up_to;
use std::alloc::{AllocError, AllocFailed, Global};
use thiserror::Error;

/// The most bytes of a line of moments, its line feed included.
pub const MOST_LINE: usize = 256;

/// Why no moment was read.
#[derive(Clone, Copy, Debug, PartialEq, Eq, Error)]
pub enum LineFault {
    /// A read failed, and the device has counted it.
    #[error("a read failed")]
    ReadFailed,
    /// The input has ended, or its next line is no moment.
    #[error("no moment")]
    NoMoment,
    /// Memory ran out.
    #[error("out of memory")]
    OutOfMemory,
}

impl From<Failed> for LineFault {
    ghost from_gives = { λ _ e. e ≡ lines.ReadFailed };

    fn from(_e: Failed) -> LineFault {
        LineFault::ReadFailed
    }
}

impl From<AllocError> for LineFault {
    ghost from_gives = { λ _ e. e ≡ lines.OutOfMemory };

    fn from(_e: AllocError) -> LineFault {
        LineFault::OutOfMemory
    }
}

impl<T: Drop> From<AllocFailed<T>> for LineFault {
    ghost from_gives = { λ _ e. e ≡ lines.OutOfMemory };

    fn from(_e: AllocFailed<T>) -> LineFault {
        LineFault::OutOfMemory
    }
}

/// At which moments the connections of a broker are served.
#[derive(Clone, Copy, Debug, PartialEq, Eq)]
pub enum Moments {
    /// All at this one.
    All(Moment),
    /// Each at that of one line of an input.
    Lines,
}

/// The moment at which the next connection is served. Where all have one, nothing is read. Else it is that of the next line:
/// whole seconds since 1970-01-01T00:00:00Z in decimal digits without zeros in front, at most 253402300799, and a line feed.
/// It is read byte by byte, by at most 256 reads, and no byte after it is taken.
///
/// `ReadFailed`: a read failed. `NoMoment`: the input has ended before a line feed, or the line has more than 256 bytes, or
/// spells no moment; what stands after it, or after its first 256 bytes, is left. `OutOfMemory`: a growth was refused. After
/// the first and the last of the three a front of the line is lost.
pub fn next_moment<S: Source>(
    alloc: Global,
    moments: Moments,
    lines: &mut S,
) -> Result<Moment, LineFault>
    ensures tells { TellsMoment moments result (S.seen lines.old) (S.seen lines.new) }
    ensures nothing { ReadsNothing moments lines.old lines.new }
    ensures reads { MakesAtMost MOST_LINE (S.seen lines.old).input (S.seen lines.new).input }
    ensures output { (S.seen lines.new).output ≡ (S.seen lines.old).output }
{
    match moments {
        Moments::All(moment) => Ok(moment),
        Moments::Lines => read_moment(alloc, lines),
    }
}

/// Reads one line and no byte after it, and gives the moment that it spells.
fn read_moment<S: Source>(alloc: Global, source: &mut S) -> Result<Moment, LineFault>
    ensures line { IfOk result (λ m. Consumes (S.seen source.old).input.remaining (S.seen source.new).input.remaining (moment_line m)) }
    ensures none { IsErrOf result lines.NoMoment → IfSome (S.seen source.old).input.remaining HasNoMoment }
    ensures passed { IsErrOf result lines.NoMoment → PassesLine (S.seen source.old).input.remaining (S.seen source.new).input.remaining }
    ensures failed { IsErrOf result lines.ReadFailed → BreaksOff (S.seen source.old).input.remaining (S.seen source.new).input.remaining }
    ensures memory { IsErrOf result lines.OutOfMemory → BreaksOff (S.seen source.old).input.remaining (S.seen source.new).input.remaining }
    ensures reads { MakesAtMost MOST_LINE (S.seen source.old).input (S.seen source.new).input }
    ensures output { (S.seen source.new).output ≡ (S.seen source.old).output }
    ensures count { CountsLine result (S.seen source.old).failed_calls (S.seen source.new).failed_calls }
{
    let Some(line) = read_line(alloc, source)? else {
        return Err(LineFault::NoMoment);
    };
    let Some(seconds) = number_up_to(&line, LAST) else {
        return Err(LineFault::NoMoment);
    };
    Moment::new(seconds).ok_or(LineFault::NoMoment)
}

/// Reads one line and no byte after it, and gives it without its line feed; `None` where the input ends before that, or the
/// line has more than 256 bytes.
fn read_line<S: Source>(alloc: Global, source: &mut S) -> Result<Option<Vec<u8>>, LineFault>
    ensures line { IfOk result (λ line. IfSome line (λ text. Consumes (S.seen source.old).input.remaining (S.seen source.new).input.remaining (text.items ++ 10 ∷ []))) }
    ensures one { IfOk result (λ line. IfSome line (λ text. IsOneLine text.items)) }
    ensures short { IfOk result (λ line. IfSome line (λ text. length text.items < MOST_LINE)) }
    ensures none { result ≡ Ok None → IfSome (S.seen source.old).input.remaining HasNoLine }
    ensures passed { result ≡ Ok None → PassesLine (S.seen source.old).input.remaining (S.seen source.new).input.remaining }
    ensures broken { IfErr result (λ _. BreaksOff (S.seen source.old).input.remaining (S.seen source.new).input.remaining) }
    ensures fault { IsErrOf result lines.NoMoment → ⊥ }
    ensures reads { MakesAtMost MOST_LINE (S.seen source.old).input (S.seen source.new).input }
    ensures output { (S.seen source.new).output ≡ (S.seen source.old).output }
    ensures count { CountsLine result (S.seen source.old).failed_calls (S.seen source.new).failed_calls }
{
    let mut line = Vec::new(alloc);
    for _ in 0..MOST_LINE {
        match next_byte(source)? {
            None => return Ok(None),
            Some(b'\n') => return Ok(Some(line)),
            Some(byte) => line.push(byte)?,
        }
    }
    Ok(None)
}

/// Reads one byte, `None` at the end of the input.
fn next_byte<S: Source>(source: &mut S) -> Result<Option<u8>, Failed>
    ensures some { IfOk result (λ byte. IfSome byte (λ b. Consumes (S.seen source.old).input.remaining (S.seen source.new).input.remaining (b ∷ []))) }
    ensures none { result ≡ Ok None → IsAtEnd (S.seen source.old).input.remaining × IsAtEnd (S.seen source.new).input.remaining × Consumes (S.seen source.old).input.remaining (S.seen source.new).input.remaining [] }
    ensures kept { IfErr result (λ _. Keeps (S.seen source.old).input.remaining (S.seen source.new).input.remaining) }
    ensures reads { MakesAtMost 1 (S.seen source.old).input (S.seen source.new).input }
    ensures output { (S.seen source.new).output ≡ (S.seen source.old).output }
    ensures count { CountsRead result (S.seen source.old).failed_calls (S.seen source.new).failed_calls }
{
    let mut byte = [0u8];
    if source.read_some(&mut byte)? == 0 {
        Ok(None)
    } else {
        Ok(Some(byte[0]))
    }
}
