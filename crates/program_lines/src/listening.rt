//! The lines of an input, one after another.
ghost use Rattle.std.specs.Prelude.{◌≡◌, ◌+◌, ◌∷◌, [], ◌<◌, ◌≤◌, IfOk, OnOk, drop, length, option_map};
ghost use Rattle.std.specs.Result.{IfErr};
ghost use Rattle.program_report.specs.declared.stop.Stop.TheVariants as stops;
ghost use Rattle.program_lines.specs.Hearing.{EndsBetweenLines, counted_line};
ghost use Rattle.program_lines.specs.Listening.{Listens};
ghost use Rattle.program_lines.specs.code.LineByLine.{HaltsWithin, HearsUpTo, left_after, part_left_to_hear};
ghost use Rattle.program_lines.specs.declared.limits.TheConstants.{MOST_LINE};

use crate::hearer::Hearer;
use crate::limits::{InputLimits, MOST_LINE, ROOM};
use base_device::{Sink, Source, Watched, zeros};
use base_words::cut;
use program_report::Stop;
use std::alloc::Global;

/// Hears the lines of an input until it ends. Each is answered, and its lines written and flushed, before `lines` is read again.
///
/// `Ok`: the input has ended, after a line feed if there are any bytes. `Line`: the line of that number is none, or is longer than
/// 256 bytes with its line feed, or has none; those before it were heard. `Read`: a read failed, or the input is longer, or takes
/// more reads, than `limits` allows; the whole lines before were heard. `Memory`. Any other error is the hearer's.
pub fn listen<N, H: Hearer<N>, R: Source, W: Sink>(
    alloc: Global,
    hearer: &mut H,
    neighbours: &mut N,
    limits: InputLimits,
    lines: &mut R,
    out: &mut W,
) -> Result<(), Stop>
    requires ready { H.is_ready hearer.old neighbours.old (W.seen out.old) }
    ensures listens { Listens H.State (H.hearing (H.key hearer.old neighbours.old)) limits (H.state hearer.old neighbours.old) result (H.state hearer.new neighbours.new) (⟦<R as Watched>⟧.change lines.old lines.new) (⟦<W as Watched>⟧.change out.old out.new) }
    ensures ready { EndsBetweenLines result → H.is_ready hearer.new neighbours.new (W.seen out.new) }
    ensures output { (R.seen lines.new).output ≡ (R.seen lines.old).output }
{
    let mut room = zeros(alloc, ROOM)?;
    let mut pending = Vec::new(alloc);
    let mut count: u64 = 0;
    let mut left = limits.bytes;
    for _ in 0..limits.reads {
        let Ok(n) = lines.read_some(&mut room) else {
            return Err(Stop::Read);
        };
        if n == 0 {
            return at_end(&pending, count);
        }
        let taken = part(left, n);
        pending.extend_from_slice(&room[..taken])?;
        hear_pending(alloc, hearer, neighbours, &mut pending, &mut count, out)?;
        if taken < n {
            return Err(Stop::Read);
        }
        left = left_after(left, taken);
    }
    Err(Stop::Read)
}

/// As many of so many bytes as may be heard where so many are left.
fn part(left: Option<usize>, n: usize) -> usize
    ensures { result ≡ part_left_to_hear left n }
{
    match left {
        None => n,
        Some(left) => n.min(left),
    }
}

/// How many bytes may be heard after so many more.
fn left_after(left: Option<usize>, taken: usize) -> Option<usize>
    ensures { result ≡ left_after left taken }
{
    match left {
        None => None,
        Some(left) => Some(left.saturating_sub(taken)),
    }
}

/// What the end of the input comes to after so many lines: a line without its line feed is none.
fn at_end(pending: &[u8], count: u64) -> Result<(), Stop>
    ensures none { OnOk result (pending.now ≡ []) }
    ensures some { IfErr result (λ stop. (stop ≡ stops.Line (counted_line (count + 1))) × (0 < length pending.now)) }
{
    if pending.is_empty() {
        Ok(())
    } else {
        Err(Stop::Line(count.saturating_add(1)))
    }
}

/// Hears the lines that are whole, counts them, and leaves what stands after the last. What is as long as a line and has no
/// line feed is none.
fn hear_pending<N, H: Hearer<N>, W: Sink>(
    alloc: Global,
    hearer: &mut H,
    neighbours: &mut N,
    pending: &mut Vec<u8>,
    count: &mut u64,
    out: &mut W,
) -> Result<(), Stop>
    requires ready { H.is_ready hearer.old neighbours.old (W.seen out.old) }
    requires numbered { counted_line count.old ≡ count.old }
    ensures heard { OnOk result (HearsUpTo H.State (H.hearing (H.key hearer.old neighbours.old)) count.old (H.state hearer.old neighbours.old) pending.old.items (pending.new.items ∷ []) (H.state hearer.new neighbours.new) count.new (⟦<W as Watched>⟧.change out.old out.new)) }
    ensures short { OnOk result (length pending.new.items < MOST_LINE) }
    ensures ready { EndsBetweenLines result → H.is_ready hearer.new neighbours.new (W.seen out.new) }
    ensures same { OnOk result (H.key hearer.new neighbours.new ≡ H.key hearer.old neighbours.old) }
    ensures halts { IfErr result (λ stop. HaltsWithin H.State (H.hearing (H.key hearer.old neighbours.old)) count.old (H.state hearer.old neighbours.old) pending.old.items stop (H.state hearer.new neighbours.new) (⟦<W as Watched>⟧.change out.old out.new)) }
{
    let heard = hear_whole(alloc, hearer, neighbours, pending, count, out)?;
    pending.drain(..heard);
    if pending.len() >= MOST_LINE {
        return Err(Stop::Line(count.saturating_add(1)));
    }
    Ok(())
}

/// Hears the lines of these bytes that are whole, counts them, and gives the length of them all.
#[tactic(auto, using(crate::proofs::LineByLine::behind_line))]
fn hear_whole<N, H: Hearer<N>, W: Sink>(
    alloc: Global,
    hearer: &mut H,
    neighbours: &mut N,
    bytes: &[u8],
    count: &mut u64,
    out: &mut W,
) -> Result<usize, Stop>
    requires ready { H.is_ready hearer.old neighbours.old (W.seen out.old) }
    requires numbered { counted_line count.old ≡ count.old }
    ensures heard { IfOk result (λ n. HearsUpTo H.State (H.hearing (H.key hearer.old neighbours.old)) count.old (H.state hearer.old neighbours.old) bytes.now (drop n bytes.now ∷ []) (H.state hearer.new neighbours.new) count.new (⟦<W as Watched>⟧.change out.old out.new)) }
    ensures within { IfOk result (λ n. n ≤ length bytes.now) }
    ensures ready { EndsBetweenLines result → H.is_ready hearer.new neighbours.new (W.seen out.new) }
    ensures same { IfOk result (λ _. H.key hearer.new neighbours.new ≡ H.key hearer.old neighbours.old) }
    ensures halts { IfErr result (λ stop. HaltsWithin H.State (H.hearing (H.key hearer.old neighbours.old)) count.old (H.state hearer.old neighbours.old) bytes.now stop (H.state hearer.new neighbours.new) (⟦<W as Watched>⟧.change out.old out.new)) }
{
    let mut rest = bytes;
    while let Some((line, behind)) = cut(rest, b'\n') {
        *count = count.saturating_add(1);
        hearer.hear(alloc, neighbours, line, *count, out)?;
        rest = behind;
    }
    Ok(bytes.len() - rest.len())
}
