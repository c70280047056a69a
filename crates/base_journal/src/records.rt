ghost use Rattle.std.specs.Prelude.{◌≡◌, ◌≢◌, ◌+◌, ◌∷◌, [], ◌++◌, List, ℕ, length, IfOk, MatchOption, IsTrue, ◌↔◌};
ghost use Rattle.base_journal.specs.Records.{IsRecordLine, AreLines, block, at_rest, StandsFor, lines_kept, is_out, lines_taken_out};

use base_moment::Text;
use memchr::memchr;
use std::alloc::{AllocError, Global};

/// Before a record that counts.
pub(crate) const OPEN: u8 = b'+';

/// After the last record that counts.
pub(crate) const CLOSED: u8 = b'-';

const LINE_FEED: u8 = b'\n';

/// Whether no line feed stands in these bytes.
pub fn is_line(bytes: &[u8]) -> bool
    ensures { IsTrue result ↔ IsRecordLine bytes.now }
{
    memchr(LINE_FEED, bytes).is_none()
}

/// What is written after a closed gate: the line, its line feed, and the next closed gate.
pub(crate) fn tail_of(alloc: Global, line: &[u8]) -> Result<Vec<u8>, AllocError>
    ensures { IfOk result (λ tail. tail.items ≡ line.now ++ 10 ∷ 45 ∷ []) }
{
    let mut tail = Vec::from_slice(alloc, line)?;
    tail.push(LINE_FEED)?;
    tail.push(CLOSED)?;
    Ok(tail)
}

/// The bytes of a file at rest with these records.
pub(crate) fn text_of(alloc: Global, lines: &[Text]) -> Result<Vec<u8>, AllocError>
    ensures { IfOk result (λ text. text.items ≡ at_rest lines.now) }
{
    let mut text = Vec::new(alloc);
    for line in lines {
        text.push(OPEN)?;
        text.extend_from_slice(line.list())?;
        text.push(LINE_FEED)?;
    }
    text.push(CLOSED)?;
    Ok(text)
}

/// The line of the record with which these bytes begin, and what comes after the record; `None` where they begin with none.
#[tactic(auto, using(crate::proofs::Readings::no_line, crate::proofs::Readings::block_then))]
pub(crate) fn first_record(bytes: &[u8]) -> Option<(&[u8], &[u8])>
    ensures { MatchOption result ((line rest : List ℕ) → IsRecordLine line → bytes.now ≢ block line ++ rest)
        (λ first. IsRecordLine first.0.now × (bytes.now ≡ block first.0.now ++ first.1.now)) }
{
    let (gate, after) = bytes.split_first()?;
    if *gate != OPEN {
        return None;
    }
    first_line(after)
}

/// The line with which these bytes begin, and what comes after its line feed; `None` where no line feed stands in them.
#[tactic(auto, using(crate::proofs::Readings::no_feed))]
fn first_line(bytes: &[u8]) -> Option<(&[u8], &[u8])>
    ensures { MatchOption result ((line rest : List ℕ) → bytes.now ≢ line ++ 10 ∷ rest)
        (λ first. IsRecordLine first.0.now × (bytes.now ≡ first.0.now ++ 10 ∷ first.1.now)) }
{
    let Some(end) = memchr(LINE_FEED, bytes) else {
        return None;
    };
    Some((&bytes[..end], &bytes[end + 1..]))
}

/// The records for which these bytes stand.
pub(crate) fn read_records(alloc: Global, bytes: &[u8]) -> Result<Vec<Text>, AllocError>
    ensures { IfOk result (λ lines. StandsFor bytes.now lines.items) }
{
    let mut lines = Vec::new(alloc);
    let mut rest = bytes;
    while let Some((line, after)) = first_record(rest) {
        lines.push(Text::of(alloc, line)?)?;
        rest = after;
    }
    Ok(lines)
}

/// The records that are not to be taken out. Those past the end of `outs` stay.
#[tactic(auto, using(crate::proofs::Readings::kept_out, crate::proofs::Readings::kept_in))]
pub(crate) fn without(alloc: Global, lines: &[Text], outs: &[bool]) -> Result<Vec<Text>, AllocError>
    ensures { IfOk result (λ left. left.items ≡ lines_kept lines.now outs.now) }
{
    let mut left = Vec::new(alloc);
    for at in 0..lines.len() {
        if is_out(outs, at) {
            continue;
        }
        left.push(Text::of(alloc, lines[at].list())?)?;
    }
    Ok(left)
}

/// These bytes, and after them the records that are to be taken out, each with a line feed after it.
#[tactic(auto, using(crate::proofs::Readings::taken_out, crate::proofs::Readings::taken_in))]
pub(crate) fn with_taken(
    before: Vec<u8>,
    lines: &[Text],
    outs: &[bool],
) -> Result<Vec<u8>, AllocError>
    ensures { IfOk result (λ text. text.items ≡ before.items ++ lines_taken_out lines.now outs.now) }
{
    let mut text = before;
    for at in 0..lines.len() {
        if !is_out(outs, at) {
            continue;
        }
        text.extend_from_slice(lines[at].list())?;
        text.push(LINE_FEED)?;
    }
    Ok(text)
}

/// Whether the record with this index is to be taken out.
fn is_out(outs: &[bool], at: usize) -> bool
    ensures { result ≡ is_out outs.now at }
{
    outs.get(at).copied().unwrap_or(false)
}
