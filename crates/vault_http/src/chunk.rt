ghost use Rattle.std.specs.Prelude.{◌≡◌, ℕ, ◌+◌, ◌-◌, ◌<◌, ◌≤◌, ◌⊎◌, List, [], ◌++◌, length, take, take_while, IsTrue, Err};
ghost use Rattle.vault_http.specs.declared.body.BodyFault.TheVariants.{Truncated};
ghost use Rattle.vault_http.specs.declared.framing.Framing.TheVariants as Framing;
ghost use Rattle.vault_http.specs.Body.{framing_of, IsPartOf};
ghost use Rattle.vault_http.specs.Chunks.{IsChunked, HasChunks};
ghost use Rattle.vault_http.specs.Framing.{is_digit};
ghost use Rattle.vault_http.specs.Messages.{UnlessBodyMemory};
ghost use Rattle.vault_http.specs.Verdicts.{VerdictIsDone, IfDone, IfMore};
ghost use Rattle.vault_http.specs.Steps.{IsEnding, IsSizeLine, IsStep};

use crate::body::{BodyFault, Partial};
use crate::first_bytes::front_of;
use crate::framing::number_of;
use crate::verdict::Verdict;
use base_moment::Text;

/// The most digits of a size.
const MOST_DIGITS: usize = 8;

/// Whether CR LF stands at the front of a text.
#[derive(Clone, Copy, Debug, PartialEq, Eq)]
pub(crate) enum Ending {
    /// The text stops within it.
    Open,
    /// Something else does, whatever follows.
    Bad,
    /// It does.
    Whole,
}

/// What stands at the front of a text as the line of a size.
#[derive(Clone, Copy, Debug, PartialEq, Eq)]
pub(crate) enum Line {
    /// The text stops within it.
    Open,
    /// Something else does, whatever follows.
    Bad,
    /// So many digits, which give this size, and CR LF.
    Size(usize, u64),
}

/// What stands at the front of a text as a chunk.
#[derive(Clone, Copy, Debug, PartialEq, Eq)]
pub(crate) enum Step {
    /// The text stops within it.
    Open,
    /// A chunk, whose bytes begin here and are so many.
    Chunk(usize, usize),
    /// The chunk of size 0, which ends the body.
    Last,
    /// The body fails here, whatever follows.
    Fault(BodyFault),
}

/// Judges a body in chunks, of which `room` bytes may be read; `ended` says that the input ends after them. The first `at`
/// bytes are whole chunks, which hold `body`: where more is waited for, the answer is how far the whole chunks now go.
pub(crate) fn judge_chunks(
    at: usize,
    body: Vec<u8>,
    text: &[u8],
    room: usize,
    ended: bool,
) -> Verdict<Partial, Result<Text, BodyFault>>
    requires within { at ≤ length text.now }
    requires fits { at ≤ room }
    requires so_far { HasChunks text.now at body.items }
    ensures answer { IfDone result (λ a. (more : List ℕ) → (IsTrue ended → more ≡ [])
        → UnlessBodyMemory a (IsChunked room (text.now ++ more) a)) }
    ensures decides { (IsTrue ended ⊎ (room < length text.now)) → VerdictIsDone result }
    ensures waits { IfMore result (λ _. IsChunked room text.now (Err Truncated)) }
    ensures framed { IfMore result (λ p. framing_of p ≡ Framing.Chunked) }
    ensures part { IfMore result (λ p. IsPartOf p room text.now) }
{
    let mut body = body;
    let mut at = at;
    loop {
        match next_step(&text[at..], room - at) {
            Step::Chunk(start, size) => {
                let from = at + start;
                let grown = grow(&mut body, &text[from..from + size]);
                if !grown {
                    return Verdict::Done(Err(BodyFault::OutOfMemory));
                }
                at = from + size + 2;
            }
            Step::Last => return Verdict::Done(Ok(Text::from_vec(body))),
            Step::Fault(fault) => return Verdict::Done(Err(fault)),
            Step::Open => {
                return if ended {
                    Verdict::Done(Err(BodyFault::Truncated))
                } else {
                    Verdict::More(Partial::Chunked(at, body))
                };
            }
        }
    }
}

/// Puts a piece after the body, and says whether there was memory for it.
fn grow(body: &mut Vec<u8>, piece: &[u8]) -> bool
    ensures { IsTrue result → body.new.items ≡ body.old.items ++ piece.now }
{
    body.extend_from_slice(piece).is_ok()
}

/// Reads one chunk at the front of a text, of which `room` bytes may be read.
pub(crate) fn next_step(text: &[u8], room: usize) -> Step
    ensures { IsStep text.now room result }
{
    match size_line(front_of(text, room)) {
        Line::Bad => Step::Fault(BodyFault::BadChunk),
        Line::Open if text.len() > room => Step::Fault(BodyFault::TooLong),
        Line::Open => Step::Open,
        Line::Size(digits, size) => sized_step(text, room, digits, size),
    }
}

/// Reads what stands after the line of a size.
fn sized_step(text: &[u8], room: usize, digits: usize, size: u64) -> Step
    requires line { IsSizeLine (take room text.now) (Line.Size digits size) }
    requires room { digits + 2 ≤ room }
    requires text { digits + 2 ≤ length text.now }
    ensures { IsStep text.now room result }
{
    let start = digits + 2;
    if room - start < 2 || size > (room - start - 2) as u64 {
        return Step::Fault(BodyFault::TooLong);
    }
    let size = size as usize;
    if text.len() - start < size {
        return Step::Open;
    }
    match line_end_at(&text[start + size..]) {
        Ending::Bad => Step::Fault(BodyFault::BadChunk),
        Ending::Open => Step::Open,
        Ending::Whole if size == 0 => Step::Last,
        Ending::Whole => Step::Chunk(start, size),
    }
}

/// Whether a byte is a hexadecimal digit.
fn is_hexadecimal(byte: u8) -> bool
    ensures { result ≡ is_digit 16 byte }
{
    char::from(byte).to_digit(16).is_some()
}

/// How many hexadecimal digits stand at the front of a text.
fn digits_at(text: &[u8]) -> usize
    ensures { result ≡ length (take_while (is_digit 16) text.now) }
{
    text.iter()
        .take_while(|byte| is_hexadecimal(**byte))
        .count()
}

/// Reads the line of a size at the front of a text: 1 to 8 hexadecimal digits and CR LF.
pub(crate) fn size_line(text: &[u8]) -> Line
    ensures { IsSizeLine text.now result }
{
    let n = digits_at(text);
    if n > MOST_DIGITS {
        return Line::Bad;
    }
    if n == 0 {
        return if text.is_empty() {
            Line::Open
        } else {
            Line::Bad
        };
    }
    match line_end_at(&text[n..]) {
        Ending::Open => Line::Open,
        Ending::Bad => Line::Bad,
        Ending::Whole => match number_of(16, &text[..n]) {
            Some(size) => Line::Size(n, size),
            None => Line::Bad,
        },
    }
}

/// Whether CR LF stands at the front of a text.
fn line_end_at(text: &[u8]) -> Ending
    ensures { IsEnding text.now result }
{
    match text {
        [] => Ending::Open,
        [b'\r'] => Ending::Open,
        [b'\r', b'\n', ..] => Ending::Whole,
        _ => Ending::Bad,
    }
}
