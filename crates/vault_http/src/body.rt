ghost use Rattle.std.specs.Prelude.{◌≡◌, ℕ, ◌<◌, ◌≤◌, ◌⊎◌, List, [], ◌++◌, length, IsTrue, Ok, Err};
ghost use Rattle.vault_http.specs.declared.body.BodyFault.TheVariants.{Truncated, OutOfMemory};
ghost use Rattle.vault_http.specs.declared.body.Partial.TheVariants as Partial;
ghost use Rattle.vault_http.specs.Body.{BodyIsCutOff, IsMessageBody, IsPartOf, counted_body, framing_of, open_body};
ghost use Rattle.vault_http.specs.Messages.{UnlessBodyMemory};
ghost use Rattle.vault_http.specs.Verdicts.{VerdictIsDone, IfDone, IfMore};

use crate::chunk::judge_chunks;
use crate::framing::Framing;
use crate::verdict::Verdict;
use base_moment::Text;
use std::alloc::{AllocError, Global};

/// Why a body was not read.
#[derive(Clone, Copy, Debug, PartialEq, Eq)]
pub(crate) enum BodyFault {
    TooLong,
    Truncated,
    BadChunk,
    OutOfMemory,
}

impl From<AllocError> for BodyFault {
    ghost from_gives = { λ _ e. e ≡ OutOfMemory };

    fn from(_e: AllocError) -> BodyFault {
        BodyFault::OutOfMemory
    }
}

/// What is known of a body of which not all bytes have come.
#[derive(Drop)]
pub(crate) enum Partial {
    /// It has none.
    Empty,
    /// It has so many.
    Counted(u64),
    /// So many bytes are whole chunks, which hold these.
    Chunked(usize, Vec<u8>),
    /// It goes to the end of the input.
    ToEnd,
}

impl Partial {
    /// What is known before any of its bytes has come.
    pub(crate) fn new(alloc: Global, framing: Framing) -> Partial
        ensures framed { framing_of result ≡ framing }
        ensures part { (room : ℕ) (rest : List ℕ) → IsPartOf result room rest }
    {
        match framing {
            Framing::Empty => Partial::Empty,
            Framing::Counted(n) => Partial::Counted(n),
            Framing::Chunked => Partial::Chunked(0, Vec::new(alloc)),
            Framing::ToEnd => Partial::ToEnd,
        }
    }
}

/// Judges the bytes after a head, of which `room` may be read; `ended` says that the input ends after them. More bytes
/// are waited for only where the body is not all there.
pub(crate) fn judge_body(
    alloc: Global,
    partial: Partial,
    rest: &[u8],
    room: usize,
    ended: bool,
) -> Verdict<Partial, Result<Text, BodyFault>>
    requires part { IsPartOf partial room rest.now }
    ensures answer { IfDone result (λ a. (more : List ℕ) → (IsTrue ended → more ≡ [])
        → UnlessBodyMemory a (IsMessageBody (framing_of partial) room (rest.now ++ more) a)) }
    ensures decides { (IsTrue ended ⊎ (room < length rest.now)) → VerdictIsDone result }
    ensures waits { IfMore result (λ _. BodyIsCutOff (framing_of partial) room rest.now) }
    ensures framed { IfMore result (λ p. framing_of p ≡ framing_of partial) }
    ensures part { IfMore result (λ p. IsPartOf p room rest.now) }
{
    match partial {
        Partial::Empty => Verdict::Done(copied(alloc, &rest[..0])),
        Partial::Counted(n) => judge_counted(alloc, rest, room, n, ended),
        Partial::Chunked(at, body) => judge_chunks(at, body, rest, room, ended),
        Partial::ToEnd => judge_open(alloc, rest, room, ended),
    }
}

/// Judges a body of `n` bytes.
fn judge_counted(
    alloc: Global,
    rest: &[u8],
    room: usize,
    n: u64,
    ended: bool,
) -> Verdict<Partial, Result<Text, BodyFault>>
    ensures answer { IfDone result (λ a. (more : List ℕ) → (IsTrue ended → more ≡ [])
        → UnlessBodyMemory a (a ≡ counted_body n room (rest.now ++ more))) }
    ensures decides { (IsTrue ended ⊎ (room < length rest.now)) → VerdictIsDone result }
    ensures waits { IfMore result (λ p. (p ≡ Partial.Counted n) × (counted_body n room rest.now ≡ Err Truncated)) }
{
    if n > room as u64 {
        return Verdict::Done(Err(BodyFault::TooLong));
    }
    let size = n as usize;
    if rest.len() >= size {
        Verdict::Done(copied(alloc, &rest[..size]))
    } else if ended {
        Verdict::Done(Err(BodyFault::Truncated))
    } else {
        Verdict::More(Partial::Counted(n))
    }
}

/// Judges a body that goes to the end of the input.
fn judge_open(
    alloc: Global,
    rest: &[u8],
    room: usize,
    ended: bool,
) -> Verdict<Partial, Result<Text, BodyFault>>
    ensures answer { IfDone result (λ a. (more : List ℕ) → (IsTrue ended → more ≡ [])
        → UnlessBodyMemory a (a ≡ open_body room (rest.now ++ more))) }
    ensures decides { (IsTrue ended ⊎ (room < length rest.now)) → VerdictIsDone result }
    ensures waits { IfMore result (λ p. (p ≡ Partial.ToEnd) × (length rest.now ≤ room)) }
{
    if rest.len() > room {
        Verdict::Done(Err(BodyFault::TooLong))
    } else if ended {
        Verdict::Done(copied(alloc, rest))
    } else {
        Verdict::More(Partial::ToEnd)
    }
}

/// The bytes as a text.
fn copied(alloc: Global, bytes: &[u8]) -> Result<Text, BodyFault>
    ensures { UnlessBodyMemory result (result ≡ Ok bytes.now) }
{
    Ok(Text::of(alloc, bytes)?)
}
