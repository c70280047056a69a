ghost use Rattle.std.specs.Prelude.{◌≡◌, ℕ, ◌+◌, ◌-◌, ◌*◌, ◌<◌, ◌≤◌, ◌⊎◌, List, [], ◌++◌, length, take, drop, IsTrue, false};
ghost use Rattle.std.specs.List.{list_all};
ghost use Rattle.vault_http.specs.declared.known.TheConstants.{SMALL_HEAD};
ghost use Rattle.vault_http.specs.Body.{framing_of, IsPartOf};
ghost use Rattle.vault_http.specs.EmptyLine.{HasLineBehind, is_line_end_byte};
ghost use Rattle.vault_http.specs.Known.{IsCurrent, IsHeaded, StaysKnown};
ghost use Rattle.vault_http.specs.Messages.{UnlessMemory};
ghost use Rattle.vault_http.specs.Verdicts.{VerdictIsDone, IfDone, IfMore};

use crate::HttpFault;
use crate::body::{Partial, judge_body};
use crate::empty_line::{blank_front, brings_empty_line};
use crate::message::{Head, Message};
use crate::verdict::Verdict;
use std::alloc::Global;

/// The most bytes of a head that is not whole which are looked at after each read. Longer ones are looked at as often as
/// their number doubles, so that the work stays in proportion to the bytes.
pub const SMALL_HEAD: usize = 4096;

/// The most bytes of a message, its head included, that a broker or an agent reads.
pub const MOST_MESSAGE: usize = 1048576;

/// What is known of a message of which not all bytes have come.
#[derive(Drop)]
pub(crate) enum Known<M> {
    /// There is no head yet. So many bytes were looked at for one; in so many there is none; and so many at the front are
    /// carriage returns and line feeds.
    Head(usize, usize, usize),
    /// A head is there, and its body is not all there.
    Body(Headed<M>),
}

/// What is known of a message whose head is there.
#[derive(Drop)]
pub(crate) struct Headed<M> {
    /// The bytes of the head.
    len: usize,
    /// The message without its body.
    message: M,
    /// What is known of the body.
    partial: Partial,
}

/// Judges the bytes of a message that were read so far, of which `max` may be read; `ended` says that the input ends after
/// them. What was known of the first of them is `known`.
pub(crate) fn go_on<M: Message>(
    alloc: Global,
    known: Known<M>,
    bytes: &[u8],
    max: usize,
    ended: bool,
) -> Verdict<Known<M>, Result<M, HttpFault>>
    requires known { StaysKnown M.has_no_head (M.is_answer max) M.with_body max bytes.now known }
    ensures answer { IfDone result (λ a. (more : List ℕ) → (IsTrue ended → more ≡ [])
        → UnlessMemory a (M.is_answer max (bytes.now ++ more) a)) }
    ensures decides { (IsTrue ended ⊎ (max < length bytes.now)) → VerdictIsDone result }
    ensures known { IfMore result (λ k. StaysKnown M.has_no_head (M.is_answer max) M.with_body max bytes.now k) }
    ensures current { IfMore result (λ k. IsCurrent max bytes.now k) }
{
    M::laws();
    match known {
        Known::Body(headed) => behind(alloc, headed, bytes, max, ended),
        Known::Head(looked, seen, blank) => {
            let blank = blank_front(bytes, blank);
            if !ended && !is_due(bytes, max, looked, seen, blank) {
                return Verdict::More(Known::Head(looked, bytes.len(), blank));
            }
            look(alloc, bytes, max, ended, blank)
        }
    }
}

/// Whether the bytes are to be looked at for a head: they are few, or as many as may be read, or have doubled; or an empty
/// line came after the first `seen`, which may end one.
fn is_due(bytes: &[u8], max: usize, looked: usize, seen: usize, blank: usize) -> bool
    requires seen { seen ≤ length bytes.now }
    requires blank { blank ≤ length bytes.now }
    ensures short { result ≡ false → length bytes.now < max }
    ensures many { result ≡ false → (SMALL_HEAD < length bytes.now) × (length bytes.now < 2 * looked) }
    ensures line { result ≡ false → (blank ≡ length bytes.now) ⊎ (HasLineBehind seen bytes.now → ⊥) }
{
    bytes.len() <= SMALL_HEAD
        || bytes.len() >= max
        || bytes.len() / 2 >= looked
        || (blank < bytes.len() && brings_empty_line(bytes, seen))
}

/// Looks at the bytes for a head, and for what stands after it. The first `blank` are carriage returns and line feeds.
pub(crate) fn look<M: Message>(
    alloc: Global,
    bytes: &[u8],
    max: usize,
    ended: bool,
    blank: usize,
) -> Verdict<Known<M>, Result<M, HttpFault>>
    requires within { blank ≤ length bytes.now }
    requires blank { IsTrue (list_all is_line_end_byte (take blank bytes.now)) }
    ensures answer { IfDone result (λ a. (more : List ℕ) → (IsTrue ended → more ≡ [])
        → UnlessMemory a (M.is_answer max (bytes.now ++ more) a)) }
    ensures decides { (IsTrue ended ⊎ (max < length bytes.now)) → VerdictIsDone result }
    ensures known { IfMore result (λ k. StaysKnown M.has_no_head (M.is_answer max) M.with_body max bytes.now k) }
    ensures current { IfMore result (λ k. IsCurrent max bytes.now k) }
{
    match M::head(alloc, bytes, max) {
        Head::Open if ended => Verdict::Done(Err(HttpFault::Truncated)),
        Head::Open => Verdict::More(Known::Head(bytes.len(), bytes.len(), blank)),
        Head::Refused(fault) => Verdict::Done(Err(fault)),
        Head::Found(len, message, framing) => {
            let headed = Headed {
                len,
                message,
                partial: Partial::new(alloc, framing),
            };
            behind(alloc, headed, bytes, max, ended)
        }
    }
}

/// Judges what stands after a head.
fn behind<M: Message>(
    alloc: Global,
    headed: Headed<M>,
    bytes: &[u8],
    max: usize,
    ended: bool,
) -> Verdict<Known<M>, Result<M, HttpFault>>
    requires headed { IsHeaded (M.is_answer max) M.with_body max bytes.now headed.len headed.message (framing_of headed.partial) }
    requires part { IsPartOf headed.partial (max - headed.len) (drop headed.len bytes.now) }
    ensures answer { IfDone result (λ a. (more : List ℕ) → (IsTrue ended → more ≡ [])
        → UnlessMemory a (M.is_answer max (bytes.now ++ more) a)) }
    ensures decides { (IsTrue ended ⊎ (max < length bytes.now)) → VerdictIsDone result }
    ensures known { IfMore result (λ k. StaysKnown M.has_no_head (M.is_answer max) M.with_body max bytes.now k) }
    ensures current { IfMore result (λ k. IsCurrent max bytes.now k) }
{
    let Headed {
        len,
        message,
        partial,
    } = headed;
    match judge_body(alloc, partial, &bytes[len..], max - len, ended) {
        Verdict::More(partial) => Verdict::More(Known::Body(Headed {
            len,
            message,
            partial,
        })),
        Verdict::Done(Ok(body)) => Verdict::Done(Ok(message.with_body(body))),
        Verdict::Done(Err(fault)) => Verdict::Done(Err(fault.into())),
    }
}
