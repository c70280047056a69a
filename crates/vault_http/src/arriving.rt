//! A reply that comes in piece by piece, where nobody waits for the next piece.
ghost use Rattle.std.specs.Prelude.{◌≡◌, ℕ, [], ◌++◌, List, None, Some, IfSome, IsSome, IsTrue, Err};
ghost use Rattle.httparse.specs.Grammar.{HasNoResponse};
ghost use Rattle.vault_http.specs.Arriving.{IsDatedFront, IsDatedSoFar};
ghost use Rattle.vault_http.specs.Dates.{IsDatedReply};
ghost use Rattle.vault_http.specs.Holding.{IsWaitedFor};
ghost use Rattle.vault_http.specs.Messages.{UnlessMemory};
ghost use Rattle.vault_http.specs.Verdicts.{IfDone, IfMore, VerdictIsDone};
ghost use Rattle.vault_http.specs.declared.http_fault.HttpFault.TheVariants.{OutOfMemory};
ghost use Rattle.vault_http.specs.declared.known.TheConstants.{MOST_MESSAGE};

use crate::known::{Known, MOST_MESSAGE, go_on, look};
use crate::message::Message;
use crate::verdict::Verdict;
use crate::{DatedReply, HttpFault};
use std::alloc::Global;
use std::fmt;
use std::marker::Model;

/// A reply of at most 1 MiB of which not all bytes have come. To contracts it is those that have.
#[derive(Drop)]
pub struct Arriving {
    bytes: Vec<u8>,
    known: Option<Known<DatedReply>>,
}

impl Model for Arriving {
    ghost use Rattle.std.specs.Prelude.{List, ℕ};
    ghost use Rattle.vault_http.specs.Arriving.{IsDatedSoFar};

    ghost Value = { List ℕ };

    ghost view = { λ a. a.bytes.items };

    ghost invariant = { λ a. IsDatedSoFar a.bytes.items a.known };
}

impl fmt::Debug for Arriving {
    /// Shows how many bytes have come, and none of them: ids of leases stand in them, and they are secret.
    fn fmt<W: fmt::Write>(&self, f: &mut fmt::Formatter<W>) -> fmt::Result {
        f.debug_struct("Arriving")
            .field("bytes", &self.bytes.len())
            .finish_non_exhaustive()
    }
}

impl Arriving {
    /// A reply of which nothing has come. It takes no memory.
    pub fn new(alloc: Global) -> Arriving
        ensures { result ≡ [] }
    {
        Arriving {
            bytes: Vec::new(alloc),
            known: None,
        }
    }

    #[tactic(auto, using(crate::proofs::Arrived::known_of_front))]
    /// Takes a piece that has come, and `ended` says that the input ends after it. It gives the answer as soon as the bytes
    /// settle it, whatever follows, as [`crate::read_dated_reply`] does, be it the reply with its date or a fault of the bytes;
    /// and begins anew then. `None`: more is rightly waited for. Out of memory is a fault too, after which it is as it was: the
    /// piece is the caller's still, and may be handed in again.
    pub fn take(
        &mut self,
        alloc: Global,
        piece: &[u8],
        ended: bool,
    ) -> Option<Result<DatedReply, HttpFault>>
        ensures answer { IfSome result (λ a. (more : List ℕ) → (IsTrue ended → more ≡ [])
            → UnlessMemory a (IsDatedReply MOST_MESSAGE ((self.old ++ piece.now) ++ more) a)) }
        ensures decides { IsTrue ended → IsSome result }
        ensures more { result ≡ None → self.new ≡ self.old ++ piece.now }
        ensures waited { result ≡ None → IsWaitedFor HasNoResponse (IsDatedReply MOST_MESSAGE) (self.old ++ piece.now) }
        ensures anew { IfSome result (λ a. UnlessMemory a (self.new ≡ [])) }
        ensures kept { result ≡ Some (Err OutOfMemory) → self.new ≡ self.old }
    {
        let mut bytes = std::mem::replace(&mut self.bytes, Vec::new(alloc));
        let known = self.known.take();
        let before = bytes.len();
        if bytes.extend_from_slice(piece).is_err() {
            self.bytes = bytes;
            self.known = known;
            return Some(Err(HttpFault::OutOfMemory));
        }
        match judge(alloc, known, &bytes, ended) {
            Verdict::More(known) => {
                self.bytes = bytes;
                self.known = Some(known);
                None
            }
            Verdict::Done(Err(HttpFault::OutOfMemory)) => {
                bytes.truncate(before);
                self.bytes = bytes;
                Some(Err(HttpFault::OutOfMemory))
            }
            Verdict::Done(answer) => Some(answer),
        }
    }
}

/// Judges the bytes that have come. What was known of the first of them is `known`.
#[tactic(auto, using(crate::proofs::Arrived::waited_for))]
fn judge(
    alloc: Global,
    known: Option<Known<DatedReply>>,
    bytes: &[u8],
    ended: bool,
) -> Verdict<Known<DatedReply>, Result<DatedReply, HttpFault>>
    requires { IsDatedFront bytes.now known }
    ensures answer { IfDone result (λ a. (more : List ℕ) → (IsTrue ended → more ≡ [])
        → UnlessMemory a (IsDatedReply MOST_MESSAGE (bytes.now ++ more) a)) }
    ensures decides { IsTrue ended → VerdictIsDone result }
    ensures known { IfMore result (λ k. IsDatedSoFar bytes.now (Some k)) }
    ensures waited { IfMore result (λ _. IsWaitedFor HasNoResponse (IsDatedReply MOST_MESSAGE) bytes.now) }
{
    DatedReply::laws();
    match known {
        Some(known) => go_on(alloc, known, bytes, MOST_MESSAGE, ended),
        None => look(alloc, bytes, MOST_MESSAGE, ended, 0),
    }
}
