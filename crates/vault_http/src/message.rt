ghost use Rattle.std.specs.Prelude.{◌≡◌, ℕ, List, ◌++◌, length, IsTrue, Result, Ok, Err};
ghost use Rattle.std.specs.List.{list_all};
ghost use Rattle.vault_http.specs.declared.http_fault.HttpFault.{HttpFault};
ghost use Rattle.vault_http.specs.declared.http_fault.HttpFault.TheVariants as faults;
ghost use Rattle.vault_http.specs.EmptyLine.{HasLineBehind, is_line_end_byte};
ghost use Rattle.vault_http.specs.Known.{IsMessageHead};

use crate::HttpFault;
use crate::framing::Framing;
use base_moment::Text;
use std::alloc::Global;

/// What stands at the front of the bytes of a message.
#[derive(Drop)]
pub(crate) enum Head<M> {
    /// No head yet, and one may come.
    Open,
    /// The message is refused, whatever follows.
    Refused(HttpFault),
    /// A head: its length, the message without its body, and how long the body is.
    Found(usize, M, Framing),
}

/// A kind of message: a head with a grammar of its own, and a body.
pub(crate) trait Message: Drop {
    /// What an input, of which so many bytes may be read, is answered with.
    ghost is_answer: { ℕ → List ℕ → Result Self HttpFault → Type 0 };

    /// No head stands at the front.
    ghost has_no_head: { List ℕ → Type 0 };

    /// The message with this body.
    ghost with_body: { Self → List ℕ → Self };

    /// Looks for a head at the front of the bytes, of which `max` may be read.
    fn head(alloc: Global, bytes: &[u8], max: usize) -> Head<Self>
        ensures { IsMessageHead has_no_head (is_answer max) with_body max bytes.now result };

    /// The message with this body.
    fn with_body(self, body: Text) -> Self
        ensures { result ≡ with_body self body };

    /// The laws of the kind: no answer is a failed read; a message has a head, which has more than carriage returns and line
    /// feeds, and ends with an empty line. It does nothing.
    fn laws()
        ensures never { (max : ℕ) (bytes : List ℕ) → is_answer max bytes (Err faults.ReadFailed) → ⊥ }
        ensures message { (max : ℕ) (bytes : List ℕ) (message : Self) → is_answer max bytes (Ok message) → has_no_head bytes → ⊥ }
        ensures blank { (bytes : List ℕ) → IsTrue (list_all is_line_end_byte bytes) → has_no_head bytes }
        ensures line { (bytes more : List ℕ) → has_no_head bytes → (HasLineBehind (length bytes) (bytes ++ more) → ⊥) → has_no_head (bytes ++ more) };
}
