ghost use Rattle.std.specs.Prelude.{◌≡◌, ℕ, ◌<◌, ◌≤◌, List, length, take, Option, None};
ghost use Rattle.std.specs.Io.KnownBytes.{Appends, Consumes, IsAtEnd, Keeps};
ghost use Rattle.base_device.specs.Tries.{IfTryDone, MatchTried};
ghost use Rattle.base_clients.specs.Calls.{Logs};
ghost use Rattle.base_clients.specs.declared.talk.TalkCall.{TalkCall};
ghost use Rattle.base_clients.specs.declared.talk.TalkCall.TheVariants.{Gave, Got};

use base_device::Tried;

/// A call of a connection, and what it came to.
#[derive(Clone, Copy, Debug, PartialEq, Eq)]
pub enum TalkCall {
    /// It was read.
    Got(Tried),
    /// It was written to.
    Gave(Tried),
}

/// A connection whose calls do not wait. It is closed when it is dropped.
///
/// One in memory tells contracts its bytes and its calls, as a device does; of one outside they know nothing.
pub trait Talk: Drop {
    /// The bytes that it has still to hand out, where they are known.
    ghost remaining: { Self → Option (List ℕ) } = { λ _. None };

    /// The bytes that it was given, where they are known.
    ghost written: { Self → Option (List ℕ) } = { λ _. None };

    /// The calls of it, where they are known, the first of them first.
    ghost calls: { Self → Option (List TalkCall) } = { λ _. None };

    /// Reads some bytes into the front of `buf`, none only at the end of the input or where `buf` is empty.
    fn get(&mut self, buf: &mut [u8]) -> Tried
        ensures bound { IfTryDone result (λ n. n ≤ length buf.new) }
        ensures room { length buf.new ≡ length buf.old }
        ensures bytes { MatchTried result
            (λ n. Consumes (Self.remaining self.old) (Self.remaining self.new) (take n buf.new)
            × (n ≡ 0 → 0 < length buf.new → IsAtEnd (Self.remaining self.new)))
            (Keeps (Self.remaining self.old) (Self.remaining self.new)) }
        ensures written { Keeps (Self.written self.old) (Self.written self.new) }
        ensures logged { Logs (Self.calls self.old) (Self.calls self.new) (Got result) };

    /// Takes some bytes from the front of `piece`, at least one where there is one.
    fn give(&mut self, piece: &[u8]) -> Tried
        ensures bound { IfTryDone result (λ n. (n ≤ length piece.now) × (0 < length piece.now → 0 < n)) }
        ensures bytes { MatchTried result (λ n. Appends (Self.written self.old) (Self.written self.new) (take n piece.now))
            (Keeps (Self.written self.old) (Self.written self.new)) }
        ensures remaining { Keeps (Self.remaining self.old) (Self.remaining self.new) }
        ensures logged { Logs (Self.calls self.old) (Self.calls self.new) (Gave result) };
}
