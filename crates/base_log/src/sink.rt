ghost use Rattle.std.specs.Prelude.{◌≡◌, ℕ, ◌<◌, ◌≤◌, List, length, take, Option, None};
ghost use Rattle.std.specs.Io.KnownBytes.{Appends, Keeps};
ghost use Rattle.base_device.specs.Failures.{one_more};
ghost use Rattle.base_device.specs.Tries.{IfTryDone, MatchTried};
ghost use Rattle.base_device.specs.declared.tried.Tried.{Tried};
ghost use Rattle.base_log.specs.Sinks.{CountsFailure};
ghost use Rattle.base_log.specs.Turns.{TryIsMade};

use base_device::Tried;

/// What takes the bytes of a log, and never waits.
///
/// One in memory tells contracts its bytes, as a device does; of one outside they know the number of its calls alone.
pub trait LogSink {
    /// The bytes that it was given, where they are known.
    ghost written: { Self → Option (List ℕ) } = { λ _. None };

    /// What its tries came to, the first of them first, where that is known.
    ghost tried: { Self → Option (List Tried) } = { λ _. None };

    /// How often it was tried, and how many of these tries failed, both up to the greatest `u64`.
    ghost tries: { Self → ℕ };

    ghost failures: { Self → ℕ };

    /// How often it was tried. At 18446744073709551615 the count stays.
    fn tries(&self) -> u64
        ensures { result ≡ tries self.now };

    /// How many tries failed. At 18446744073709551615 the count stays.
    fn failures(&self) -> u64
        ensures { result ≡ failures self.now };

    /// Takes some bytes from the front of `piece`, at least one where there is one, and waits for nobody.
    fn give(&mut self, piece: &[u8]) -> Tried
        ensures bound { IfTryDone result (λ n. (n ≤ length piece.now) × (0 < length piece.now → 0 < n)) }
        ensures bytes { MatchTried result (λ n. Appends (Self.written self.old) (Self.written self.new) (take n piece.now))
            (Keeps (Self.written self.old) (Self.written self.new)) }
        ensures tried { TryIsMade result (Self.tried self.old) (Self.tried self.new) }
        ensures tries { Self.tries self.new ≡ one_more (Self.tries self.old) }
        ensures failures { CountsFailure result (Self.failures self.old) (Self.failures self.new) };
}
