//! Connections whose calls do not wait, and what makes them.
ghost use Rattle.std.specs.Prelude.{◌≡◌, ℕ, ◌<◌, ◌≤◌, List, [], ◌∷◌, ◌++◌, length, take, Option, None, Some, Bool, IfSome, false};
ghost use Rattle.std.specs.Io.KnownBytes.{Appends, Consumes, IsAtEnd, Keeps};
ghost use Rattle.base_device.specs.Tries.{IfTryDone, MatchTried};
ghost use Rattle.vault_lanes.specs.Failing.{FailsMore, failures_in};
ghost use Rattle.vault_lanes.specs.declared.reason.ConnectReason.TheVariants.{Other};

use crate::reason::ConnectReason;
use base_device::Tried;

/// A connection whose calls do not wait.
///
/// One in memory tells contracts its bytes, as a device does; of one outside they know nothing.
pub trait Line {
    ghost use Rattle.vault_lanes.specs.declared.reason.ConnectReason.{ConnectReason};

    /// The bytes that it has still to hand out, where they are known.
    ghost remaining: { Self → Option (List ℕ) } = { λ _. None };

    /// The bytes that it was given, where they are known.
    ghost written: { Self → Option (List ℕ) } = { λ _. None };

    /// How many of its calls have failed, where that is known.
    ghost failures: { Self → Option ℕ } = { λ _. None };

    /// Why its last `give` failed, where it did.
    ghost reason: { Self → ConnectReason } = { λ _. Other };

    /// Whether nothing tells when it can go on, so that it has to be tried again and again.
    ghost restless: { Self → Bool } = { λ _. false };

    /// Takes some bytes from the front of `piece`, at least one where there is one.
    fn give(&mut self, piece: &[u8]) -> Tried
        ensures bound { IfTryDone result (λ n. (n ≤ length piece.now) × (0 < length piece.now → 0 < n)) }
        ensures bytes { MatchTried result (λ n. Appends (Self.written self.old) (Self.written self.new) (take n piece.now))
            (Keeps (Self.written self.old) (Self.written self.new)) }
        ensures remaining { Keeps (Self.remaining self.old) (Self.remaining self.new) }
        ensures failures { FailsMore (failures_in result) (Self.failures self.old) (Self.failures self.new) };

    /// Reads some bytes into the front of `buf`, none only at the end of the input or where `buf` is empty.
    fn get(&mut self, buf: &mut [u8]) -> Tried
        ensures bound { IfTryDone result (λ n. n ≤ length buf.new) }
        ensures bytes { MatchTried result
            (λ n. Consumes (Self.remaining self.old) (Self.remaining self.new) (take n buf.new)
            × (n ≡ 0 → 0 < length buf.new → IsAtEnd (Self.remaining self.new)))
            (Keeps (Self.remaining self.old) (Self.remaining self.new)) }
        ensures written { Keeps (Self.written self.old) (Self.written self.new) }
        ensures failures { FailsMore (failures_in result) (Self.failures self.old) (Self.failures self.new) };

    /// Why its last `give` failed, where it did.
    fn reason(&self) -> ConnectReason
        ensures { result ≡ reason self.now };

    /// Whether nothing tells when it can go on.
    fn is_restless(&self) -> bool
        ensures { result ≡ restless self.now };
}

/// What makes connections.
///
/// To contracts one in memory is the indices that it has made connections for; of the system they know nothing.
pub trait Wires {
    /// Its connections.
    type Line: Line + Drop;

    /// The indices that it has made connections for, where they are known.
    ghost dialled: { Self → Option (List ℕ) } = { λ _. None };

    /// The port that requests to its broker name.
    ghost host_port: { Self → ℕ } = { λ _. 8200 };

    /// The port that requests to its broker name in `Host`: the broker's own, and 8200 where it has none.
    fn port(&self) -> u16
        ensures { result ≡ host_port self.now };

    /// Makes a connection for this index, or begins to. One that cannot be made fails at its first call.
    fn dial(&mut self, index: u32) -> Self::Line
        ensures unwritten { IfSome (Self.Line.written result) (λ bytes. bytes ≡ []) }
        ensures dialled { IfSome (Self.dialled self.old) (λ indices. Self.dialled self.new ≡ Some (indices ++ index ∷ [])) }
        ensures port { Self.host_port self.new ≡ Self.host_port self.old };
}
