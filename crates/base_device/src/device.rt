ghost use Rattle.std.specs.Prelude.{◌≡◌, ◌-◌, ◌<◌, ◌≤◌, ◌⊎◌, length, take, Bool, true, false, IsTrue, IfOk, OnOk, IfSome, MatchResult, IsErrOf};
ghost use Rattle.std.specs.Io.KnownBytes.{Keeps, Appends, Consumes, IsAtEnd};
ghost use Rattle.base_device.specs.declared.fault.SinkFault.TheVariants.{OutOfMemory};
ghost use Rattle.base_device.specs.Failures.{one_more, Counts, CountsRead};
ghost use Rattle.base_device.specs.Seen.{Change, Seen, change};
ghost use Rattle.base_device.specs.declared.limits.TheConstants.{MOST_ROOM};

use crate::{Failed, SinkFault};

/// What can be read from, written to, or both: a file, a connection, a list of bytes.
///
/// A device in memory tells contracts its bytes; of one outside they know nothing. All that contracts see of it is one
/// record with a part for each direction, and stands here, in the common trait, since a connection is a [`Source`] and a
/// [`Sink`] at once: a read leaves what it takes, and a write what it hands out.
pub trait Device {
    /// What it hands out, what it takes, and the number of its calls that failed, up to the greatest `u64`.
    ghost seen: { Self → Seen };

    /// Whether devices of this type keep what they are given in memory, and so may want memory.
    ghost is_in_memory: { Bool } = { false };

    /// The number of calls that answered that they failed. At 18446744073709551615 the count stays, and a count that
    /// stands there is taken as risen.
    fn failures(&self) -> u64
        ensures { result ≡ (seen self.now).failed_calls };
}

/// What can be read from.
pub trait Source: Device {
    /// Reads some bytes into the front of `buf` and gives their number, which is 0 only at the end of the input or where
    /// `buf` is empty. A call that fails takes no byte from the input.
    fn read_some(&mut self, buf: &mut [u8]) -> Result<usize, Failed>
        ensures bound { IfOk result (λ n. n ≤ length buf.new) }
        ensures bytes { MatchResult result
            (λ n. Consumes (Self.seen self.old).input.remaining (Self.seen self.new).input.remaining (take n buf.new)
            × (n ≡ 0 → 0 < length buf.new → IsAtEnd (Self.seen self.new).input.remaining))
            (λ _. Keeps (Self.seen self.old).input.remaining (Self.seen self.new).input.remaining) }

        // A read that hands out something, and was not cut short by the room, brings the end nearer.
        ensures pace { IfSome (Self.seen self.old).input.remaining (λ _. IfOk result (λ n. 0 < n
            → (n < length buf.new) ⊎ (MOST_ROOM ≤ length buf.new)
            → ((Self.seen self.new).input.reads_left < (Self.seen self.old).input.reads_left) × (0 < (Self.seen self.new).input.reads_left))) }
        // Where one read more is needed at most, it is for the end alone.
        ensures last { (Self.seen self.new).input.reads_left ≤ 1 → IsAtEnd (Self.seen self.new).input.remaining }
        ensures made { IfSome (Self.seen self.old).input.remaining (λ _. (Self.seen self.new).input.reads_made ≡ one_more (Self.seen self.old).input.reads_made) }
        ensures output { (Self.seen self.new).output ≡ (Self.seen self.old).output }
        ensures count { CountsRead result (Self.seen self.old).failed_calls (Self.seen self.new).failed_calls };
}

/// What can be written to.
pub trait Sink: Device {
    /// Takes some bytes from the front of `piece`, at least one where there is one, and gives their number. A call that
    /// fails takes none; to take nothing of a piece that is not empty is to fail. Only a sink in memory answers
    /// `OutOfMemory`.
    fn write_some(&mut self, piece: &[u8]) -> Result<usize, SinkFault>
        ensures bound { IfOk result (λ n. (n ≤ length piece.now) × (0 < length piece.now → 0 < n)) }
        ensures bytes { MatchResult result
            (λ n. Appends (Self.seen self.old).output.written (Self.seen self.new).output.written (take n piece.now))
            (λ _. Keeps (Self.seen self.old).output.written (Self.seen self.new).output.written) }
        ensures flushed { IfOk result (λ n. 0 < n → (Self.seen self.new).output.is_flushed ≡ false) }
        ensures memory { IsErrOf result OutOfMemory → IsTrue Self.is_in_memory }
        ensures input { (Self.seen self.new).input ≡ (Self.seen self.old).input }
        ensures count { Counts result (Self.seen self.old).failed_calls (Self.seen self.new).failed_calls };

    /// Hands on what it may have kept back. Only a sink in memory answers `OutOfMemory`.
    fn flush(&mut self) -> Result<(), SinkFault>
        ensures bytes { Keeps (Self.seen self.old).output.written (Self.seen self.new).output.written }
        ensures flushed { OnOk result (IsTrue (Self.seen self.new).output.is_flushed) }
        ensures memory { IsErrOf result OutOfMemory → IsTrue Self.is_in_memory }
        ensures input { (Self.seen self.new).input ≡ (Self.seen self.old).input }
        ensures count { Counts result (Self.seen self.old).failed_calls (Self.seen self.new).failed_calls };
}

/// What contracts say of a device between two of its states, in one word: every device has it.
pub trait Watched: Device {
    /// What was done with the device between the two states.
    ghost change: { Self → Self → Change };
}

impl<D: Device> Watched for D {
    ghost change = { λ old new. change D.is_in_memory (D.seen old) (D.seen new) };
}
