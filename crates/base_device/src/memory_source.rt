ghost use Rattle.std.specs.Prelude.{◌≡◌, ◌+◌, ◌-◌, ◌<◌, ◌≤◌, ◌⊎◌, [], length, take, drop, Some, is_err, IfOk, MatchResult};
ghost use Rattle.std.specs.Io.KnownBytes.{Keeps, Consumes, IsAtEnd};
ghost use Rattle.base_device.specs.Failures.{one_more, CountsRead};
ghost use Rattle.base_device.specs.Memory.{IsCall, IsPieceRead, handed_out, input_of, reads_needed};
ghost use Rattle.base_device.specs.Seen.{no_output};
ghost use Rattle.base_device.specs.declared.limits.TheConstants.{MOST_ROOM};

use crate::calls::CallCount;
use crate::{Device, Failed, Source};
use std::marker::Model;

/// A source of given bytes. It hands them out in pieces of given lengths, and then as much as there is room for; at most
/// one read fails, a given one. Contracts see the bytes to come, the pieces to come, its calls and its reads.
#[derive(Debug, Drop)]
pub struct MemorySource {
    bytes: Vec<u8>,
    place: usize,
    pieces: Vec<usize>,
    next: usize,
    calls: CallCount,
    reads: u64,
}

impl Model for MemorySource {
    ghost use Rattle.std.specs.Prelude.{◌≤◌, drop, vec_len};
    ghost use Rattle.base_device.specs.Memory.{Supply};

    ghost Value = { Supply };

    ghost view = { λ s. record { bytes = drop s.place s.bytes.items; pieces = drop s.next s.pieces.items; calls = s.calls; reads = s.reads } };

    ghost invariant = { λ s. (s.place ≤ vec_len s.bytes) × (s.next ≤ vec_len s.pieces) };
}

impl MemorySource {
    /// A source of `bytes`, the first reads giving pieces of the lengths `pieces` (each cut to the room that is offered,
    /// and a length of 0 read as 1, since 0 bytes mean the end). After `before_failure` reads that go well one read
    /// fails; with `None` none does.
    pub fn new(bytes: Vec<u8>, pieces: Vec<usize>, before_failure: Option<u64>) -> MemorySource
        ensures bytes { result.bytes ≡ bytes.items }
        ensures pieces { result.pieces ≡ pieces.items }
        ensures calls { result.calls ≡ record { before_failure = before_failure; failures = 0 } }
        ensures reads { result.reads ≡ 0 }
    {
        MemorySource {
            bytes,
            place: 0,
            pieces,
            next: 0,
            calls: CallCount::new(before_failure),
            reads: 0,
        }
    }

    /// How many reads were made, those that failed among them. At 18446744073709551615 the count stays.
    pub fn reads(&self) -> u64
        ensures { result ≡ self.now.reads }
    {
        self.reads
    }

    /// How many bytes a read with so much room hands out.
    fn next_length(&self, room: usize) -> usize
        ensures { result ≡ handed_out self.now room }
    {
        let left = self.bytes.len() - self.place;
        let piece = match self.pieces.get(self.next) {
            Some(piece) => (*piece).max(1),
            None => left,
        };
        left.min(room).min(piece)
    }
}

impl Device for MemorySource {
    ghost seen = { λ s. record { input = input_of s; output = no_output; failed_calls = s.calls.failures } };

    fn failures(&self) -> u64 {
        self.calls.failures()
    }
}

impl Source for MemorySource {
    #[tactic(auto, using(crate::proofs::Handing::end_alone))]
    fn read_some(&mut self, buf: &mut [u8]) -> Result<usize, Failed>
        ensures bound { IfOk result (λ n. n ≤ length buf.new) }
        ensures bytes { MatchResult result
            (λ n. Consumes (Some self.old.bytes) (Some self.new.bytes) (take n buf.new)
            × (n ≡ 0 → 0 < length buf.new → IsAtEnd (Some self.new.bytes)))
            (λ _. Keeps (Some self.old.bytes) (Some self.new.bytes)) }
        ensures pace { IfOk result (λ n. 0 < n → (n < length buf.new) ⊎ (MOST_ROOM ≤ length buf.new)
            → (reads_needed self.new < reads_needed self.old) × (0 < reads_needed self.new)) }
        ensures last { reads_needed self.new ≤ 1 → self.new.bytes ≡ [] }
        ensures count { CountsRead result self.old.calls.failures self.new.calls.failures }

        // Which read fails, and how much a read hands out.
        ensures calls { IsCall (is_err result) self.old.calls self.new.calls }
        ensures pieces { IsPieceRead result self.old self.new (length buf.new) }
        ensures reads { self.new.reads ≡ one_more self.old.reads }
    {
        let n = self.next_length(buf.len());
        self.reads = self.reads.saturating_add(1);
        self.calls.begin()?;
        buf[..n].copy_from_slice(&self.bytes[self.place..self.place + n]);
        self.place += n;
        self.next = (self.next + 1).min(self.pieces.len());
        Ok(n)
    }
}
