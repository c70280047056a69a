ghost use Rattle.std.specs.Prelude.{◌≡◌, ◌<◌, ◌≤◌, ◌⊎◌, [], ◌++◌, length, true, false, IsTrue, Some, is_err, IfOk, OnOk, IsOkUnless, MatchResult};
ghost use Rattle.std.specs.Io.KnownBytes.{ReadConsumes};
ghost use Rattle.base_device.specs.declared.fault.SinkFault.TheVariants as faults;
ghost use Rattle.base_device.specs.Failures.{one_more, Counts, CountsRead};
ghost use Rattle.base_device.specs.Memory.{IsCall, IsPieceRead, failures_of, input_of, is_failed, output_of, reads_needed};
ghost use Rattle.base_device.specs.declared.limits.TheConstants.{MOST_ROOM};

use crate::{Device, Failed, MemorySink, MemorySource, Sink, SinkFault, Source};
use std::marker::Model;

/// A source and a sink in memory as one device, in the place of a connection.
#[derive(Debug, Drop)]
pub struct MemoryPair {
    source: MemorySource,
    sink: MemorySink,
}

impl Model for MemoryPair {
    ghost use Rattle.base_device.specs.Memory.{Pair};

    ghost Value = { Pair };

    ghost view = { λ p. record { source = p.source; sink = p.sink } };
}

impl MemoryPair {
    /// The device that reads from `source` and writes to `sink`.
    pub fn new(source: MemorySource, sink: MemorySink) -> MemoryPair
        ensures { result ≡ record { source = source; sink = sink } }
    {
        MemoryPair { source, sink }
    }

    /// What was written.
    pub fn sink(&self) -> &[u8]
        ensures { result.now ≡ self.now.sink.bytes }
    {
        self.sink.bytes()
    }
}

impl Device for MemoryPair {
    ghost seen = { λ p. record { input = input_of p.source; output = output_of p.sink; failed_calls = failures_of p } };

    ghost is_in_memory = { true };

    fn failures(&self) -> u64 {
        self.source.failures().saturating_add(self.sink.failures())
    }
}

impl Source for MemoryPair {
    fn read_some(&mut self, buf: &mut [u8]) -> Result<usize, Failed>
        ensures bound { IfOk result (λ n. n ≤ length buf.new) }
        ensures bytes { ReadConsumes (Some self.old.source.bytes) (Some self.new.source.bytes) result buf.new }
        ensures pace { IfOk result (λ n. 0 < n → (n < length buf.new) ⊎ (MOST_ROOM ≤ length buf.new)
            → (reads_needed self.new.source < reads_needed self.old.source) × (0 < reads_needed self.new.source)) }
        ensures last { reads_needed self.new.source ≤ 1 → self.new.source.bytes ≡ [] }
        ensures sink { self.new.sink ≡ self.old.sink }
        ensures count { CountsRead result (failures_of self.old) (failures_of self.new) }

        // As the source does alone.
        ensures calls { IsCall (is_err result) self.old.source.calls self.new.source.calls }
        ensures pieces { IsPieceRead result self.old.source self.new.source (length buf.new) }
        ensures reads { self.new.source.reads ≡ one_more self.old.source.reads }
    {
        self.source.read_some(buf)
    }
}

impl Sink for MemoryPair {
    fn write_some(&mut self, piece: &[u8]) -> Result<usize, SinkFault>
        ensures bound { IfOk result (λ n. (n ≤ length piece.now) × (0 < length piece.now → 0 < n)) }
        ensures source { self.new.source ≡ self.old.source }
        ensures count { Counts result (failures_of self.old) (failures_of self.new) }

        // As the sink does alone.
        ensures bytes { MatchResult result
            (λ n. (n ≡ length piece.now) × (self.new.sink.bytes ≡ self.old.sink.bytes ++ piece.now))
            (λ _. self.new.sink.bytes ≡ self.old.sink.bytes) }
        ensures calls { IsCall (is_failed result) self.old.sink.calls self.new.sink.calls }
        ensures flushed { IfOk result (λ n. 0 < n → self.new.sink.flushed ≡ false) }
    {
        self.sink.write_some(piece)
    }

    fn flush(&mut self) -> Result<(), SinkFault>
        ensures source { self.new.source ≡ self.old.source }
        ensures count { Counts result (failures_of self.old) (failures_of self.new) }

        // As the sink does alone.
        ensures bytes { self.new.sink.bytes ≡ self.old.sink.bytes }
        ensures memory { IsOkUnless result faults.Failed }
        ensures calls { IsCall (is_failed result) self.old.sink.calls self.new.sink.calls }
        ensures flushed { OnOk result (IsTrue self.new.sink.flushed) }
    {
        self.sink.flush()
    }
}
