ghost use Rattle.std.specs.Prelude.{◌≡◌, ◌+◌, ◌-◌, ◌<◌, ◌≤◌, [], ◌++◌, length, true, false, IsTrue, Some, IfOk, OnOk, IsOkUnless, MatchResult};
ghost use Rattle.base_device.specs.declared.fault.SinkFault.TheVariants.{Failed};
ghost use Rattle.base_device.specs.Failures.{Counts};
ghost use Rattle.base_device.specs.Memory.{IsCall, is_failed, output_of};
ghost use Rattle.base_device.specs.Seen.{no_input};

use crate::calls::CallCount;
use crate::{Device, Sink, SinkFault};
use std::alloc::Global;
use std::marker::Model;

/// A sink that collects what it is given; at most one call fails, a given one. A growth that is refused is
/// `OutOfMemory`. Contracts see the bytes that it collected, its calls, and whether they are flushed.
#[derive(Debug, Drop)]
pub struct MemorySink {
    bytes: Vec<u8>,
    calls: CallCount,
    flushed: bool,
}

impl Model for MemorySink {
    ghost use Rattle.base_device.specs.Memory.{Collected};

    ghost Value = { Collected };

    ghost view = { λ s. record { bytes = s.bytes.items; calls = s.calls; flushed = s.flushed } };
}

impl MemorySink {
    /// A sink that holds nothing yet. After `before_failure` calls (writes and flushes) that go well one call fails;
    /// with `None` none does.
    pub fn new(alloc: Global, before_failure: Option<u64>) -> MemorySink
        ensures bytes { result.bytes ≡ [] }
        ensures calls { result.calls ≡ record { before_failure = before_failure; failures = 0 } }
        ensures flushed { IsTrue result.flushed }
    {
        MemorySink {
            bytes: Vec::new(alloc),
            calls: CallCount::new(before_failure),
            flushed: true,
        }
    }

    /// Whether it took nothing since the last flush that went well.
    pub fn is_flushed(&self) -> bool
        ensures { result ≡ self.now.flushed }
    {
        self.flushed
    }

    /// What it collected.
    pub fn bytes(&self) -> &[u8]
        ensures { result.now ≡ self.now.bytes }
    {
        &self.bytes
    }
}

impl Device for MemorySink {
    ghost seen = { λ s. record { input = no_input; output = output_of s; failed_calls = s.calls.failures } };

    ghost is_in_memory = { true };

    fn failures(&self) -> u64 {
        self.calls.failures()
    }
}

impl Sink for MemorySink {
    fn write_some(&mut self, piece: &[u8]) -> Result<usize, SinkFault>
        ensures bound { IfOk result (λ n. (n ≤ length piece.now) × (0 < length piece.now → 0 < n)) }
        ensures count { Counts result self.old.calls.failures self.new.calls.failures }

        // The whole piece is taken, and the call named fails.
        ensures bytes { MatchResult result (λ n. (n ≡ length piece.now) × (self.new.bytes ≡ self.old.bytes ++ piece.now))
            (λ _. self.new.bytes ≡ self.old.bytes) }
        ensures calls { IsCall (is_failed result) self.old.calls self.new.calls }
        ensures flushed { IfOk result (λ n. 0 < n → self.new.flushed ≡ false) }
    {
        self.calls.begin()?;
        self.bytes.extend_from_slice(piece)?;
        self.flushed = self.flushed && piece.is_empty();
        Ok(piece.len())
    }

    fn flush(&mut self) -> Result<(), SinkFault>
        ensures bytes { self.new.bytes ≡ self.old.bytes }
        ensures memory { IsOkUnless result Failed }
        ensures count { Counts result self.old.calls.failures self.new.calls.failures }
        ensures calls { IsCall (is_failed result) self.old.calls self.new.calls }
        ensures flushed { OnOk result (IsTrue self.new.flushed) }
    {
        match self.calls.begin() {
            Ok(()) => {
                self.flushed = true;
                Ok(())
            }
            Err(fault) => Err(fault.into()),
        }
    }
}
