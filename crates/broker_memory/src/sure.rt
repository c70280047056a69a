//! Devices in memory no call of which fails.
ghost use Rattle.std.specs.Prelude.{◌≡◌, [], None, true, IfOk};
ghost use Rattle.base_device.specs.Memory.{input_of, output_of};
ghost use Rattle.base_device.specs.Seen.{no_input, no_output};

use std::alloc::{AllocError, Global};
use std::marker::Model;
use vault_http::{Device, Failed, MemorySink, MemorySource, Sink, SinkFault, Source};

/// A sink that collects what it is given.
#[derive(Drop)]
pub(crate) struct SureSink {
    sink: MemorySink,
}

impl Model for SureSink {
    ghost use Rattle.std.specs.Prelude.{◌≡◌, None};
    ghost use Rattle.base_device.specs.Memory.{Collected};

    ghost Value = { Collected };

    ghost view = { λ s. s.sink };

    ghost invariant = { λ s. s.sink.calls ≡ record { before_failure = None; failures = 0 } };
}

impl SureSink {
    /// A sink that holds nothing yet.
    pub(crate) fn new(alloc: Global) -> SureSink
        ensures { result.bytes ≡ [] }
    {
        SureSink {
            sink: MemorySink::new(alloc, None),
        }
    }

    /// What it collected.
    pub(crate) fn bytes(&self) -> &[u8]
        ensures { result.now ≡ self.now.bytes }
    {
        self.sink.bytes()
    }
}

impl Device for SureSink {
    ghost seen = { λ s. record { input = no_input; output = output_of s; failed_calls = 0 } };

    ghost is_in_memory = { true };

    fn failures(&self) -> u64 {
        0
    }
}

impl Sink for SureSink {
    fn write_some(&mut self, piece: &[u8]) -> Result<usize, SinkFault> {
        self.sink.write_some(piece)
    }

    fn flush(&mut self) -> Result<(), SinkFault> {
        self.sink.flush()
    }
}

/// A source of given bytes.
#[derive(Drop)]
pub(crate) struct SureSource {
    source: MemorySource,
}

impl Model for SureSource {
    ghost use Rattle.std.specs.Prelude.{◌≡◌, None};
    ghost use Rattle.base_device.specs.Memory.{Supply};

    ghost Value = { Supply };

    ghost view = { λ s. s.source };

    ghost invariant = { λ s. s.source.calls ≡ record { before_failure = None; failures = 0 } };
}

impl SureSource {
    /// The source of these bytes, which are copied.
    pub(crate) fn of(alloc: Global, bytes: &[u8]) -> Result<SureSource, AllocError>
        ensures bytes { IfOk result (λ s. s.bytes ≡ bytes.now) }
        ensures pieces { IfOk result (λ s. s.pieces ≡ []) }
    {
        Ok(SureSource {
            source: MemorySource::new(Vec::from_slice(alloc, bytes)?, Vec::new(alloc), None),
        })
    }
}

impl Device for SureSource {
    ghost seen = { λ s. record { input = input_of s; output = no_output; failed_calls = 0 } };

    fn failures(&self) -> u64 {
        0
    }
}

impl Source for SureSource {
    fn read_some(&mut self, buf: &mut [u8]) -> Result<usize, Failed> {
        self.source.read_some(buf)
    }
}
