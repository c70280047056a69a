ghost use Rattle.std.specs.Prelude.{◌≡◌, ◌<◌, ◌≤◌, length, None, false, IsTrue, IfOk, OnOk, IsOkUnless};
ghost use Rattle.std.specs.Io.KnownBytes.{Keeps, ReadConsumes, WriteAppends};
ghost use Rattle.base_device.specs.declared.fault.SinkFault.TheVariants as faults;
ghost use Rattle.base_device.specs.Failures.{one_more, Counts, CountsRead};
ghost use Rattle.base_device.specs.Seen.{no_input};

use crate::{Device, Failed, Sink, SinkFault, Source};
use std::io::{Read, Write};
use std::marker::Model;

/// A [`Source`] of any reader of the standard library, or a [`Sink`] of any of its writers: it counts the calls that
/// fail. A writer that takes nothing of a piece that is not empty has failed.
#[derive(Debug, Drop)]
pub struct Counted<S> {
    inner: S,
    failures: u64,
    flushed: bool,
}

impl<S> Model for Counted<S> {
    ghost use Rattle.base_device.specs.Tally.{Tally};

    ghost Value = { Tally S };

    ghost view = { λ c. record { inner = c.inner; failures = c.failures; flushed = c.flushed } };
}

impl<S> Counted<S> {
    /// Counts the failures of `inner` from none.
    pub fn new(inner: S) -> Counted<S>
        ensures inner { result.inner ≡ inner }
        ensures failures { result.failures ≡ 0 }
        ensures flushed { result.flushed ≡ false }
    {
        Counted {
            inner,
            failures: 0,
            flushed: false,
        }
    }

    /// The reader or writer itself.
    pub fn into_inner(self) -> S
        ensures { result ≡ self.inner }
    {
        let Counted {
            inner,
            failures: _,
            flushed: _,
        } = self;
        inner
    }

    /// The reader or writer itself, lent.
    pub fn get_ref(&self) -> &S
        ensures { result.now ≡ self.now.inner }
    {
        &self.inner
    }

    /// Counts one failure.
    fn fail(&mut self) -> Failed
        ensures inner { self.new.inner ≡ self.old.inner }
        ensures failures { self.new.failures ≡ one_more self.old.failures }
        ensures flushed { self.new.flushed ≡ self.old.flushed }
    {
        self.failures = self.failures.saturating_add(1);
        Failed
    }
}

impl<S> Device for Counted<S> {
    ghost seen = { λ c. record { input = no_input; output = record { written = None; is_flushed = c.flushed }; failed_calls = c.failures } };

    fn failures(&self) -> u64 {
        self.failures
    }
}

impl<S: Read> Source for Counted<S> {
    fn read_some(&mut self, buf: &mut [u8]) -> Result<usize, Failed>
        ensures bound { IfOk result (λ n. n ≤ length buf.new) }
        ensures count { CountsRead result self.old.failures self.new.failures }

        // What the reader itself hands out, where its bytes are known.
        ensures inner { ReadConsumes (S.remaining self.old.inner) (S.remaining self.new.inner) result buf.new }
        ensures flushed { self.new.flushed ≡ self.old.flushed }
    {
        match self.inner.read(buf) {
            Ok(n) => Ok(n),
            Err(_) => Err(self.fail()),
        }
    }
}

impl<S: Write> Sink for Counted<S> {
    fn write_some(&mut self, piece: &[u8]) -> Result<usize, SinkFault>
        ensures bound { IfOk result (λ n. (n ≤ length piece.now) × (0 < length piece.now → 0 < n)) }
        ensures memory { IsOkUnless result faults.Failed }
        ensures count { Counts result self.old.failures self.new.failures }

        // What the writer itself takes, where its bytes are known.
        ensures inner { WriteAppends (S.contents self.old.inner) (S.contents self.new.inner) result piece.now }
        ensures flushed { IfOk result (λ n. 0 < n → self.new.flushed ≡ false) }
    {
        self.flushed = false;
        match self.inner.write(piece) {
            Ok(n) if n > 0 || piece.is_empty() => Ok(n),
            _ => Err(self.fail().into()),
        }
    }

    fn flush(&mut self) -> Result<(), SinkFault>
        ensures memory { IsOkUnless result faults.Failed }
        ensures count { Counts result self.old.failures self.new.failures }

        // What the writer itself holds, where its bytes are known, stays.
        ensures inner { Keeps (S.contents self.old.inner) (S.contents self.new.inner) }
        ensures flushed { OnOk result (IsTrue self.new.flushed) }
    {
        match self.inner.flush() {
            Ok(()) => {
                self.flushed = true;
                Ok(())
            }
            Err(_) => Err(self.fail().into()),
        }
    }
}
