ghost use Rattle.std.specs.Prelude.{◌≡◌, ◌≢◌, ◌⊎◌, ◌↔◌, Bool, IsTrue, MatchResult, OnOk, Ok, Err, true, false};
ghost use Rattle.std.specs.Result.{IfErr};
ghost use Rattle.std.specs.Duration.{as_nanos};
ghost use Rattle.std.specs.Io.{ReadsAtMost, WritesAtMost};
ghost use Rattle.std.specs.Io.KnownBytes.{Keeps, ReadConsumes, WriteAppends};
ghost use Rattle.std.specs.IoError.{error_kind};
ghost use Rattle.vault_exchange.specs.declared.fault.ExchangeFault.TheVariants.{ConnectFailed};
ghost use Rattle.vault_exchange.specs.Sockets.{learned, limit_of};

use crate::fault::ExchangeFault;
use std::io;
use std::io::{ErrorKind, Read, Write};
use std::time::Duration;
use vault_http::Counted;

/// How long one connect, read or write may take where nothing else is said, in seconds.
pub const PATIENCE: u64 = 5;

/// How long each connect, read and write may take: the longest time that was named, and a quarter of a second from one that
/// took longer to the next exchange that has its reply, or to the next event line. So a round of many entries against a silent
/// broker ends, and a broker that was late in one round is waited for in the next.
#[derive(Clone, Copy, Debug)]
pub(crate) struct Patience {
    longest: Duration,
    is_short: bool,
}

impl Patience {
    pub(crate) fn new(longest: Duration) -> Patience
        ensures { result ≡ record { longest = longest; is_short = false } }
    {
        Patience {
            longest,
            is_short: false,
        }
    }

    /// How long the next connect, read or write may take.
    pub(crate) fn limit(&self) -> Duration
        ensures { as_nanos result ≡ limit_of (as_nanos self.now.longest) self.now.is_short }
    {
        if self.is_short {
            self.longest.min(Duration::from_millis(250))
        } else {
            self.longest
        }
    }

    /// Something took too long.
    pub(crate) fn shorten(&mut self)
        ensures { self.new ≡ record self.old { is_short = true } }
    {
        self.is_short = true;
    }

    /// An exchange has its reply, or the next event line begins.
    pub(crate) fn restore(&mut self)
        ensures { self.new ≡ record self.old { is_short = false } }
    {
        self.is_short = false;
    }

    /// What an exchange says of those to come: it has its reply, or took too long, or neither.
    pub(crate) fn learn(&mut self, is_late: bool, has_reply: bool)
        ensures { self.new ≡ record self.old { is_short = learned has_reply is_late self.old.is_short } }
    {
        if has_reply {
            self.restore();
        } else if is_late {
            self.shorten();
        }
    }

    /// The connection that was opened; `ConnectFailed` where none was, and what is learned where that took too long.
    pub(crate) fn settle<T: Drop>(&mut self, opened: io::Result<T>) -> Result<T, ExchangeFault>
        ensures opened { MatchResult opened (λ stream. result ≡ Ok stream) (λ _. result ≡ Err ConnectFailed) }
        ensures open { OnOk opened (self.new ≡ self.old) }
        ensures late { IfErr opened (λ e. (error_kind e ≡ ErrorKind.TimedOut) ⊎ (error_kind e ≡ ErrorKind.WouldBlock) → self.new ≡ record self.old { is_short = true }) }
        ensures prompt { IfErr opened (λ e. error_kind e ≢ ErrorKind.TimedOut → error_kind e ≢ ErrorKind.WouldBlock → self.new ≡ self.old) }
    {
        match opened {
            Ok(stream) => Ok(stream),
            Err(error) => {
                if is_late(&error) {
                    self.shorten();
                }
                Err(ExchangeFault::ConnectFailed)
            }
        }
    }
}

/// Whether a call failed because it took too long.
pub(crate) fn is_late(error: &io::Error) -> bool
    ensures { IsTrue result ↔ ((error_kind error.now ≡ ErrorKind.TimedOut) ⊎ (error_kind error.now ≡ ErrorKind.WouldBlock)) }
{
    matches!(error.kind(), ErrorKind::TimedOut | ErrorKind::WouldBlock)
}

/// A stream, and whether a read or a write of it took too long.
#[derive(Drop)]
pub(crate) struct Watched<S> {
    stream: S,
    is_late: bool,
}

impl<S> Watched<S> {
    pub(crate) fn new(stream: S) -> Watched<S>
        ensures { result ≡ record { stream = stream; is_late = false } }
    {
        Watched {
            stream,
            is_late: false,
        }
    }

    pub(crate) fn is_late(&self) -> bool
        ensures { result ≡ self.now.is_late }
    {
        self.is_late
    }
}

impl<S: Read> Read for Watched<S> {
    // What the stream itself hands out, where its bytes are known.
    ghost remaining = { λ w. S.remaining w.stream };

    fn read(&mut self, buf: &mut [u8]) -> io::Result<usize>
        ensures bound { ReadsAtMost result buf.new }
        ensures bytes { ReadConsumes (S.remaining self.old.stream) (S.remaining self.new.stream) result buf.new }
        ensures prompt { OnOk result (self.new.is_late ≡ self.old.is_late) }
        ensures late { IfErr result (λ e. IsTrue self.new.is_late ↔ (IsTrue self.old.is_late ⊎ ((error_kind e ≡ ErrorKind.TimedOut) ⊎ (error_kind e ≡ ErrorKind.WouldBlock)))) }
    {
        match self.stream.read(buf) {
            Ok(n) => Ok(n),
            Err(error) => {
                self.is_late = self.is_late || is_late(&error);
                Err(error)
            }
        }
    }
}

impl<S: Write> Write for Watched<S> {
    // What the stream itself takes, where its bytes are known.
    ghost contents = { λ w. S.contents w.stream };

    fn write(&mut self, piece: &[u8]) -> io::Result<usize>
        ensures bound { WritesAtMost result piece.now }
        ensures bytes { WriteAppends (S.contents self.old.stream) (S.contents self.new.stream) result piece.now }
        ensures prompt { OnOk result (self.new.is_late ≡ self.old.is_late) }
        ensures late { IfErr result (λ e. IsTrue self.new.is_late ↔ (IsTrue self.old.is_late ⊎ ((error_kind e ≡ ErrorKind.TimedOut) ⊎ (error_kind e ≡ ErrorKind.WouldBlock)))) }
    {
        match self.stream.write(piece) {
            Ok(n) => Ok(n),
            Err(error) => {
                self.is_late = self.is_late || is_late(&error);
                Err(error)
            }
        }
    }

    fn flush(&mut self) -> io::Result<()>
        ensures bytes { Keeps (S.contents self.old.stream) (S.contents self.new.stream) }
        ensures kept { self.new.is_late ≡ self.old.is_late }
    {
        self.stream.flush()
    }
}

/// A line of which is known whether one of its calls took too long.
pub(crate) trait Timed {
    /// Whether one did.
    ghost late: { Self → Bool };

    /// Whether one did.
    fn is_late(&self) -> bool
        ensures { result ≡ late self.now };
}

impl<S> Timed for Counted<Watched<S>> {
    ghost late = { λ c. c.inner.is_late };

    fn is_late(&self) -> bool {
        self.get_ref().is_late()
    }
}
