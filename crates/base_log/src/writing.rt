ghost use Rattle.std.specs.Prelude.{◌≡◌, ◌+◌, ◌≤◌, length, take};
ghost use Rattle.std.specs.Io.KnownBytes.{Appends};
ghost use Rattle.base_log.specs.Turns.{TurnIsMade};
ghost use Rattle.base_log.specs.Waiting.{after_turn, feeds, line_length};

use crate::sink::LogSink;
use base_device::Tried;

/// How often a sink is tried in one turn at most.
pub const MOST_TRIES: u32 = 16;

/// What a turn came to: how many bytes were taken, and whether the sink failed.
#[derive(Clone, Copy)]
pub(crate) struct Turn {
    pub(crate) taken: usize,
    pub(crate) failed: bool,
}

/// Gives a sink of these bytes what it takes without waiting. It is tried until all are given, it would have to wait, or it fails;
/// or [`MOST_TRIES`] times.
pub(crate) fn write_out<S: LogSink>(sink: &mut S, bytes: &[u8]) -> Turn
    ensures front { result.taken ≤ length bytes.now }
    ensures given { Appends (S.written sink.old) (S.written sink.new) (take result.taken bytes.now) }
    ensures turn { TurnIsMade (length bytes.now) result.taken result.failed (S.tried sink.old) (S.tried sink.new) }
    ensures tries { S.tries sink.new ≤ S.tries sink.old + MOST_TRIES }
    ensures failures { S.failures sink.new ≡ after_turn result.failed (S.failures sink.old) }
{
    let mut taken: usize = 0;
    for _try in 0..MOST_TRIES {
        if taken == bytes.len() {
            return Turn {
                taken,
                failed: false,
            };
        }
        match sink.give(&bytes[taken..]) {
            Tried::Done(n) => taken += n,
            Tried::Waits => return Turn {
                taken,
                failed: false,
            },
            Tried::Failed => return Turn {
                taken,
                failed: true,
            },
        }
    }
    Turn {
        taken,
        failed: false,
    }
}

/// How many lines end here.
pub(crate) fn feeds(bytes: &[u8]) -> usize
    ensures value { result ≡ feeds bytes.now }
    ensures within { result ≤ length bytes.now }
{
    let mut lines: usize = 0;
    for byte in bytes {
        if *byte == b'\n' {
            lines += 1;
        }
    }
    lines
}

/// How many bytes there are up to the first line feed, and with it; all where there is none.
pub(crate) fn line_length(bytes: &[u8]) -> usize
    ensures value { result ≡ line_length bytes.now }
    ensures within { result ≤ length bytes.now }
{
    let mut length: usize = 0;
    for byte in bytes {
        length += 1;
        if *byte == b'\n' {
            return length;
        }
    }
    length
}
