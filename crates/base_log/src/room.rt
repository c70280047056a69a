ghost use Rattle.std.specs.Prelude.{◌≡◌, ◌+◌, ◌≤◌, [], IfOk, None, false, length, min, take};
ghost use Rattle.std.specs.Io.KnownBytes.{Appends};
ghost use Rattle.base_log.specs.declared.writing.TheConstants.{MOST_TRIES};
ghost use Rattle.base_log.specs.Turns.{TurnIsMade};
ghost use Rattle.base_log.specs.Waiting.{after_turn, closed_if, closed_waiting, dropping, giving, is_free, notice_after, noticed, with_line, with_notice};

use crate::sink::LogSink;
use crate::writing::{MOST_TRIES, feeds, line_length, write_out};
use std::alloc::{AllocError, Global};
use std::marker::Model;

/// The bytes of lines that wait for the log's reader at most: a mebibyte.
pub const LOG_ROOM: usize = 1_048_576;

/// The bytes of lines that wait for one who follows the log at most: 64 KiB.
pub const FOLLOWER_ROOM: usize = 65_536;

/// The line that tells of dropped lines, where it waits: of how many it tells, and the bytes up to its end.
#[derive(Clone, Copy, Debug)]
pub(crate) struct Notice {
    pub(crate) lines: u64,
    pub(crate) end: usize,
}

/// Whole lines that wait for their reader. Its memory is taken when it is made, and no more later.
#[derive(Debug, Drop)]
pub struct LogRoom {
    bytes: Vec<u8>,
    room: usize,
    is_begun: bool,
    notice: Option<Notice>,
    untold: u64,
    dropped: u64,
}

impl Model for LogRoom {
    ghost use Rattle.std.specs.Prelude.{◌≤◌, vec_capacity, vec_len};
    ghost use Rattle.base_log.specs.Waiting.{Waiting};

    ghost Value = { Waiting };

    ghost view = { λ r. record { bytes = r.bytes.items; room = r.room; is_begun = r.is_begun; notice = r.notice; untold = r.untold; dropped = r.dropped } };

    ghost invariant = { λ r. (vec_len r.bytes ≤ r.room) × (r.room ≤ vec_capacity r.bytes) };
}

impl LogRoom {
    /// A room for so many bytes, in which nothing waits. The only error is lack of memory.
    pub fn new(alloc: Global, room: usize) -> Result<LogRoom, AllocError>
        ensures { IfOk result (λ r. r ≡ record { bytes = []; room = room; is_begun = false; notice = None; untold = 0; dropped = 0 }) }
    {
        Ok(LogRoom {
            bytes: Vec::with_capacity(alloc, room)?,
            room,
            is_begun: false,
            notice: None,
            untold: 0,
            dropped: 0,
        })
    }

    /// Another room in which the same waits. The only error is lack of memory.
    pub fn copied(&self, alloc: Global) -> Result<LogRoom, AllocError>
        ensures { IfOk result (λ r. r ≡ self.now) }
    {
        let mut bytes = Vec::with_capacity(alloc, self.room)?;
        bytes.extend_from_slice(&self.bytes).unwrap();
        Ok(LogRoom {
            bytes,
            room: self.room,
            is_begun: self.is_begun,
            notice: self.notice,
            untold: self.untold,
            dropped: self.dropped,
        })
    }

    /// The bytes that wait.
    pub fn waiting(&self) -> &[u8]
        ensures { result.now ≡ self.now.bytes }
    {
        &self.bytes
    }

    /// How many lines were dropped of which no line tells, neither one that waits nor one that was given. At 18446744073709551615 the count stays.
    pub fn untold(&self) -> u64
        ensures { result ≡ self.now.untold }
    {
        self.untold
    }

    /// How many lines were dropped in all. At 18446744073709551615 the count stays.
    pub fn dropped(&self) -> u64
        ensures { result ≡ self.now.dropped }
    {
        self.dropped
    }

    /// Takes a line, with its line feed, or drops it and counts it where there is no room for all of it. Where lines were dropped
    /// before, `notice`, the line that tells of them, is put in their place: both are taken, or neither. Neither is while another
    /// notice waits.
    pub fn put(&mut self, notice: &[u8], line: &[u8])
        ensures { self.new ≡ with_line notice.now line.now self.old }
    {
        let notice = if self.untold == 0 { &[] } else { notice };
        let left = self.room - self.bytes.len();
        if self.is_free() && notice.len() <= left && line.len() <= left - notice.len() {
            self.push_notice(notice);
            self.bytes.extend_from_slice(line).unwrap();
        } else {
            self.count(1);
        }
    }

    /// Puts `notice`, the line that tells of dropped lines, in their place, if there are any, there is room for it, and no other
    /// notice waits.
    pub fn tell(&mut self, notice: &[u8])
        ensures { self.new ≡ with_notice notice.now self.old }
    {
        if self.untold > 0
            && self.notice.is_none()
            && notice.len() <= self.room - self.bytes.len()
        {
            self.push_notice(notice);
        }
    }

    /// Counts a line that could not be made, for lack of memory, as dropped.
    pub fn miss(&mut self)
        ensures { self.new ≡ dropping 1 self.old }
    {
        self.count(1);
    }

    /// Gives a sink what it takes without waiting of the first `most` bytes that wait. It is tried until all of these are given,
    /// it would have to wait, or it fails; or [`MOST_TRIES`] times. Where it fails, what waits is dropped and counted, but for the
    /// rest of a line whose front was given. Answers how many bytes were given, and whether the sink failed.
    pub fn give<S: LogSink>(&mut self, sink: &mut S, most: usize) -> (usize, bool)
        ensures most { result.0 ≤ min most (length self.old.bytes) }
        ensures given { Appends (S.written sink.old) (S.written sink.new) (take result.0 self.old.bytes) }
        ensures turn { TurnIsMade (min most (length self.old.bytes)) result.0 result.1 (S.tried sink.old) (S.tried sink.new) }
        ensures tries { S.tries sink.new ≤ S.tries sink.old + MOST_TRIES }
        ensures failures { S.failures sink.new ≡ after_turn result.1 (S.failures sink.old) }
        ensures room { self.new ≡ closed_if result.1 (giving result.0 self.old) }
    {
        let most = most.min(self.bytes.len());
        let turn = write_out(sink, &self.bytes[..most]);
        self.pass(turn.taken);
        if turn.failed {
            self.close();
        }
        (turn.taken, turn.failed)
    }

    /// So many of the bytes that wait were given, the first of them.
    pub fn pass(&mut self, taken: usize)
        requires { taken ≤ length self.now.bytes }
        ensures { self.new ≡ giving taken self.old }
    {
        if taken > 0 {
            self.is_begun = self.bytes[taken - 1] != b'\n';
            self.bytes.drain(..taken);
        }
        self.notice = notice_after(taken, self.notice);
    }

    // Whether a notice may be put, or none is due.
    fn is_free(&self) -> bool
        ensures { result ≡ is_free self.now }
    {
        self.untold == 0 || self.notice.is_none()
    }

    // Puts the notice, where one is due.
    fn push_notice(&mut self, notice: &[u8])
        requires { length self.now.bytes + length notice.now ≤ self.now.room }
        ensures { self.new ≡ noticed notice.now self.old }
    {
        if self.untold > 0 {
            self.bytes.extend_from_slice(notice).unwrap();
            self.notice = Some(Notice {
                lines: self.untold,
                end: self.bytes.len(),
            });
            self.untold = 0;
        }
    }

    // Drops what waits, but for the rest of a line whose front was given. Of what a notice that is dropped would have told, no line
    // tells any more.
    fn close(&mut self)
        ensures { self.new ≡ closed_waiting self.old }
    {
        let kept = if self.is_begun {
            line_length(&self.bytes)
        } else {
            0
        };
        let lines = feeds(&self.bytes[kept..]) as u64;
        self.bytes.truncate(kept);
        match self.notice {
            Some(notice) if notice.end > kept => {
                self.notice = None;
                self.untold = self.untold.saturating_add(notice.lines);
                self.count(lines.saturating_sub(1));
            }
            _ => self.count(lines),
        }
    }

    // Counts lines that are dropped.
    fn count(&mut self, lines: u64)
        ensures { self.new ≡ dropping lines self.old }
    {
        self.untold = self.untold.saturating_add(lines);
        self.dropped = self.dropped.saturating_add(lines);
    }
}

// The notice that still waits behind the bytes that were given, and where it ends then.
fn notice_after(taken: usize, notice: Option<Notice>) -> Option<Notice>
    ensures { result ≡ notice_after taken notice }
{
    match notice {
        Some(notice) if taken < notice.end => Some(Notice {
            lines: notice.lines,
            end: notice.end - taken,
        }),
        _ => None,
    }
}
