//! The log's reader is given what it takes.
ghost use Rattle.std.specs.Prelude.{◌≡◌, ◌+◌, ◌≤◌, ◌&&◌, nat_eq, nat_lt, not};
ghost use Rattle.base_log.specs.declared.writing.TheConstants.{MOST_TRIES};
ghost use Rattle.agent_log.specs.LogDesk.{MayTell, ReaderIsGiven, TellsIf};
ghost use Rattle.agent_words.specs.Moments.{second_of};

use crate::desk::Desk;
use crate::log_line::Pen;
use base_clock::Reading;
use base_log::{LogRoom, LogSink};
use std::alloc::Global;

/// The bytes that the log's reader is given in one turn at most.
pub const MOST_GIVEN: usize = 65_536;

impl Desk {
    /// Gives the log's reader what it takes without waiting. Where it took something, lines that were dropped are told of, if there
    /// is room for that. Whether more could be given at once.
    #[tactic(auto, using(crate::proofs::Deciding::tells_by))]
    pub fn give<S: LogSink>(&mut self, alloc: Global, sink: &mut S, now: Reading) -> bool
        ensures given { ReaderIsGiven self.old.form (second_of now.wall) self.old.room.log self.new.room.log (S.written sink.old) (S.written sink.new) (S.failures sink.old) (S.failures sink.new) (S.tried sink.old) (S.tried sink.new) result }
        ensures tries { S.tries sink.new ≤ S.tries sink.old + MOST_TRIES }
        ensures rest { self.new ≡ record self.old { room = record self.old.room { log = self.new.room.log } } }
    {
        let (taken, failed) = self.room.log.give(sink, MOST_GIVEN);
        self.tell_if(alloc, may_tell(taken, failed), now);
        goes_on(taken, failed)
    }

    // Tells the log's reader of dropped lines, where that is asked.
    fn tell_if(&mut self, alloc: Global, is_asked: bool, now: Reading)
        ensures told { TellsIf is_asked self.old.form (second_of now.wall) self.old.room.log self.new.room.log }
        ensures rest { self.new ≡ record self.old { room = record self.old.room { log = self.new.room.log } } }
    {
        tell_if(&self.pen_at(alloc, now), is_asked, &mut self.room.log);
    }
}

// Whether lines that were dropped may be told of, where so many bytes were given.
fn may_tell(taken: usize, failed: bool) -> bool
    ensures { result ≡ (nat_lt 0 taken && not failed) }
{
    taken > 0 && !failed
}

// Whether more could be given at once, where so many bytes were.
fn goes_on(taken: usize, failed: bool) -> bool
    ensures { result ≡ (nat_eq taken MOST_GIVEN && not failed) }
{
    taken == MOST_GIVEN && !failed
}

/// Tells of dropped lines, where that is asked.
pub(crate) fn tell_if(pen: &Pen, is_asked: bool, room: &mut LogRoom)
    ensures { TellsIf is_asked pen.now.form pen.now.moment room.old room.new }
{
    if is_asked {
        tell(pen, room);
    }
}

// Puts the line that tells of dropped lines, where there are any and there is room for it. Where memory for it is wanting, it is not
// put yet.
fn tell(pen: &Pen, room: &mut LogRoom)
    ensures { MayTell pen.now.form pen.now.moment room.old room.new }
{
    if let Ok(notice) = pen.notice_of(room.untold()) {
        room.tell(&notice);
    }
}
