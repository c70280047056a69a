//! One guest, and what it becomes by one call of its connection.
ghost use Rattle.std.specs.Prelude.{◌≡◌, ◌++◌, ◌<◌, ◌≤◌, [], OnErr, OnOk, drop, length, take};
ghost use Rattle.base_clients.specs.Guests.{FeedsOn, GuestGoesOn, GuestIsFed, GuestIsLost, GuestIsWrittenTo, IsListenedTo, IsReadOn, IsToldOn, IsWrittenOn, can_go_on, count, newcomer};
ghost use Rattle.base_clients.specs.Tables.{TakesFrom, following, guest_answered};
ghost use Rattle.base_clients.specs.declared.stage.GuestStage.TheVariants.{Over};

use crate::clients::GuestRequest;
use crate::fed::Fed;
use crate::framing::Framing;
use crate::left::Left;
use crate::limits::PATIENCE;
use crate::stage::{
    GuestStage, count, has_waited, heard_to, moved_by, read_to, told_to, written_to,
};
use crate::talk::Talk;
use base_device::Tried;
use base_moment::Text;
use std::alloc::{AllocError, Global};
use std::mem;

/// A guest.
#[derive(Debug, Drop)]
pub struct Guest<T> {
    /// Its number.
    pub id: u64,
    pub talk: T,
    pub stage: GuestStage,
    /// The moment by which its request has to be whole, or its answer written, in milliseconds of the clock that is handed in.
    pub by: u64,
    /// The moment of its last progress.
    pub moved: u64,
    /// Whether the last call of its connection, for what it does now, came to nothing but that it would have to wait.
    pub waits: bool,
}

impl<T> Guest<T> {
    /// One that has just come. It takes no memory.
    pub(crate) fn new(alloc: Global, id: u64, talk: T, now: u64) -> Guest<T>
        ensures { result ≡ newcomer now id talk }
    {
        Guest {
            id,
            talk,
            stage: GuestStage::Reading(Text::from_vec(Vec::new(alloc))),
            by: now.saturating_add(PATIENCE),
            moved: now,
            waits: false,
        }
    }

    /// Its request, where nobody has taken it yet. It waits for an answer then.
    pub(crate) fn take_request(&mut self) -> Option<GuestRequest>
        ensures { TakesFrom self.old result self.new }
    {
        match mem::replace(&mut self.stage, GuestStage::Waiting) {
            GuestStage::Asked(bytes) => Some(GuestRequest { id: self.id, bytes }),
            stage => {
                self.stage = stage;
                None
            }
        }
    }

    /// Is given its answer.
    pub(crate) fn set_answer(&mut self, answer: Vec<u8>, now: u64)
        ensures { self.new ≡ guest_answered now answer.items self.old }
    {
        self.stage = GuestStage::Answering(Left::of(answer));
        self.by = now.saturating_add(PATIENCE);
        self.moved = now;
        self.waits = false;
    }

    /// Is given the first of an answer that goes on.
    pub(crate) fn set_following(&mut self, answer: Vec<u8>)
        ensures { self.new ≡ following answer.items self.old }
    {
        self.stage = GuestStage::Following(Left::of(answer));
        self.waits = false;
    }

    /// Is given of these bytes what one call writes, where its answer goes on and all that it was given so far is written. The
    /// only error is out of memory.
    pub(crate) fn feed(&mut self, bytes: &[u8]) -> Result<Fed, AllocError>
        ensures { GuestIsFed bytes.now result self.old self.new }
    {
        match mem::replace(&mut self.stage, GuestStage::Waiting) {
            GuestStage::Following(left) => self.feed_on(left, bytes),
            stage => {
                self.stage = stage;
                Ok(Fed::Gone)
            }
        }
    }

    /// The same where this is left of what it was given.
    fn feed_on(&mut self, mut left: Left, bytes: &[u8]) -> Result<Fed, AllocError>
        ensures { FeedsOn bytes.now left result self.old self.new }
    {
        let fed = left.add_front(bytes);
        self.stage = GuestStage::Following(left);
        fed
    }

    /// Whether one call more may come to something, although nobody told of it.
    pub(crate) fn can_go_on(&self) -> bool
        ensures { result ≡ can_go_on self.now }
    {
        (self.stage.is_busy() || self.stage.is_following()) && !self.waits
    }
}

impl<T: Talk> Guest<T> {
    /// Goes on by one call of its connection at most. `room` is what a read is offered. The only error is out of memory, where
    /// something came: its connection is to be closed.
    pub(crate) fn go_on<F: Framing>(
        &mut self,
        room: &mut [u8],
        framing: &F,
        most: usize,
        now: u64,
    ) -> Result<(), AllocError>
        requires room { length room.old ≡ 4096 }
        ensures room { length room.new ≡ 4096 }
        ensures on { OnOk result (GuestGoesOn T.remaining T.written T.calls (F.tells framing.now) most now self.old self.new) }
        ensures lost { OnErr result (GuestIsLost T.written T.calls self.old self.new) }
    {
        match mem::replace(&mut self.stage, GuestStage::Over) {
            GuestStage::Reading(bytes) => self.read_on(room, framing, most, bytes.into_vec(), now),
            GuestStage::Answering(left) => {
                self.write_on(left, now);
                Ok(())
            }
            GuestStage::Following(left) => {
                self.tell_on(room, left, now);
                Ok(())
            }
            stage => {
                self.stage = stage;
                Ok(())
            }
        }
    }

    /// Reads once, where this has come so far.
    fn read_on<F: Framing>(
        &mut self,
        room: &mut [u8],
        framing: &F,
        most: usize,
        mut bytes: Vec<u8>,
        now: u64,
    ) -> Result<(), AllocError>
        requires room { length room.old ≡ 4096 }
        requires over { self.old.stage ≡ Over }
        ensures room { length room.new ≡ 4096 }
        ensures on { OnOk result (IsReadOn T.remaining T.written T.calls (F.tells framing.now) most now bytes.items self.old self.new) }
        ensures lost { OnErr result (GuestIsLost T.written T.calls self.old self.new) }
    {
        let tried = self.talk.get(room);
        let came = count(tried);
        add(&mut bytes, room, came)?;
        let is_whole = is_whole(framing, came, &bytes);
        self.moved = moved_by(tried, now, self.moved);
        self.waits = has_waited(tried);
        self.stage = read_to(tried, is_whole, most, bytes).in_time(now, self.by);
        Ok(())
    }

    /// Writes once, where this is left of its answer.
    fn write_on(&mut self, mut left: Left, now: u64)
        ensures { IsWrittenOn T.remaining T.written T.calls now left self.old self.new }
    {
        let tried = self.write(&mut left, now);
        self.stage = written_to(tried, left).in_time(now, self.by);
    }

    /// Goes on where its answer goes on, and this is left of what it was given. `room` is what a read is offered.
    fn tell_on(&mut self, room: &mut [u8], mut left: Left, now: u64)
        requires { length room.old ≡ 4096 }
        ensures room { length room.new ≡ 4096 }
        ensures on { IsToldOn T.remaining T.written T.calls now left self.old self.new }
    {
        if left.is_empty() {
            self.listen(room, left);
            return;
        }
        let tried = self.write(&mut left, now);
        self.stage = told_to(tried, left);
    }

    /// Reads once, where all that it was given is written: `left` is empty.
    fn listen(&mut self, room: &mut [u8], left: Left)
        requires { left ≡ [] }
        ensures room { length room.new ≡ length room.old }
        ensures on { IsListenedTo T.remaining T.written T.calls self.old self.new }
    {
        let tried = self.talk.get(room);
        self.waits = has_waited(tried);
        self.stage = heard_to(tried, left);
    }

    /// Writes once, and takes what was written off the front of what is left.
    fn write(&mut self, left: &mut Left, now: u64) -> Tried
        ensures rest { left.new ≡ drop (count result) left.old }
        ensures written { GuestIsWrittenTo T.remaining T.written T.calls now result self.old.stage left.old self.old self.new }
    {
        let tried = self.talk.give(left.piece());
        left.take(count(tried));
        self.moved = moved_by(tried, now, self.moved);
        self.waits = has_waited(tried);
        tried
    }
}

/// Adds so many bytes from the front of the room. The only error is out of memory, and only where there are some.
fn add(bytes: &mut Vec<u8>, room: &[u8], count: usize) -> Result<(), AllocError>
    requires { count ≤ length room.now }
    ensures added { OnOk result (bytes.new.items ≡ bytes.old.items ++ take count room.now) }
    ensures some { OnErr result (0 < count) }
{
    bytes.extend_from_slice(&room[..count])
}

/// Whether a request is whole with these bytes, so many of which have just come.
fn is_whole<F: Framing>(framing: &F, came: usize, bytes: &[u8]) -> bool
    ensures { 0 < came → F.tells framing.now bytes.now result }
{
    came > 0 && framing.is_whole(bytes)
}
