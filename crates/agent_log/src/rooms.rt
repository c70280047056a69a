//! The room of the log, and a room for each of those who follow it.
ghost use Rattle.std.specs.Prelude.{◌≡◌, IfOk, OnErr, OnOk, length, map, option_map};
ghost use Rattle.agent_log.specs.Lines.{ArePut, EachIsTold, EarlyIsTold, FollowerIsTold, TextIsPut};
ghost use Rattle.agent_log.specs.Rooms.{begun_rooms, left_for, misses, missing_in, newcomer, with_follower};

use crate::log_line::Pen;
use base_log::{Follower, LOG_ROOM, Level, LogRoom};
use std::alloc::{AllocError, Global};
use std::marker::Model;

/// The room of the log, and those who follow it, each with a room of its own; and the warnings and alerts so far, in the room of the
/// first who will follow those alone. No room changes what comes into another.
#[derive(Debug, Drop)]
pub struct Rooms {
    pub(crate) log: LogRoom,
    /// Those who follow it.
    pub followers: Vec<Follower>,
    pub(crate) early: Option<Follower>,
}

impl Model for Rooms {
    ghost use Rattle.agent_log.specs.Rooms.{Rooms};

    ghost Value = { Rooms };

    ghost view = { λ r. record { log = r.log; followers = r.followers.items; early = r.early } };
}

impl Rooms {
    /// The room of a log that nobody follows. The only error is lack of memory.
    pub(crate) fn new(alloc: Global) -> Result<Rooms, AllocError>
        ensures { IfOk result (λ rooms. rooms ≡ begun_rooms) }
    {
        Ok(Rooms {
            log: LogRoom::new(alloc, LOG_ROOM)?,
            followers: Vec::new(alloc),
            early: Some(Follower::new(alloc, 0, true)?),
        })
    }

    /// Puts the text of a line of this level. Where memory is wanting for a line that tells how many were dropped, this one is dropped
    /// and counted in that room.
    pub(crate) fn put(&mut self, pen: &Pen, level: Level, text: &[u8])
        ensures { ArePut pen.now.form pen.now.moment level text.now self.old self.new }
    {
        put(pen, text, &mut self.log);
        tell_each(pen, level, text, &mut self.followers);
        tell_early(pen, level, text, &mut self.early);
    }

    /// Counts a line of this level that could not be made, for lack of memory, as dropped.
    pub(crate) fn miss(&mut self, level: Level)
        ensures { self.new ≡ missing_in level self.old }
    {
        self.log.miss();
        miss_each(level, &mut self.followers);
        miss_early(level, &mut self.early);
    }

    /// One more follows the log from now on, over the connection of that number. The first that is told of warnings and alerts alone is
    /// told of those that were said so far, too. The only error is lack of memory: nobody more follows then.
    pub fn admit(&mut self, alloc: Global, id: u64, alerts_alone: bool) -> Result<(), AllocError>
        ensures admitted { OnOk result (self.new ≡ with_follower id alerts_alone self.old) }
        ensures refused { OnErr result (self.new ≡ self.old) }
    {
        let follower = newcomer(alloc, id, alerts_alone, &self.early)?;
        self.followers.push(follower)?;
        if alerts_alone {
            self.early = None;
        }
        Ok(())
    }
}

// One that comes, for whom what was said so far may wait. The only error is lack of memory.
fn newcomer(
    alloc: Global,
    id: u64,
    alerts_alone: bool,
    early: &Option<Follower>,
) -> Result<Follower, AllocError>
    ensures { IfOk result (λ follower. follower ≡ newcomer id alerts_alone early.now) }
{
    match early {
        Some(early) if alerts_alone => early.copied(alloc, id),
        _ => Follower::new(alloc, id, alerts_alone),
    }
}

// Puts a line's text into the log's room.
fn put(pen: &Pen, text: &[u8], room: &mut LogRoom)
    ensures { TextIsPut pen.now.form pen.now.moment text.now room.old room.new }
{
    match pen.notice_of(room.untold()) {
        Ok(notice) => room.put(&notice, text),
        Err(_) => room.miss(),
    }
}

// Tells each of those who follow the log.
fn tell_each(pen: &Pen, level: Level, text: &[u8], followers: &mut [Follower])
    ensures many { length followers.new ≡ length followers.old }
    ensures told { EachIsTold pen.now.form pen.now.moment level text.now followers.old followers.new }
{
    for follower in followers.iter_mut() {
        tell(pen, level, text, follower);
    }
}

// Tells the first who will follow warnings and alerts alone, where none has come yet.
fn tell_early(pen: &Pen, level: Level, text: &[u8], early: &mut Option<Follower>)
    ensures { EarlyIsTold pen.now.form pen.now.moment level text.now early.old early.new }
{
    if let Some(first) = early {
        tell(pen, level, text, first);
    }
}

// Tells one of them.
fn tell(pen: &Pen, level: Level, text: &[u8], follower: &mut Follower)
    ensures { FollowerIsTold pen.now.form pen.now.moment level text.now follower.old follower.new }
{
    match pen.notice_of(follower.room.untold()) {
        Ok(notice) => follower.hear(level, &notice, text),
        Err(_) => follower.miss(level),
    }
}

// Counts the line for each of those who follow the log.
fn miss_each(level: Level, followers: &mut [Follower])
    ensures many { length followers.new ≡ length followers.old }
    ensures missed { followers.new ≡ map (misses level) followers.old }
{
    for follower in followers.iter_mut() {
        follower.miss(level);
    }
}

// Counts the line for the first who will follow warnings and alerts alone, where none has come yet.
fn miss_early(level: Level, early: &mut Option<Follower>)
    ensures { early.new ≡ option_map (misses level) early.old }
{
    if let Some(first) = early {
        first.miss(level);
    }
}
