ghost use Rattle.std.specs.Prelude.{◌≡◌, IfOk, None, [], false};
ghost use Rattle.base_log.specs.Following.{hears, missed_line, put_if_heard};
ghost use Rattle.base_log.specs.declared.room.TheConstants.{FOLLOWER_ROOM};

use crate::level::Level;
use crate::room::{FOLLOWER_ROOM, LogRoom};
use std::alloc::{AllocError, Global};

/// One who reads the log's lines from now on. Who does not read them loses them, whole and counted.
#[derive(Debug, Drop)]
pub struct Follower {
    /// The number of its connection.
    pub id: u64,
    /// Whether it is told of warnings and alerts alone.
    pub alerts_alone: bool,
    /// What waits for it.
    pub room: LogRoom,
    /// Whether its connection is closed.
    pub has_gone: bool,
}

impl Follower {
    /// One for whom nothing waits yet. The only error is lack of memory.
    pub fn new(alloc: Global, id: u64, alerts_alone: bool) -> Result<Follower, AllocError>
        ensures { IfOk result (λ f. f ≡ record {
          id = id;
          alerts_alone = alerts_alone;
          room = record { bytes = []; room = FOLLOWER_ROOM; is_begun = false; notice = None; untold = 0; dropped = 0 };
          has_gone = false;
        }) }
    {
        Ok(Follower {
            id,
            alerts_alone,
            room: LogRoom::new(alloc, FOLLOWER_ROOM)?,
            has_gone: false,
        })
    }

    /// One over the connection of that number for whom what waits for this one waits, too. The only error is lack of memory.
    pub fn copied(&self, alloc: Global, id: u64) -> Result<Follower, AllocError>
        ensures { IfOk result (λ f. f ≡ record self.now { id = id }) }
    {
        Ok(Follower {
            id,
            alerts_alone: self.alerts_alone,
            room: self.room.copied(alloc)?,
            has_gone: self.has_gone,
        })
    }

    /// Takes a line of this level, where it is told of that level, as [`LogRoom::put`] does.
    pub fn hear(&mut self, level: Level, notice: &[u8], line: &[u8])
        ensures { self.new ≡ record self.old { room = put_if_heard self.old.alerts_alone level notice.now line.now self.old.room } }
    {
        if self.hears(level) {
            self.room.put(notice, line);
        }
    }

    /// Counts a line of this level that could not be made, for lack of memory, where it is told of that level, as
    /// [`LogRoom::miss`] does.
    pub fn miss(&mut self, level: Level)
        ensures { self.new ≡ record self.old { room = missed_line self.old.alerts_alone level self.old.room } }
    {
        if self.hears(level) {
            self.room.miss();
        }
    }

    // Whether it is told of a level.
    fn hears(&self, level: Level) -> bool
        ensures { result ≡ hears self.now.alerts_alone level }
    {
        !self.alerts_alone || level.is_alerted()
    }
}
