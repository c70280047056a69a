//! What onlookers are shown. There is no credential in it.
use crate::standby::Standby;
use crate::state::EntryState;
use crate::state_folder::StateFolder;
use agent_standing::Trouble;
use base_moment::Name;
use plan_forest::{Kind, Listed};

/// How the inventory's file was last read. Moments are seconds of the machine's clock since 1970-01-01T00:00:00Z.
#[derive(Clone, Copy, Debug, PartialEq, Eq)]
pub struct FileReading {
    /// Whether it was good then.
    pub is_good: bool,
    /// When that was; `None` where it was never read.
    pub at: Option<u64>,
    /// When it was last read and good.
    pub good_at: Option<u64>,
}

/// What an agent doesn't know of itself.
#[derive(Clone, Copy, Debug, PartialEq, Eq)]
pub struct Surroundings {
    /// What the machine's clock shows, in seconds since 1970-01-01T00:00:00Z.
    pub wall: u64,
    /// The next wake-up, in seconds by the broker's clock; `None` where nothing is left to do.
    pub next_wake: Option<u64>,
    /// How the inventory's file was last read.
    pub file: FileReading,
    /// Whether changes are kept over a restart.
    pub state_folder: StateFolder,
    /// How it stands to others that serve the same inventory.
    pub standby: Standby,
    /// How many lines of the log were dropped.
    pub dropped_lines: u64,
    /// How many warnings and alerts were dropped before whoever follows them took them.
    pub dropped_alerts: u64,
}

/// How one entry stands. Moments are seconds by the broker's clock.
#[derive(Debug, Drop)]
pub struct BoardRow {
    pub name: Name,
    pub kind: Kind,
    pub state: EntryState,
    /// Its end; `None` where it is not known, or there is none.
    pub end: Option<u64>,
    /// Until when it is needed for its own sake, 0 where it is not.
    pub need: u64,
    /// Until when it is needed, by itself or by an entry under it, 0 where it is not.
    pub carried: u64,
    /// Until when its need can be kept, 0 where it is gone, has ended or waits.
    pub in_force: u64,
    /// When it was last renewed; `None` where it was not yet.
    pub last_success: Option<u64>,
    /// What is wrong with it, by the last answer about it.
    pub trouble: Option<Trouble>,
    /// How many of its renewals were granted.
    pub granted: u64,
    /// How many were refused.
    pub refused: u64,
    /// How many had no answer, or one that the broker is busy.
    pub lost: u64,
}

/// How an agent and each of its entries stand.
#[derive(Debug, Drop)]
pub struct Board {
    pub surroundings: Surroundings,
    /// What the broker's clock shows, in seconds since 1970-01-01T00:00:00Z.
    pub broker_now: u64,
    /// How often everything was looked up anew.
    pub beginnings: u64,
    /// The inventory's margin, in seconds.
    pub margin: u32,
    /// A row for each entry that is served, in the order of the inventory, and then one for each that waits.
    pub rows: Listed<BoardRow>,
}
