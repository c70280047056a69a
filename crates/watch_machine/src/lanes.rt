use crate::event::{Operation, WatchReply};
use crate::reading::Millis;

/// A request that is out.
#[derive(Clone, Copy, Debug, PartialEq, Eq)]
pub struct Out {
    pub entry: u32,
    pub operation: Operation,
    /// The clock at which it went out.
    pub since: Millis,
    /// The broker has answered another request meanwhile.
    pub heard: bool,
}

/// What became of a request since the last clock.
#[derive(Clone, Copy, Debug, PartialEq, Eq)]
pub struct LaneAnswer {
    /// The clock at which the request went out.
    pub since: Millis,
    /// The broker had answered another request meanwhile.
    pub heard: bool,
    pub reply: WatchReply,
}

/// Whether the broker is there, and how it is spared. Moments and durations are milliseconds.
#[derive(Clone, Copy, Debug, PartialEq, Eq)]
pub struct Presence {
    /// A request had no answer, and none was answered since.
    pub away: bool,
    /// How often later tries were held back while it is away.
    pub count: u32,
    /// Until when later tries are held back.
    pub hold: Millis,
    /// How long answers take.
    pub pace: u32,
}
