ghost use Rattle.std.specs.Prelude.{◌≡◌};
ghost use Rattle.watch_machine.specs.State.{has_last_try, keeps_last_try, no_track};

use crate::event::Operation;
use crate::reading::{Millis, Seconds};

/// When an entry ends, as is believed.
#[derive(Clone, Copy, Debug, PartialEq, Eq)]
pub enum End {
    /// Nobody has told it yet.
    Unknown,
    /// At this second.
    At(Seconds),
    /// It never ends.
    Never,
}

/// A try: a request for an entry that is to go out, or that is out.
#[derive(Clone, Copy, Debug, PartialEq, Eq)]
pub struct Try {
    /// It goes out no sooner than this.
    pub at: Millis,
    /// What is asked next.
    pub operation: Operation,
    /// The entry is to be kept alive by it; else it only owes a lookup.
    pub pressed: bool,
    /// The clock at which the try began, from whose second a first grant counts; `None` once it has failed.
    pub base: Option<Millis>,
    /// How often it failed in a row, at most 20.
    pub fails: u32,
    /// The last failure was no answer, or that the broker was busy.
    pub lost: bool,
    /// The last failure was no answer while others were answered.
    pub alone: bool,
    /// It failed since the last clock, and its pause is not set yet.
    pub failed: bool,
}

/// A grant: its seconds, and the clock from whose second they count.
#[derive(Clone, Copy, Debug, PartialEq, Eq)]
pub struct Grant {
    pub seconds: u32,
    pub from: Millis,
}

/// What is known of an entry and what is to be asked of it.
#[derive(Clone, Copy, Debug, PartialEq, Eq)]
pub struct Track {
    /// The believed end.
    pub end: End,
    /// Whether it can be renewed, by the broker's last word.
    pub renewable: bool,
    /// A grant led it no further.
    pub top: bool,
    /// At its top it may be asked once more: it was not at its top before the last grant, since one that led it further.
    pub last_try: bool,
    /// The last grant.
    pub grant: Option<Grant>,
    /// A lookup is owed.
    pub owes: bool,
    /// The request that is to go out, or is out.
    pub attempt: Option<Try>,
    /// The clock at which it was last asked.
    pub last: Option<Millis>,
    /// Its request is out.
    pub out: bool,
}

impl Track {
    /// What is read past the last entry: one that is led no further, and has nothing to be asked.
    pub(crate) fn none() -> Track
        ensures { result ≡ no_track }
    {
        Track {
            end: End::Unknown,
            renewable: false,
            top: true,
            last_try: false,
            grant: None,
            owes: false,
            attempt: None,
            last: None,
            out: false,
        }
    }
}

/// Whether the entry has its last try: it is at its top, and may be asked once more.
pub(crate) fn has_last_try(track: Track) -> bool
    ensures { result ≡ has_last_try track }
{
    track.top && track.last_try
}

/// Whether it may still get one: no grant since one that led further has left it at its top.
pub(crate) fn keeps_last_try(track: Track) -> bool
    ensures { result ≡ keeps_last_try track }
{
    !track.top && track.last_try
}
