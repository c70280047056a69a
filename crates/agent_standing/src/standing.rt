//! What is said of an entry, and what an answer makes of it.
ghost use Rattle.std.specs.Prelude.{◌≡◌, ◌-◌, ◌<◌, ◌≤◌, IfSome, length};
ghost use Rattle.agent_standing.specs.Agent.{IsStanding};
ghost use Rattle.agent_standing.specs.Standings.{fresh_standing, known_standing, looked_standing, more, renewed_standing, told_of, troubled};
ghost use Rattle.plan_forest.specs.declared.forest.TheConstants.{END_MAX};

use watch_machine::{End, Millis, Seconds, Watch, WatchReply};

/// What the broker told of an entry in this boot, of the credential that is served.
#[derive(Clone, Copy, Debug, PartialEq, Eq)]
pub struct Told {
    /// The end, in whole seconds of the clock that never steps as it is handed in, rounded down.
    pub end: Seconds,
    /// Whether it can be renewed.
    pub renewable: bool,
}

/// What is wrong with an entry, by the last answer about it.
///
/// Source: Vault, HTTP API, "HTTP status codes".
#[derive(Clone, Copy, Debug, PartialEq, Eq)]
pub enum Trouble {
    /// There was none, or the broker was busy.
    Lost,
    /// A renewal was refused.
    Refused,
    /// The broker refused to look it up. It stays so until an answer tells of it.
    Gone,
}

/// What `status`, `health` and the metrics say of an entry. There is no credential in it.
#[derive(Clone, Copy, Debug, PartialEq, Eq)]
pub struct EntryStanding {
    /// What was told of it; `None` where nothing was, or that it never ends.
    pub told: Option<Told>,
    /// What is wrong with it.
    pub trouble: Option<Trouble>,
    /// The moment that it was last said to reach, where that is before its need, in seconds by the broker's clock.
    pub short: Option<u64>,
    /// When it was last renewed, by the clock that never steps as it was handed in last before the answer.
    pub granted_at: Option<Millis>,
    /// How many of its renewals were granted.
    pub granted: u64,
    /// How many were refused.
    pub refused: u64,
    /// How many had no answer, or one that the broker is busy.
    pub lost: u64,
}

impl EntryStanding {
    /// That of an entry of which nothing was told yet.
    pub fn fresh() -> EntryStanding
        ensures value { result ≡ fresh_standing }
        ensures bounds { IsStanding result }
    {
        EntryStanding {
            told: None,
            trouble: None,
            short: None,
            granted_at: None,
            granted: 0,
            refused: 0,
            lost: 0,
        }
    }

    /// After the answer to its lookup, which the Watch has taken.
    pub(crate) fn looked(self, watch: &Watch, entry: u32, reply: WatchReply) -> EntryStanding
        requires within { entry < length watch.now.forest.entries }
        requires bounds { IsStanding self }
        ensures value { result ≡ looked_standing watch.now entry reply self }
        ensures bounds { IsStanding result }
    {
        match reply {
            WatchReply::Told { .. } => EntryStanding {
                told: told_of(watch, entry),
                trouble: None,
                ..self
            },
            WatchReply::Refused { .. } => EntryStanding {
                trouble: Some(Trouble::Gone),
                ..self
            },
            WatchReply::Busy | WatchReply::Lost => EntryStanding {
                trouble: troubled(self.trouble, Trouble::Lost),
                ..self
            },
        }
    }

    /// After the answer to its renewal, which the Watch has taken.
    pub(crate) fn renewed(self, watch: &Watch, entry: u32, reply: WatchReply) -> EntryStanding
        requires within { entry < length watch.now.forest.entries }
        requires bounds { IsStanding self }
        ensures value { result ≡ renewed_standing watch.now entry reply self }
        ensures bounds { IsStanding result }
    {
        match reply {
            WatchReply::Told { .. } => EntryStanding {
                told: told_of(watch, entry),
                trouble: None,
                granted_at: Some(now_of(watch)),
                granted: more(self.granted),
                ..self
            },
            WatchReply::Refused { .. } => EntryStanding {
                trouble: troubled(self.trouble, Trouble::Refused),
                refused: more(self.refused),
                ..self
            },
            WatchReply::Busy | WatchReply::Lost => EntryStanding {
                trouble: troubled(self.trouble, Trouble::Lost),
                lost: more(self.lost),
                ..self
            },
        }
    }

    /// Once an end is handed in that is known, which the Watch has taken.
    pub(crate) fn known(self, watch: &Watch, entry: u32) -> EntryStanding
        requires within { entry < length watch.now.forest.entries }
        requires bounds { IsStanding self }
        ensures value { result ≡ known_standing watch.now entry self }
        ensures bounds { IsStanding result }
    {
        EntryStanding {
            told: told_of(watch, entry),
            ..self
        }
    }
}

/// What a Watch knows of the end of an entry that was told just now.
fn told_of(watch: &Watch, entry: u32) -> Option<Told>
    requires { entry < length watch.now.forest.entries }
    ensures value { result ≡ told_of watch.now entry }
    ensures bounds { IfSome result (λ t. t.end ≤ END_MAX) }
{
    let track = watch.track(entry);
    match track.end {
        End::At(end) => Some(Told {
            end: (end * 1000).saturating_sub(u64::from(watch.clocks().phase)) / 1000,
            renewable: track.renewable,
        }),
        End::Unknown | End::Never => None,
    }
}

/// The moment that it is, as it was handed in last.
fn now_of(watch: &Watch) -> Millis
    ensures { result ≡ watch.now.clocks.at - watch.now.clocks.phase }
{
    let clocks = watch.clocks();
    clocks.at.saturating_sub(u64::from(clocks.phase))
}

/// A trouble more.
fn troubled(before: Option<Trouble>, trouble: Trouble) -> Option<Trouble>
    ensures { result ≡ troubled before trouble }
{
    match before {
        Some(Trouble::Gone) => Some(Trouble::Gone),
        Some(Trouble::Lost | Trouble::Refused) | None => Some(trouble),
    }
}

/// One more, as far as is counted.
pub(crate) fn more(count: u64) -> u64
    ensures { result ≡ more count }
{
    count.saturating_add(1)
}
