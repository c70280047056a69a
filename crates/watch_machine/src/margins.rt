ghost use Rattle.std.specs.Prelude.{◌≡◌, ◌*◌, ◌/◌, ◌≤◌, min};
ghost use Rattle.watch_machine.specs.code.Bounds.{IsEnd};
ghost use Rattle.plan_forest.specs.declared.forest.TheConstants.{END_MAX};
ghost use Rattle.watch_machine.specs.Margins.{asking_margin, has_come, is_in_plan, lead, own_by, own_margin, time};

use crate::track::{End, Grant, Track, has_last_try};
use plan_forest::{END_MAX, Entry};

/// How far a renewal is taken to lead, in seconds: the lesser of the step and the last grant.
pub(crate) fn lead(step: u32, grant: Option<Grant>) -> u32
    ensures { result ≡ lead step grant }
{
    match grant {
        None => step,
        Some(grant) => step.min(grant.seconds),
    }
}

/// The lesser of the margin and three quarters of what a renewal is taken to lead, in seconds.
pub(crate) fn own_by(margin: u32, lead: u32) -> u64
    ensures { result ≡ own_by margin lead }
{
    (margin as u64).min(3 * lead as u64 / 4)
}

/// The own margin of an entry, in seconds.
#[tactic(auto, unfolding(crate::specs::Margins::own_margin))]
fn own_margin(margin: u32, entry: &Entry, track: Track) -> u64
    ensures { result ≡ own_margin margin entry.now track }
{
    own_by(margin, lead(entry.step, track.grant))
}

/// Whether the entry keeps the whole margin.
#[tactic(auto, unfolding(crate::specs::Margins::is_in_plan))]
pub(crate) fn is_in_plan(margin: u32, entry: &Entry, track: Track) -> bool
    ensures { result ≡ is_in_plan margin entry.now track }
{
    own_margin(margin, entry, track) == margin as u64
}

/// How long before its end the entry is asked, in seconds: its own margin, for its last try half of that.
#[tactic(auto, unfolding(crate::specs::Margins::asking_margin))]
fn asking_margin(margin: u32, entry: &Entry, track: Track) -> u64
    ensures { result ≡ asking_margin margin entry.now track }
{
    let own = own_margin(margin, entry, track);
    if has_last_try(track) { own / 2 } else { own }
}

/// The second from which on it is; 0 where its end is unknown.
#[tactic(auto, unfolding(crate::specs::Margins::time))]
pub(crate) fn time(margin: u32, entry: &Entry, track: Track) -> u64
    ensures value { result ≡ time margin entry.now track }
    ensures within { IsEnd track.end → result ≤ END_MAX }
{
    match track.end {
        End::Unknown => 0,
        End::At(end) => end.saturating_sub(asking_margin(margin, entry, track)),
        End::Never => END_MAX,
    }
}

/// Whether that second has come.
#[tactic(auto, unfolding(crate::specs::Margins::has_come))]
pub(crate) fn has_come(margin: u32, entry: &Entry, track: Track, now: u64) -> bool
    ensures { result ≡ has_come margin entry.now track now }
{
    time(margin, entry, track) <= now
}
