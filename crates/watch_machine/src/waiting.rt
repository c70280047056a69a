ghost use Rattle.std.specs.Prelude.{◌≡◌, ℕ, ◌<◌, length, map, ◌≤◌};
ghost use Rattle.watch_machine.specs.code.Bounds.{IsTrack};
ghost use Rattle.watch_machine.specs.declared.reading.TheConstants.{READING_MAX};
ghost use Rattle.std.specs.List.{All};
ghost use Rattle.std.specs.List.{range_with_len};
ghost use Rattle.watch_machine.specs.code.View.{need_at};
ghost use Rattle.plan_forest.specs.Forest.{entry_at};
ghost use Rattle.watch_machine.specs.State.{track_in};
ghost use Rattle.watch_machine.specs.Wait.{latest, next_of, time_at, try_at};
ghost use Rattle.watch_machine.specs.Wanted.{least};

use crate::beginning::is_pressed;
use crate::lanes::Presence;
use crate::lines::ready;
use crate::margins::time;
use crate::needs::Needs;
use crate::reading::Millis;
use crate::track::Track;
use crate::wanted::wants;
use plan_forest::{Entry, Forest};

/// The clocks are compared at least so often: every half minute, and four times a margin.
#[tactic(auto, unfolding(crate::specs::Wait::latest))]
pub(crate) fn latest(margin: u32, at: Millis) -> Millis
    requires { at ≤ READING_MAX }
    ensures { result ≡ latest margin at }
{
    at + (margin as u64 * 250).min(30_000).max(1000)
}

/// The moment from which an entry's try may go out, where that is ahead; else `latest`. One that is due waits for a lane, and an
/// answer comes first.
fn try_at(presence: Presence, at: Millis, latest: Millis, track: Track) -> Millis
    requires { IsTrack track }
    ensures { result ≡ try_at presence at latest track track.attempt }
{
    match track.attempt {
        None => latest,
        Some(attempt) => {
            let ready = ready(presence, track, attempt);
            if at < ready { ready } else { latest }
        }
    }
}

/// The time of an entry that carries that need, where it is wanted and not pressed; else `latest`.
fn time_at(margin: u32, entry: &Entry, track: Track, need: u64, latest: Millis) -> Millis
    requires { IsTrack track }
    ensures { result ≡ time_at margin entry.now track need latest }
{
    if wants(track, need) && !is_pressed(track) {
        time(margin, entry, track) * 1000
    } else {
        latest
    }
}

/// The moment at which an entry has something to be done: none while its request is out.
#[tactic(auto, unfolding(crate::specs::Wait::next_of))]
fn next_of(
    margin: u32,
    entry: &Entry,
    need: u64,
    presence: Presence,
    at: Millis,
    track: Track,
) -> Millis
    requires track { IsTrack track }
    requires at { at ≤ READING_MAX }
    ensures { result ≡ next_of margin entry.now need presence at track }
{
    let latest = latest(margin, at);
    if track.out {
        return latest;
    }
    let time = time_at(margin, entry, track, need, latest);
    try_at(presence, at, latest, track).min(time)
}

/// The moment until which there is nothing to be done but to take answers; `needs` has what the entries carry.
pub(crate) fn wait(
    forest: &Forest,
    tracks: &[Track],
    needs: &Needs,
    presence: Presence,
    at: Millis,
) -> Millis
    requires count { length tracks.now ≡ length forest.now.entries }
    requires needs { length needs.now.cut ≡ length forest.now.entries }
    requires at { at ≤ READING_MAX }
    requires tracks { All IsTrack tracks.now }
    ensures { result ≡ least (latest forest.now.margin at) (map (λ i. next_of forest.now.margin (entry_at forest.now.entries i) (need_at needs.now i) presence at (track_in tracks.now i)) (range_with_len 0 (length forest.now.entries))) }
{
    let margin = forest.margin();
    let mut least = latest(margin, at);
    for index in 0..forest.len() {
        let entry = forest.get(index);
        let track = tracks[index as usize];
        let next = next_of(margin, entry, needs.need(index), presence, at, track);
        least = least.min(next);
    }
    least
}
