ghost use Rattle.std.specs.Prelude.{◌≡◌, ◌≤◌, ◌<◌, ℕ, IfSome, IsTrue, length};
ghost use Rattle.watch_machine.specs.code.Bounds.{IsTrack};
ghost use Rattle.std.specs.List.{All};
ghost use Rattle.watch_machine.specs.Clocks.{sec};
ghost use Rattle.watch_machine.specs.State.{track_in};
ghost use Rattle.watch_machine.specs.Wanted.{believed};
ghost use Rattle.watch_machine.specs.declared.lull.TheConstants.{NEVER};
ghost use Rattle.watch_machine.specs.code.Lull.{IsLull, due_at, is_failed_try, is_owed_alone, next_due, time_due, try_due};
ghost use Rattle.watch_machine.specs.code.View.{HasNeeds, need_at};

use crate::beginning::is_pressed;
use crate::clocks::Clocks;
use crate::command::WatchRequest;
use crate::lanes::Presence;
use crate::lines::ready;
use crate::margins::time;
use crate::needs::Needs;
use crate::outlook::{Next, first_time};
use crate::reading::{Millis, Seconds, second};
use crate::track::Track;
use crate::wanted::{believed, is_alive, wants};
use plan_forest::{Entry, Forest};

/// Later than every moment.
pub(crate) const NEVER: u64 = 18446744073709551615;

/// How long nothing is to be done of any entry but to take answers.
#[derive(Clone, Copy, Debug)]
pub(crate) struct Lull {
    /// The first moment at which a try may go out, or at which the time of an entry has come; [`NEVER`] where there is none.
    pub(crate) next: Millis,
    /// The first second in which a need that is carried, or an end that was ahead, is past; [`NEVER`] where there is none.
    pub(crate) lasting: Seconds,
    /// The first time of the entries that are wanted and whose end is ahead.
    pub(crate) first: Option<Next>,
}

/// Whether its try failed since the last clock, so that the next one sets its pause.
pub(crate) fn is_failed(track: Track) -> bool
    ensures { result ≡ is_failed_try track.attempt }
{
    match track.attempt {
        None => false,
        Some(attempt) => attempt.failed,
    }
}

/// Whether nothing is to be asked of it, or only the lookup that it owes.
pub(crate) fn is_owed_alone(track: Track) -> bool
    ensures { result ≡ is_owed_alone track.owes track.attempt }
{
    match track.attempt {
        None => true,
        Some(attempt) => !attempt.pressed && track.owes,
    }
}

/// The moment from which on its try may go out, [`NEVER`] where it has none.
fn try_due(presence: Presence, track: Track) -> Millis
    requires { IsTrack track }
    ensures { result ≡ try_due presence track track.attempt }
{
    match track.attempt {
        None => NEVER,
        Some(attempt) => ready(presence, track, attempt),
    }
}

/// The moment at which its time comes, [`NEVER`] where it is pressed.
pub(crate) fn time_due(margin: u32, entry: &Entry, track: Track) -> Millis
    requires { IsTrack track }
    ensures { result ≡ time_due margin entry.now track }
{
    if is_pressed(track) {
        NEVER
    } else {
        time(margin, entry, track) * 1000
    }
}

/// The moment at which something is to be done of an entry that carries that need: at once where its try has failed or is to be
/// let go, and [`NEVER`] while its request is out.
#[tactic(auto, unfolding(crate::specs::code::Lull::due_at))]
fn due_at(margin: u32, entry: &Entry, need: u64, presence: Presence, track: Track) -> Millis
    requires { IsTrack track }
    ensures { result ≡ due_at margin entry.now need presence track }
{
    if is_failed(track) {
        0
    } else if track.out {
        NEVER
    } else if wants(track, need) {
        try_due(presence, track).min(time_due(margin, entry, track))
    } else if is_owed_alone(track) {
        try_due(presence, track)
    } else {
        0
    }
}

/// The first of these; `needs` has what the entries carry.
fn next_due(forest: &Forest, tracks: &[Track], needs: &Needs, presence: Presence) -> Millis
    requires count { length tracks.now ≡ length forest.now.entries }
    requires needs { length needs.now.cut ≡ length forest.now.entries }
    requires tracks { All IsTrack tracks.now }
    ensures { result ≡ next_due forest.now tracks.now (need_at needs.now) presence }
{
    let margin = forest.margin();
    let mut least = NEVER;
    for index in 0..forest.len() {
        let entry = forest.get(index);
        let track = tracks[index as usize];
        let due = due_at(margin, entry, needs.need(index), presence, track);
        least = least.min(due);
    }
    least
}

/// The earliest of a second so far, of that need, if there is one, and of the track's end, if it is ahead.
fn lasting_with(lasting: Seconds, need: u64, track: Track, now: u64) -> Seconds
    ensures least { result ≤ lasting }
    ensures need { 0 < need → result ≤ need }
    ensures end { now < believed track.end → result ≤ believed track.end }
{
    let least = if need == 0 {
        lasting
    } else {
        lasting.min(need)
    };
    if is_alive(track, now) {
        least.min(believed(track.end))
    } else {
        least
    }
}

/// The first second in which one of the needs that these `count` entries carry, or one of their ends that is ahead, is past.
pub(crate) fn first_past(tracks: &[Track], needs: &Needs, count: u32, now: u64) -> Seconds
    requires tracks { count ≡ length tracks.now }
    requires needs { count ≡ length needs.now.cut }
    ensures need { (i : ℕ) → i < count → 0 < need_at needs.now i → result ≤ need_at needs.now i }
    ensures end { (i : ℕ) → i < count → now < believed (track_in tracks.now i).end → result ≤ believed (track_in tracks.now i).end }
{
    let mut lasting = NEVER;
    for index in 0..count {
        lasting = lasting_with(lasting, needs.need(index), tracks[index as usize], now);
    }
    lasting
}

impl Lull {
    /// That of entries which carry these needs by these clocks.
    fn of(
        forest: &Forest,
        tracks: &[Track],
        needs: &Needs,
        clocks: Clocks,
        presence: Presence,
    ) -> Lull
        requires count { length tracks.now ≡ length forest.now.entries }
        requires needs { length needs.now.cut ≡ length forest.now.entries }
        requires tracks { All IsTrack tracks.now }
        ensures { HasNeeds forest.now.entries tracks.now clocks needs.now → IsLull forest.now tracks.now clocks presence result }
    {
        let next = next_due(forest, tracks, needs, presence);
        let lasting = first_past(tracks, needs, forest.len(), second(clocks.at));
        let first = first_time(forest, tracks, needs, clocks, false);
        Lull {
            next,
            lasting,
            first,
        }
    }

    /// The same, where no requests go out: their answers would end it.
    pub(crate) fn after(
        requests: &[WatchRequest],
        forest: &Forest,
        tracks: &[Track],
        needs: &Needs,
        clocks: Clocks,
        presence: Presence,
    ) -> Option<Lull>
        requires count { length tracks.now ≡ length forest.now.entries }
        requires needs { length needs.now.cut ≡ length forest.now.entries }
        requires tracks { All IsTrack tracks.now }
        ensures { IfSome result (λ lull. HasNeeds forest.now.entries tracks.now clocks needs.now → IsLull forest.now tracks.now clocks presence lull) }
    {
        if requests.is_empty() {
            Some(Lull::of(forest, tracks, needs, clocks, presence))
        } else {
            None
        }
    }

    /// Whether it lasts at that moment.
    pub(crate) fn lasts(self, at: Millis) -> bool
        ensures { IsTrue result → (at < self.next) × (sec at < self.lasting) }
    {
        at < self.next && second(at) < self.lasting
    }
}
