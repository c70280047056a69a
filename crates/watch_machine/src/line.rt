ghost use Rattle.std.specs.Prelude.{◌≡◌, ◌≤◌, ◌<◌, ◌+◌, ℕ, IfOk, IsTrue, drop, false, length, map, min, true};
ghost use Rattle.watch_machine.specs.code.Bounds.{IsClocks, IsTrack};
ghost use Rattle.std.specs.List.{All};
ghost use Rattle.std.specs.List.{list_any};
ghost use Rattle.watch_machine.specs.Clocks.{sec};
ghost use Rattle.watch_machine.specs.Lines.{is_due};
ghost use Rattle.watch_machine.specs.Sending.{is_alone_try, is_partial};
ghost use Rattle.watch_machine.specs.State.{track_in};
ghost use Rattle.watch_machine.specs.Wait.{latest};
ghost use Rattle.watch_machine.specs.declared.lull.TheConstants.{NEVER};
ghost use Rattle.watch_machine.specs.declared.reading.TheConstants.{READING_MAX};
ghost use Rattle.watch_machine.specs.code.Line.{IsInLine, IsKnown, IsLine, calm, first_left, left_at, left_by, moved, requests_of, rest_of, time_in, try_left};
ghost use Rattle.watch_machine.specs.code.Lull.{GoesOn};
ghost use Rattle.watch_machine.specs.code.View.{HasNeeds, need_at};
ghost use Rattle.watch_machine.specs.declared.track.Track.{Track};

use crate::clocks::{Clocks, goes_on};
use crate::command::WatchRequest;
use crate::lanes::Presence;
use crate::lines::{is_due, ready};
use crate::lull::{NEVER, first_past, is_failed, is_owed_alone, time_due};
use crate::margins::time;
use crate::needs::Needs;
use crate::reading::{Millis, Seconds, second};
use crate::sending::{Place, requests_by};
use crate::track::Track;
use crate::wanted::wants;
use plan_forest::{Entry, Forest};
use std::alloc::{AllocError, Global};

/// Those that wait for a lane, in the order in which they go out, and how long nothing else is to be done of any entry.
#[derive(Debug, Drop)]
pub(crate) struct Line {
    /// Whether it is known at all.
    pub(crate) known: bool,
    /// Where they stand; those before `from` have gone out.
    pub(crate) places: Vec<Place>,
    pub(crate) from: usize,
    /// The clocks at which it was made.
    pub(crate) clocks: Clocks,
    /// The first moment at which something is to be done of an entry that was not due then; [`NEVER`] where there is none.
    pub(crate) next: Millis,
    /// A moment before which no time comes of those that were due then.
    pub(crate) beyond: Millis,
    /// The first second in which a need that is carried, or an end that was ahead, is past, or a time comes that was ahead of one
    /// that was due; [`NEVER`] where there is none.
    pub(crate) lasting: Seconds,
}

/// The moment from which on its try may go out, where that is after `since`; [`NEVER`] where it is not, or has none.
fn try_left(presence: Presence, since: Millis, track: Track) -> Millis
    requires { IsTrack track }
    ensures { result ≡ try_left presence since track track.attempt }
{
    match track.attempt {
        None => NEVER,
        Some(attempt) => {
            let ready = ready(presence, track, attempt);
            if ready <= since { NEVER } else { ready }
        }
    }
}

/// The moment at which something is to be done of an entry that carries that need, but that its try goes out where that might at
/// `since`: at once where its try has failed or is to be let go, and [`NEVER`] while its request is out.
#[tactic(auto, unfolding(crate::specs::code::Line::left_at))]
fn left_at(
    margin: u32,
    entry: &Entry,
    need: u64,
    presence: Presence,
    since: Millis,
    track: Track,
) -> Millis
    requires { IsTrack track }
    ensures { result ≡ left_at margin entry.now need presence since track }
{
    if is_failed(track) {
        0
    } else if track.out {
        NEVER
    } else if wants(track, need) {
        try_left(presence, since, track).min(time_due(margin, entry, track))
    } else if is_owed_alone(track) {
        try_left(presence, since, track)
    } else {
        0
    }
}

/// The first of these; `needs` has what the entries carry.
fn first_left(
    forest: &Forest,
    tracks: &[Track],
    needs: &Needs,
    presence: Presence,
    since: Millis,
) -> Millis
    requires count { length tracks.now ≡ length forest.now.entries }
    requires needs { length needs.now.cut ≡ length forest.now.entries }
    requires tracks { All IsTrack tracks.now }
    ensures { result ≡ first_left NEVER forest.now tracks.now (need_at needs.now) presence since }
{
    let margin = forest.margin();
    let mut least = NEVER;
    for index in 0..forest.len() {
        let entry = forest.get(index);
        let track = tracks[index as usize];
        let left = left_at(margin, entry, needs.need(index), presence, since, track);
        least = least.min(left);
    }
    least
}

/// The earlier of a moment so far and of that of an entry, where it is due.
fn beyond_with(beyond: Millis, left: Millis, is_due: bool) -> Millis
    ensures least { result ≤ beyond }
    ensures due { IsTrue is_due → result ≤ left }
{
    if is_due { beyond.min(left) } else { beyond }
}

/// The first of these of those that are due.
fn first_beyond(
    forest: &Forest,
    tracks: &[Track],
    needs: &Needs,
    presence: Presence,
    since: Millis,
) -> Millis
    requires count { length tracks.now ≡ length forest.now.entries }
    requires needs { length needs.now.cut ≡ length forest.now.entries }
    requires tracks { All IsTrack tracks.now }
    ensures { (i : ℕ) → i < length forest.now.entries → is_due presence since (track_in tracks.now i) ≡ true → result ≤ left_by forest.now tracks.now (need_at needs.now) presence since i }
{
    let margin = forest.margin();
    let mut beyond = NEVER;
    for index in 0..forest.len() {
        let entry = forest.get(index);
        let track = tracks[index as usize];
        let left = left_at(margin, entry, needs.need(index), presence, since, track);
        beyond = beyond_with(beyond, left, is_due(presence, since, track));
    }
    beyond
}

/// The earlier of a second so far and of the time of an entry, where that is ahead and the entry is due.
fn coming_with(coming: Seconds, time: Seconds, is_due: bool, now: Seconds) -> Seconds
    ensures least { result ≤ coming }
    ensures due { IsTrue is_due → now < time → result ≤ time }
{
    if is_due && now < time {
        coming.min(time)
    } else {
        coming
    }
}

/// The first second in which a time comes that is ahead at `since`, of those that are due then; [`NEVER`] where there is none.
fn first_coming(forest: &Forest, tracks: &[Track], presence: Presence, since: Millis) -> Seconds
    requires count { length tracks.now ≡ length forest.now.entries }
    requires tracks { All IsTrack tracks.now }
    ensures { (i : ℕ) → i < length forest.now.entries → is_due presence since (track_in tracks.now i) ≡ true → sec since < time_in forest.now tracks.now i → result ≤ time_in forest.now tracks.now i }
{
    let now = second(since);
    let margin = forest.margin();
    let mut coming = NEVER;
    for index in 0..forest.len() {
        let track = tracks[index as usize];
        let time = time(margin, forest.get(index), track);
        coming = coming_with(coming, time, is_due(presence, since, track), now);
    }
    coming
}

/// Whether its request had no answer while others were answered.
fn is_alone(track: Track) -> bool
    ensures { result ≡ is_alone_try track.attempt }
{
    match track.attempt {
        None => false,
        Some(attempt) => attempt.alone,
    }
}

/// Whether somebody's had none.
fn is_any_alone(tracks: &[Track]) -> bool
    ensures { result ≡ list_any (λ (x : Track). is_alone_try x.attempt) tracks.now }
{
    tracks.iter().any(|track| is_alone(*track))
}

/// Whether the broker is there and nobody is asked alone.
fn is_calm(presence: Presence, tracks: &[Track]) -> bool
    ensures { IsTrue result → (presence.away ≡ false) × (list_any (λ (x : Track). is_alone_try x.attempt) tracks.now ≡ false) }
{
    !presence.away && !is_any_alone(tracks)
}

/// Whether what is left of a line of which so many go out is kept.
fn is_kept(from: usize, presence: Presence, tracks: &[Track]) -> bool
    ensures { IsTrue result → (presence.away ≡ false) × (list_any (λ (x : Track). is_alone_try x.attempt) tracks.now ≡ false) }
{
    from > 0 && is_calm(presence, tracks)
}

/// The presence, whatever answers take.
fn calm(presence: Presence) -> Presence
    ensures { result ≡ calm presence }
{
    Presence {
        pace: 0,
        ..presence
    }
}

impl Line {
    /// Nothing is known.
    pub(crate) fn none(alloc: Global) -> Line
        ensures { result.known ≡ false }
    {
        Line {
            known: false,
            places: Vec::new(alloc),
            from: 0,
            clocks: Clocks::unset(),
            next: 0,
            beyond: 0,
            lasting: 0,
        }
    }

    /// What is left in line of these places where those before `from` have gone out: of entries which carry these needs by these
    /// clocks. Where nobody goes out it is not kept, nor while the broker is away or somebody is asked alone.
    pub(crate) fn of(
        places: Vec<Place>,
        from: usize,
        forest: &Forest,
        tracks: &[Track],
        needs: &Needs,
        clocks: Clocks,
        presence: Presence,
    ) -> Line
        requires count { length tracks.now ≡ length forest.now.entries }
        requires needs { length needs.now.cut ≡ length forest.now.entries }
        requires tracks { All IsTrack tracks.now }
        ensures { HasNeeds forest.now.entries tracks.now clocks needs.now → IsInLine forest.now (calm presence) clocks.at tracks.now (drop from places.items) → IsKnown forest.now tracks.now presence result }
    {
        let at = clocks.at;
        let calm = calm(presence);
        let known = is_kept(from, presence, tracks);
        let next = first_left(forest, tracks, needs, calm, at);
        let beyond = first_beyond(forest, tracks, needs, calm, at);
        let past = first_past(tracks, needs, forest.len(), second(at));
        let coming = first_coming(forest, tracks, calm, at);
        let lasting = past.min(coming);
        Line {
            known,
            places,
            from,
            clocks,
            next,
            beyond,
            lasting,
        }
    }

    /// It is known no more.
    pub(crate) fn ended(self) -> Line
        ensures { result.known ≡ false }
    {
        let mut line = self;
        line.known = false;
        line
    }

    /// One more was answered, whose time does not come before that moment, nor its end before that second.
    pub(crate) fn answered(self, time: Millis, end: Seconds) -> Line
        ensures { result ≡ record self { beyond = min self.beyond time; lasting = min self.lasting end } }
    {
        let mut line = self;
        line.beyond = line.beyond.min(time);
        line.lasting = line.lasting.min(end);
        line
    }

    /// Those that wait.
    pub(crate) fn rest(&self) -> &[Place]
        ensures { result.now ≡ rest_of self.now }
    {
        let from = self.from.min(self.places.len());
        &self.places[from..]
    }

    /// The requests of those in front for whom lanes are free, where nobody is asked alone. The only error is lack of memory.
    #[tactic(auto, unfolding(crate::specs::Sending::request))]
    pub(crate) fn front(
        &self,
        alloc: Global,
        lanes: usize,
        presence: Presence,
        now: Seconds,
        tracks: &[Track],
    ) -> Result<Vec<WatchRequest>, AllocError>
        requires { is_partial now tracks.now ≡ false }
        ensures { IfOk result (λ requests. requests.items ≡ requests_of presence now tracks.now lanes (rest_of self.now)) }
    {
        let rest = self.rest();
        let picked = lanes.min(rest.len());
        requests_by(alloc, presence, false, tracks, &rest[..picked])
    }

    /// After so many more have gone out.
    pub(crate) fn moved(self, count: usize) -> Line
        requires { count ≤ length (rest_of self) }
        ensures { result ≡ moved self count }
    {
        let mut line = self;
        line.from = line.from.min(line.places.len()) + count;
        line
    }

    /// Whether nothing else is to be done at these clocks, where `latest` is the latest moment until which a clock waits.
    pub(crate) fn lasts(&self, clocks: Clocks, latest: Millis) -> bool
        ensures { IsTrue result → (GoesOn clocks self.now.clocks) × (latest ≤ self.now.beyond) × (clocks.at < self.now.next) × (sec clocks.at < self.now.lasting) }
    {
        goes_on(clocks, self.clocks)
            && latest <= self.beyond
            && clocks.at < self.next
            && second(clocks.at) < self.lasting
    }
}
