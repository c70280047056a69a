ghost use Rattle.std.specs.Prelude.{◌≡◌, ◌++◌, ◌-◌, ℕ, Some, IfOk, IsPermutation, IsSortedBy, length, map, take, ◌≤◌};
ghost use Rattle.watch_machine.specs.code.Bounds.{IsTrack, WentOutAtReading};
ghost use Rattle.watch_machine.specs.declared.reading.TheConstants.{READING_MAX};
ghost use Rattle.std.specs.List.{All};
ghost use Rattle.std.specs.List.{list_any};
ghost use Rattle.watch_machine.specs.Clocks.{sec};
ghost use Rattle.watch_machine.specs.Sending as Sending;
ghost use Rattle.watch_machine.specs.Sending.{IsGoing, is_alone, is_before, is_partial, out_at, patience, place_of, request, request_of, sent_in, sent_track};
ghost use Rattle.watch_machine.specs.State.{each, track_in};
ghost use Rattle.watch_machine.specs.declared.lanes.Presence.{Presence};
ghost use Rattle.watch_machine.specs.code.Line.{IsFrontOf};
ghost use Rattle.watch_machine.specs.code.Places.{place_is};
ghost use Rattle.watch_machine.specs.declared.sending.Place.{Place};

use crate::command::{Patience, WatchRequest};
use crate::event::Operation;
use crate::lanes::{Out, Presence};
use crate::lines::{is_due, is_first, part, rank};
use crate::reading::{Millis, second};
use crate::track::{Track, Try};
use crate::wanted::is_open;
use plan_forest::{Entry, Forest};
use std::alloc::{AllocError, Global};

/// Where an entry stands in the line.
#[derive(Clone, Copy, Debug, PartialEq, Eq, PartialOrd, Ord)]
pub(crate) struct Place {
    part: u32,
    rank: u64,
    entry: u32,
}

/// Where an entry with that index and track stands.
fn place_of(margin: u32, entry: &Entry, away: bool, now: u64, index: u32, track: Track) -> Place
    requires { IsTrack track }
    ensures { place_is result ≡ place_of margin entry.now away now index track track.attempt }
{
    match track.attempt {
        None => Place {
            part: 0,
            rank: 0,
            entry: index,
        },
        Some(attempt) => Place {
            part: part(margin, entry, away, now, track, attempt),
            rank: rank(track, attempt),
            entry: index,
        },
    }
}

/// Those of the entries that may go out now, by index. The only error is lack of memory.
fn due(
    alloc: Global,
    forest: &Forest,
    presence: Presence,
    at: Millis,
    tracks: &[Track],
) -> Result<Vec<Place>, AllocError>
    requires count { length tracks.now ≡ length forest.now.entries }
    requires tracks { All IsTrack tracks.now }
    ensures { IfOk result (λ places. map place_is places.items ≡ Sending.due forest.now presence at tracks.now) }
{
    let now = second(at);
    let away = presence.away;
    let margin = forest.margin();
    let mut places = Vec::new(alloc);
    for index in 0..forest.len() {
        let track = tracks[index as usize];
        if is_due(presence, at, track) {
            let entry = forest.get(index);
            places.push(place_of(margin, entry, away, now, index, track))?;
        }
    }
    Ok(places)
}

/// Those that are due, in the order in which they go out.
fn in_order(due: Vec<Place>) -> Vec<Place>
    ensures all { IsPermutation due.items result.items }
    ensures sorted { IsSortedBy (λ p q. is_before (place_is p) (place_is q)) result.items }
{
    let mut due = due;
    due.sort_unstable();
    due
}

/// Whether a request of this entry had no answer while others were answered, and its end is ahead or unknown.
fn is_alone(track: Track, now: u64) -> bool
    ensures { result ≡ is_alone now track }
{
    match track.attempt {
        None => false,
        Some(attempt) => attempt.alone && is_open(track, now),
    }
}

/// Whether somebody's was.
#[tactic(auto, unfolding(crate::specs::Sending::is_partial))]
fn is_partial(tracks: &[Track], now: u64) -> bool
    ensures { result ≡ is_partial now tracks.now }
{
    tracks.iter().any(|track| is_alone(*track, now))
}

/// How long a request may take: a quarter of a second for a first try while the broker is away; where somebody is alone twice
/// what answers take, but at least a second, doubled by each failure after the first; else as long as it takes.
#[tactic(auto, unfolding(crate::specs::Sending::patience))]
fn patience(away: bool, partial: bool, pace: u32, attempt: Try) -> Patience
    ensures { result ≡ patience away partial pace attempt }
{
    if away && is_first(attempt) {
        return Patience::AtMost(250);
    }
    if !partial {
        return Patience::Full;
    }
    let once = (2 * pace as u64).max(1000);
    Patience::AtMost(once * 2u64.pow(attempt.fails.min(20).saturating_sub(1)))
}

/// The request of an entry.
fn request_of(presence: Presence, partial: bool, entry: u32, track: Track) -> WatchRequest
    ensures { result ≡ request_of presence.away partial presence.pace entry track.attempt }
{
    match track.attempt {
        None => WatchRequest {
            entry,
            operation: Operation::Look,
            patience: Patience::Full,
        },
        Some(attempt) => WatchRequest {
            entry,
            operation: attempt.operation,
            patience: patience(presence.away, partial, presence.pace, attempt),
        },
    }
}

/// The requests of these places; somebody is asked alone, `partial`, or nobody. The only error is lack of memory.
pub(crate) fn requests_by(
    alloc: Global,
    presence: Presence,
    partial: bool,
    tracks: &[Track],
    picked: &[Place],
) -> Result<Vec<WatchRequest>, AllocError>
    ensures { IfOk result (λ requests. requests.items ≡ map (λ (q : Place). request_of presence.away partial presence.pace q.entry (track_in tracks.now q.entry).attempt) picked.now) }
{
    let mut requests = Vec::with_capacity(alloc, picked.len())?;
    for place in picked {
        let track = track_in(tracks, place.entry);
        requests.push(request_of(presence, partial, place.entry, track))?;
    }
    Ok(requests)
}

/// The track at an index.
fn track_in(tracks: &[Track], index: u32) -> Track
    ensures { result ≡ track_in tracks.now index }
{
    match tracks.get(index as usize) {
        None => Track::none(),
        Some(track) => *track,
    }
}

/// The requests of these places. The only error is lack of memory.
#[tactic(auto, unfolding(crate::specs::Sending::request))]
fn requests(
    alloc: Global,
    presence: Presence,
    now: u64,
    tracks: &[Track],
    picked: &[Place],
) -> Result<Vec<WatchRequest>, AllocError>
    ensures { IfOk result (λ requests. requests.items ≡ map (λ p. request presence now tracks.now (place_is p)) picked.now) }
{
    let partial = is_partial(tracks, now);
    requests_by(alloc, presence, partial, tracks, picked)
}

/// The requests that go out at a clock, and the line in whose front they stood.
#[derive(Debug, Drop)]
pub(crate) struct Front {
    pub(crate) requests: Vec<WatchRequest>,
    pub(crate) line: Vec<Place>,
}

/// The requests that go out at a clock: of the entries that are due as many as lanes are free. The only error is lack of memory.
pub(crate) fn going(
    alloc: Global,
    forest: &Forest,
    presence: Presence,
    at: Millis,
    tracks: &[Track],
    lanes: usize,
) -> Result<Front, AllocError>
    requires count { length tracks.now ≡ length forest.now.entries }
    requires tracks { All IsTrack tracks.now }
    ensures going { IfOk result (λ going. IsGoing forest.now presence at tracks.now lanes going.requests.items) }
    ensures line { IfOk result (λ going. IsFrontOf forest.now presence at tracks.now going.requests.items going.line.items) }
{
    let line = in_order(due(alloc, forest, presence, at, tracks)?);
    let picked = lanes.min(line.len());
    let requests = requests(alloc, presence, second(at), tracks, &line[..picked])?;
    Ok(Front { requests, line })
}

/// An entry whose request goes out.
fn sent(track: Track, at: Millis) -> Track
    requires track { IsTrack track }
    requires at { at ≤ READING_MAX }
    ensures value { result ≡ sent_track at track }
    ensures bounds { IsTrack result }
{
    Track {
        last: Some(at),
        out: true,
        ..track
    }
}

/// Notes of each entry whose request goes out that it does.
pub(crate) fn send_all(tracks: &mut [Track], at: Millis, requests: &[WatchRequest])
    requires at { at ≤ READING_MAX }
    requires tracks { All IsTrack tracks.old }
    ensures value { tracks.new ≡ each (sent_in at requests.now) tracks.old }
    ensures bounds { All IsTrack tracks.new }
{
    for request in requests {
        let index = request.entry as usize;
        if index < tracks.len() {
            tracks[index] = sent(tracks[index], at);
        }
    }
}

/// A request as it is out.
fn out_at(at: Millis, request: WatchRequest) -> Out
    requires { at ≤ READING_MAX }
    ensures value { result ≡ out_at at request }
    ensures bounds { WentOutAtReading result }
{
    Out {
        entry: request.entry,
        operation: request.operation,
        since: at,
        heard: false,
    }
}

/// The requests that are out, with those that go out now. The only error is lack of memory.
pub(crate) fn out_with(
    alloc: Global,
    out: &[Out],
    at: Millis,
    requests: &[WatchRequest],
) -> Result<Vec<Out>, AllocError>
    requires at { at ≤ READING_MAX }
    requires out { All WentOutAtReading out.now }
    ensures value { IfOk result (λ all. all.items ≡ out.now ++ map (out_at at) requests.now) }
    ensures bounds { IfOk result (λ all. All WentOutAtReading all.items) }
{
    let mut all = Vec::from_slice(alloc, out)?;
    for request in requests {
        all.push(out_at(at, *request))?;
    }
    Ok(all)
}
