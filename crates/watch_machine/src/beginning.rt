ghost use Rattle.std.specs.Prelude.{◌≡◌, ◌≤◌, ◌<◌, ◌&&◌, ℕ, Some, false, is_none, length};
ghost use Rattle.watch_machine.specs.code.Bounds.{IsTrack, IsTry};
ghost use Rattle.std.specs.List.{All};
ghost use Rattle.std.specs.List.{list_any};
ghost use Rattle.plan_needs.specs.Carried.{load_at};
ghost use Rattle.watch_machine.specs.Beginning.{beginning, called_by, hastened, is_past, is_pressed, is_start, is_urgent, owed, owing, owing_lookup, owing_past, soon, untopped_track};
ghost use Rattle.watch_machine.specs.State.{each};

use crate::event::Operation;
use crate::lines::rested;
use crate::notes::BeginReason;
use crate::reading::{Millis, second};
use crate::track::{Track, Try, keeps_last_try};
use crate::wanted::{is_alive, is_open};
use plan_needs::Carried;

/// Whether the entry is to be kept alive by its try.
pub(crate) fn is_pressed(track: Track) -> bool
    ensures { result ≡ is_pressed track }
{
    match track.attempt {
        None => false,
        Some(attempt) => attempt.pressed,
    }
}

/// Whether it is pressed, and its end is ahead.
fn is_urgent(track: Track, now: u64) -> bool
    ensures { result ≡ is_urgent now track }
{
    is_pressed(track) && is_alive(track, now)
}

/// Whether one of them is.
pub(crate) fn is_any_urgent(tracks: &[Track], now: u64) -> bool
    ensures { result ≡ list_any (is_urgent now) tracks.now }
{
    tracks.iter().any(|track| is_urgent(*track, now))
}

/// Whether the last beginning is so long ago.
pub(crate) fn is_past(span: u32, begun: Option<Millis>, at: Millis) -> bool
    requires { 0 < span }
    ensures { result ≡ is_past span begun at }
{
    match begun {
        None => false,
        Some(begun) => at.saturating_sub(begun) >= span as u64,
    }
}

/// Now, but no sooner than an entry has rested.
pub(crate) fn soon(at: Millis, track: Track) -> Millis
    requires { IsTrack track }
    ensures { result ≡ soon at track }
{
    at.max(rested(track.last))
}

/// A lookup that is only owed, from a moment on.
pub(crate) fn owed(from: Millis) -> Try
    ensures value { result ≡ owed from }
    ensures bounds { IsTry result }
{
    Try {
        at: from,
        operation: Operation::Look,
        pressed: false,
        base: None,
        fails: 0,
        lost: false,
        alone: false,
        failed: false,
    }
}

/// A try that goes out no later than that.
fn hastened(attempt: Try, from: Millis) -> Try
    requires { IsTry attempt }
    ensures value { result ≡ hastened attempt from }
    ensures bounds { IsTry result }
{
    Try {
        at: attempt.at.min(from),
        ..attempt
    }
}

/// An entry owes a lookup, at once; one that is out only owes it.
pub(crate) fn owing_lookup(track: Track, at: Millis) -> Track
    requires { IsTrack track }
    ensures value { result ≡ owing_lookup at track }
    ensures bounds { IsTrack result }
{
    if track.out {
        return Track {
            owes: true,
            ..track
        };
    }
    let from = soon(at, track);
    let attempt = match track.attempt {
        None => owed(from),
        Some(attempt) => hastened(attempt, from),
    };
    Track {
        owes: true,
        attempt: Some(attempt),
        ..track
    }
}

/// Whether everything is looked up anew for the first time.
pub(crate) fn is_start(why: BeginReason) -> bool
    ensures { result ≡ is_start why }
{
    match why {
        BeginReason::Start => true,
        BeginReason::Asked | BeginReason::Jump | BeginReason::Day => false,
    }
}

/// An entry at a beginning, the `first` or a later one: a lookup is owed of one that is called and has not ended, and at the first
/// also where it has: such an end was handed in as known.
#[tactic(auto, unfolding(crate::specs::Beginning::owing))]
fn owing(track: Track, first: bool, called: bool, at: Millis) -> Track
    requires { IsTrack track }
    ensures value { result ≡ owing at first called track }
    ensures bounds { IsTrack result }
{
    if called && (first || is_open(track, second(at))) {
        owing_lookup(track, at)
    } else {
        track
    }
}

/// An entry whose end is handed in as known: where that is past a lookup is owed.
#[tactic(auto, unfolding(crate::specs::Beginning::owing_past))]
pub(crate) fn owing_past(track: Track, at: Millis) -> Track
    requires { IsTrack track }
    ensures value { result ≡ owing_past at track }
    ensures bounds { IsTrack result }
{
    if is_alive(track, second(at)) {
        track
    } else {
        owing_lookup(track, at)
    }
}

/// Whether an entry is needed by what it carries, or may be by what it carries as the needs are written.
fn is_called(dated: bool, need: u64, written: u64) -> bool
    ensures { result ≡ called_by dated need written }
{
    need > 0 || (!dated && written > 0)
}

/// A track that is not at the top, and has no last try: that of one that was at its top is over.
pub(crate) fn untopped(track: Track) -> Track
    requires { IsTrack track }
    ensures value { result ≡ untopped_track track }
    ensures bounds { IsTrack result }
{
    Track {
        top: false,
        last_try: keeps_last_try(track),
        ..track
    }
}

/// Nobody is at the top any more, or has its last try.
pub(crate) fn clear_tops(tracks: &mut [Track])
    requires { All IsTrack tracks.old }
    ensures value { tracks.new ≡ each (λ i. untopped_track) tracks.old }
    ensures bounds { All IsTrack tracks.new }
{
    for index in 0..tracks.len() {
        tracks[index] = untopped(tracks[index]);
    }
}

/// Each entry that is called and has not ended owes a lookup, at the `first` beginning also one that has. There are `count` entries;
/// `needs` has what they carry, `written` what they carry as the needs are written.
pub(crate) fn owe_all(
    tracks: &mut [Track],
    count: u32,
    first: bool,
    at: Millis,
    dated: bool,
    needs: &Carried,
    written: &Carried,
)
    requires count { count ≡ length tracks.old }
    requires needs { length needs.now ≡ length tracks.old }
    requires written { length written.now ≡ length tracks.old }
    requires tracks { All IsTrack tracks.old }
    ensures value { tracks.new ≡ each (λ i. owing at first (called_by dated (load_at needs.now i).need (load_at written.now i).need)) tracks.old }
    ensures bounds { All IsTrack tracks.new }
{
    for index in 0..count {
        let called = is_called(dated, needs.need(index), written.need(index));
        let track = tracks[index as usize];
        tracks[index as usize] = owing(track, first, called, at);
    }
}
