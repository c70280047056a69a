ghost use Rattle.std.specs.Prelude.{◌≡◌, ℕ, Some, map, min};
ghost use Rattle.watch_machine.specs.code.Bounds.{IsTrack, IsTry, WentOutAtReading};
ghost use Rattle.std.specs.List.{All};
ghost use Rattle.watch_machine.specs.Answers.{back_track, back_try, due_again, failing, heard, is_back, link, presence_gone, without_request};
ghost use Rattle.watch_machine.specs.State.{each};

use crate::event::Operation;
use crate::lanes::{Out, Presence};
use crate::lines::rested;
use crate::reading::Millis;
use crate::track::{Track, Try};

/// A try that failed: what is asked next, whether no answer came or the broker was busy, and whether others were answered
/// meanwhile.
pub(crate) fn failing(attempt: Try, next: Operation, lost: bool, alone: bool) -> Try
    ensures value { result ≡ failing attempt next lost alone }
    ensures bounds { IsTry result }
{
    Try {
        operation: next,
        base: None,
        fails: attempt.fails.saturating_add(1).min(20),
        lost,
        alone,
        failed: true,
        ..attempt
    }
}

/// Takes the request of that entry out of those that are out.
#[tactic(auto, unfolding(crate::specs::Answers::without_request))]
pub(crate) fn take_out(out: &mut Vec<Out>, entry: u32)
    requires { All WentOutAtReading out.old.items }
    ensures value { out.new.items ≡ without_request entry out.old.items }
    ensures bounds { All WentOutAtReading out.new.items }
{
    out.retain(|request| request.entry != entry);
}

fn heard(request: Out) -> Out
    requires { WentOutAtReading request }
    ensures value { result ≡ heard request }
    ensures bounds { WentOutAtReading result }
{
    Out {
        heard: true,
        ..request
    }
}

/// A real answer came to another: all that are out hear of it.
pub(crate) fn hear_all(out: &mut [Out])
    requires { All WentOutAtReading out.old }
    ensures value { out.new ≡ map heard out.old }
    ensures bounds { All WentOutAtReading out.new }
{
    for index in 0..out.len() {
        out[index] = heard(out[index]);
    }
}

/// A try that was lost, due at once, but no sooner than its entry has rested: it pauses no longer, and one that failed since the
/// last clock does not begin to.
fn due_again(attempt: Try, from: Millis) -> Try
    requires { IsTry attempt }
    ensures value { result ≡ due_again attempt from }
    ensures bounds { IsTry result }
{
    let at = if attempt.failed {
        from
    } else {
        attempt.at.min(from)
    };
    Try {
        at,
        failed: false,
        ..attempt
    }
}

/// An entry when the broker is there again: what was lost is due at once, and what is out was asked in the absence, so that it is
/// no failure.
#[tactic(auto, unfolding(crate::specs::Answers::back_track))]
fn back(track: Track) -> Track
    requires { IsTrack track }
    ensures value { result ≡ back_track track }
    ensures bounds { IsTrack result }
{
    let attempt = match track.attempt {
        None => None,
        Some(attempt) => Some(back_try(track, attempt)),
    };
    Track { attempt, ..track }
}

fn back_try(track: Track, attempt: Try) -> Try
    requires track { IsTrack track }
    requires attempt { IsTry attempt }
    ensures value { Some result ≡ back_try track (Some attempt) }
    ensures bounds { IsTry result }
{
    if track.out {
        Try {
            fails: 0,
            ..attempt
        }
    } else if attempt.lost {
        due_again(attempt, rested(track.last))
    } else {
        attempt
    }
}

/// The broker is there again.
pub(crate) fn back_all(tracks: &mut [Track])
    requires { All IsTrack tracks.old }
    ensures value { tracks.new ≡ each (λ i. back_track) tracks.old }
    ensures bounds { All IsTrack tracks.new }
{
    for index in 0..tracks.len() {
        tracks[index] = back(tracks[index]);
    }
}

/// Nothing is held back any more.
pub(crate) fn is_back(presence: Presence) -> Presence
    ensures { result ≡ is_back presence }
{
    Presence {
        away: false,
        count: 0,
        hold: 0,
        ..presence
    }
}

/// The broker is away, and nothing is held back yet.
pub(crate) fn is_gone(presence: Presence) -> Presence
    ensures { result ≡ presence_gone presence }
{
    Presence {
        away: true,
        count: 0,
        hold: 0,
        ..presence
    }
}
