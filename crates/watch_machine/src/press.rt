ghost use Rattle.std.specs.Prelude.{◌≡◌, ◌≤◌, ℕ, IfSome, Some, length};
ghost use Rattle.watch_machine.specs.code.Bounds.{IsTrack, IsTry};
ghost use Rattle.watch_machine.specs.declared.reading.TheConstants.{READING_MAX};
ghost use Rattle.std.specs.List.{All};
ghost use Rattle.watch_machine.specs.code.View.{need_at};
ghost use Rattle.plan_forest.specs.Forest.{entry_at};
ghost use Rattle.watch_machine.specs.Press.{asked_track, dropped, is_fresh, press, pressed_track, track_asked_in};
ghost use Rattle.watch_machine.specs.State.{each};

use crate::beginning::{is_pressed, soon};
use crate::event::Operation;
use crate::lines::rested;
use crate::margins::has_come;
use crate::needs::Needs;
use crate::reading::{Millis, second};
use crate::track::{Track, Try};
use crate::wanted::{is_alive, wants};
use plan_forest::{Entry, Forest};

/// Whether an entry with that need is wanted, its time has come, and it is neither pressed nor out.
#[tactic(auto, unfolding(crate::specs::Press::is_fresh))]
pub(crate) fn is_fresh(margin: u32, entry: &Entry, track: Track, need: u64, now: u64) -> bool
    ensures { result ≡ is_fresh margin entry.now track need now }
{
    wants(track, need) && has_come(margin, entry, track, now) && !is_pressed(track) && !track.out
}

/// The try of an entry that is pressed at a clock: a renewal while its end is ahead, else a lookup.
#[tactic(auto, unfolding(crate::specs::Press::press))]
fn press(track: Track, at: Millis) -> Try
    requires track { IsTrack track }
    requires at { at ≤ READING_MAX }
    ensures value { result ≡ press at track }
    ensures bounds { IsTry result }
{
    let operation = if is_alive(track, second(at)) {
        Operation::Renew
    } else {
        Operation::Look
    };
    Try {
        at: soon(at, track),
        operation,
        pressed: true,
        base: Some(at),
        fails: 0,
        lost: false,
        alone: false,
        failed: false,
    }
}

/// What is left of a try of an entry that is wanted no more: one that is not pressed goes on until a reply tells an end, and of one
/// that is pressed the lookup that is owed is left, if any.
fn dropped(track: Track, attempt: Try) -> Option<Try>
    requires track { IsTrack track }
    requires attempt { IsTry attempt }
    ensures value { result ≡ dropped track (Some attempt) }
    ensures bounds { IfSome result IsTry }
{
    if !attempt.pressed {
        return Some(attempt);
    }
    if !track.owes {
        return None;
    }
    Some(Try {
        at: attempt.at.max(rested(track.last)),
        operation: Operation::Look,
        pressed: false,
        ..attempt
    })
}

/// An entry with that need before any round: it is pressed where it has to be asked, and let go where it is wanted no more. One
/// that is out stays as it is.
#[tactic(auto, unfolding(crate::specs::Press::pressed_track))]
fn pressed(margin: u32, entry: &Entry, track: Track, need: u64, at: Millis) -> Track
    requires track { IsTrack track }
    requires at { at ≤ READING_MAX }
    ensures value { result ≡ pressed_track margin entry.now need at track }
    ensures bounds { IsTrack result }
{
    if is_fresh(margin, entry, track, need, second(at)) {
        return Track {
            attempt: Some(press(track, at)),
            ..track
        };
    }
    if wants(track, need) || track.out {
        return track;
    }
    let attempt = match track.attempt {
        None => None,
        Some(attempt) => dropped(track, attempt),
    };
    Track { attempt, ..track }
}

/// An entry that a round asks.
#[tactic(auto, unfolding(crate::specs::Press::asked_track))]
fn asked(track: Track, at: Millis) -> Track
    requires track { IsTrack track }
    requires at { at ≤ READING_MAX }
    ensures value { result ≡ asked_track at track }
    ensures bounds { IsTrack result }
{
    if track.out {
        return track;
    }
    Track {
        attempt: Some(press(track, at)),
        ..track
    }
}

/// Presses those whose time has come, by the needs that the entries carry, and lets go those who are wanted no more.
pub(crate) fn press_alone(tracks: &mut [Track], forest: &Forest, needs: &Needs, at: Millis)
    requires count { length tracks.old ≡ length forest.now.entries }
    requires needs { length needs.now.cut ≡ length forest.now.entries }
    requires at { at ≤ READING_MAX }
    requires tracks { All IsTrack tracks.old }
    ensures value { tracks.new ≡ each (λ i. pressed_track forest.now.margin (entry_at forest.now.entries i) (need_at needs.now i) at) tracks.old }
    ensures bounds { All IsTrack tracks.new }
{
    let margin = forest.margin();
    for index in 0..forest.len() {
        let entry = forest.get(index);
        let track = tracks[index as usize];
        tracks[index as usize] = pressed(margin, entry, track, needs.need(index), at);
    }
}

/// Presses those whom a round asks.
pub(crate) fn press_round(tracks: &mut [Track], round: &[u32], at: Millis)
    requires at { at ≤ READING_MAX }
    requires tracks { All IsTrack tracks.old }
    ensures value { tracks.new ≡ each (track_asked_in at round.now) tracks.old }
    ensures bounds { All IsTrack tracks.new }
{
    for entry in round {
        let index = *entry as usize;
        if index < tracks.len() {
            tracks[index] = asked(tracks[index], at);
        }
    }
}
