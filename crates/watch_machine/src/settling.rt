ghost use Rattle.std.specs.Prelude.{◌≡◌, ◌≤◌, ◌&&◌, ℕ, IfOk, IfSome, min};
ghost use Rattle.watch_machine.specs.code.Bounds.{IsClocks, IsTrack, IsTry};
ghost use Rattle.watch_machine.specs.declared.reading.TheConstants.{READING_MAX};
ghost use Rattle.std.specs.List.{All};
ghost use Rattle.std.specs.List.{list_any};
ghost use Rattle.base_moment.specs.declared.moment.TheConstants.{LAST};
ghost use Rattle.watch_machine.specs.Clocks.{is_ahead};
ghost use Rattle.watch_machine.specs.Settling.{count_after, date_of, dated, dated_by_all, dated_on, held, held_back, held_by, hold_after, is_real, is_silent, is_step, pace_after, paced, presence_after, settled_track, settled_try, steps, took};
ghost use Rattle.watch_machine.specs.State.{each};
ghost use Rattle.watch_machine.specs.declared.lanes.LaneAnswer.{LaneAnswer};

use crate::clocks::Clocks;
use crate::event::WatchReply;
use crate::lanes::{LaneAnswer, Presence};
use crate::lines::rested;
use crate::pauses::{LONGEST, cap, doubled, pause};
use crate::reading::{BrokerSeconds, Millis};
use crate::track::{Track, Try};
use base_moment::LAST;
use std::alloc::{AllocError, Global};

/// The clocks after the answers since the last one, and whether one of their dates was ahead of a clock that a reply had told
/// before.
#[derive(Clone, Copy, Debug)]
pub(crate) struct Heard {
    pub clocks: Clocks,
    pub stepped: bool,
}

/// Whether the reply shows that the broker is there.
pub(crate) fn is_real(reply: WatchReply) -> bool
    ensures { result ≡ is_real reply }
{
    match reply {
        WatchReply::Told { .. } | WatchReply::Refused { .. } | WatchReply::Busy => true,
        WatchReply::Lost => false,
    }
}

fn date_of(reply: WatchReply) -> Option<u64>
    ensures { result ≡ date_of reply }
{
    match reply {
        WatchReply::Told { date, .. } | WatchReply::Refused { date, .. } => date,
        WatchReply::Busy | WatchReply::Lost => None,
    }
}

/// A date, one past the last moment as that.
fn date_at(date: u64) -> BrokerSeconds
    ensures value { result ≡ min LAST date }
    ensures within { result ≤ LAST }
{
    LAST.min(date)
}

/// Whether there was no answer, and none to another since it was asked.
fn is_silent(answer: LaneAnswer) -> bool
    ensures { result ≡ is_silent answer }
{
    !is_real(answer.reply) && !answer.heard
}

/// The clocks after an answer: by its date, if it has one.
fn dated(clocks: Clocks, answer: LaneAnswer) -> Clocks
    requires { IsClocks clocks }
    ensures value { result ≡ dated clocks answer }
    ensures bounds { IsClocks result }
{
    match date_of(answer.reply) {
        None => clocks,
        Some(date) => clocks.dated_by(answer.since, date_at(date)),
    }
}

/// Whether a date is ahead of a clock that a reply had told before.
fn is_step(clocks: Clocks, date: Option<u64>) -> bool
    requires { IsClocks clocks }
    ensures { result ≡ is_step clocks date }
{
    match date {
        None => false,
        Some(date) => clocks.dated && clocks.is_ahead(date_at(date)),
    }
}

/// The clocks after these answers, as they came.
pub(crate) fn dated_by_all(clocks: Clocks, answers: &[LaneAnswer]) -> Heard
    requires { IsClocks clocks }
    ensures clocks { result.clocks ≡ dated_by_all clocks answers.now }
    ensures stepped { result.stepped ≡ steps clocks answers.now }
    ensures bounds { IsClocks result.clocks }
{
    let mut now = clocks;
    let mut stepped = false;
    for answer in answers {
        stepped = stepped || is_step(now, date_of(answer.reply));
        now = dated(now, *answer);
    }
    Heard {
        clocks: now,
        stepped,
    }
}

/// How long an answer took, a day at most.
fn took(at: Millis, answer: LaneAnswer) -> u32
    ensures { result ≡ took at answer }
{
    at.saturating_sub(answer.since).min(86_400_000) as u32
}

/// How long answers take, after one more.
fn paced(at: Millis, pace: u32, answer: LaneAnswer) -> u32
    ensures { result ≡ paced at pace answer }
{
    if is_real(answer.reply) {
        took(at, answer).max(pace - pace / 8)
    } else {
        pace
    }
}

/// How long answers take, after these.
pub(crate) fn pace_after(at: Millis, pace: u32, answers: &[LaneAnswer]) -> u32
    ensures { result ≡ pace_after at pace answers.now }
{
    let mut now = pace;
    for answer in answers {
        now = paced(at, now, *answer);
    }
    now
}

/// A try, with its pause where it failed since the last clock.
fn settled(margin: u32, at: Millis, track: Track, attempt: Try) -> Try
    requires at { at ≤ READING_MAX }
    requires track { IsTrack track }
    requires attempt { IsTry attempt }
    ensures value { Some result ≡ settled_try margin at track (Some attempt) }
    ensures bounds { IsTry result }
{
    if !attempt.failed {
        return attempt;
    }
    Try {
        at: at + pause(margin, at, track, attempt),
        alone: attempt.alone && rested(track.last) <= at,
        failed: false,
        ..attempt
    }
}

/// A track, with the pause of its try where that failed since the last clock.
#[tactic(auto, unfolding(crate::specs::Settling::settled_track))]
fn settled_track(margin: u32, at: Millis, track: Track) -> Track
    requires at { at ≤ READING_MAX }
    requires track { IsTrack track }
    ensures value { result ≡ settled_track margin at track }
    ensures bounds { IsTrack result }
{
    let attempt = match track.attempt {
        None => None,
        Some(attempt) => Some(settled(margin, at, track, attempt)),
    };
    Track { attempt, ..track }
}

/// The tracks, with the pauses of those that failed since the last clock. The only error is lack of memory.
pub(crate) fn settled_tracks(
    alloc: Global,
    margin: u32,
    at: Millis,
    tracks: &[Track],
) -> Result<Vec<Track>, AllocError>
    requires at { at ≤ READING_MAX }
    requires tracks { All IsTrack tracks.now }
    ensures value { IfOk result (λ settled. settled.items ≡ each (λ i. settled_track margin at) tracks.now) }
    ensures bounds { IfOk result (λ settled. All IsTrack settled.items) }
{
    let mut settled = Vec::with_capacity(alloc, tracks.len())?;
    for track in tracks {
        settled.push(settled_track(margin, at, *track))?;
    }
    Ok(settled)
}

/// How long an entry may wait: any time where it is not pressed.
fn held_by(margin: u32, at: Millis, track: Track) -> Millis
    requires { IsTrack track }
    ensures { result ≡ held_by margin at track }
{
    match track.attempt {
        None => LONGEST,
        Some(attempt) => {
            if attempt.pressed {
                cap(margin, at, track, attempt)
            } else {
                LONGEST
            }
        }
    }
}

/// How long later tries are held back for the n-th time while the broker is away: no longer than any entry that is pressed may
/// wait.
#[tactic(auto, unfolding(crate::specs::Settling::held))]
fn held(margin: u32, at: Millis, tracks: &[Track], times: u32) -> Millis
    requires { All IsTrack tracks.now }
    ensures value { result ≡ held margin at tracks.now times }
    ensures within { result ≤ 300000 }
{
    let mut least = LONGEST.min(doubled(times));
    for track in tracks {
        least = least.min(held_by(margin, at, *track));
    }
    least
}

/// How often later tries have been held back: once more, where the last time is over.
fn count_after(at: Millis, presence: Presence) -> u32
    ensures { result ≡ count_after at presence }
{
    if presence.hold <= at {
        presence.count.saturating_add(1).min(20)
    } else {
        presence.count
    }
}

/// Until when they are: anew, where the last time is over, else no longer than now.
#[tactic(auto, unfolding(crate::specs::Settling::hold_after))]
fn hold_after(margin: u32, at: Millis, tracks: &[Track], presence: Presence) -> Millis
    requires at { at ≤ READING_MAX }
    requires tracks { All IsTrack tracks.now }
    ensures { result ≡ hold_after margin at tracks.now presence }
{
    let span = held(margin, at, tracks, count_after(at, presence));
    if presence.hold <= at {
        at + span
    } else {
        presence.hold.min(at + span)
    }
}

/// Whether one of the answers was none, and none came to another since it was asked.
fn is_any_silent(answers: &[LaneAnswer]) -> bool
    ensures { result ≡ list_any is_silent answers.now }
{
    answers.iter().any(|answer| is_silent(*answer))
}

/// Whether these answers may change until when tries are held back.
pub(crate) fn is_holding(answers: &[LaneAnswer], presence: Presence) -> bool
    ensures { result ≡ (presence.away && list_any is_silent answers.now) }
{
    presence.away && is_any_silent(answers)
}

/// The presence after these answers, but for how long answers take.
#[tactic(auto, unfolding(crate::specs::Settling::held_back))]
fn held_back(
    margin: u32,
    at: Millis,
    tracks: &[Track],
    answers: &[LaneAnswer],
    presence: Presence,
) -> Presence
    requires at { at ≤ READING_MAX }
    requires tracks { All IsTrack tracks.now }
    ensures { result ≡ held_back margin at tracks.now answers.now presence }
{
    if !is_holding(answers, presence) {
        return presence;
    }
    Presence {
        count: count_after(at, presence),
        hold: hold_after(margin, at, tracks, presence),
        ..presence
    }
}

/// The presence after these answers.
#[tactic(auto, unfolding(crate::specs::Settling::presence_after))]
pub(crate) fn presence_after(
    margin: u32,
    at: Millis,
    tracks: &[Track],
    answers: &[LaneAnswer],
    presence: Presence,
) -> Presence
    requires at { at ≤ READING_MAX }
    requires tracks { All IsTrack tracks.now }
    ensures { result ≡ presence_after margin at tracks.now answers.now presence }
{
    Presence {
        pace: pace_after(at, presence.pace, answers),
        ..held_back(margin, at, tracks, answers, presence)
    }
}
