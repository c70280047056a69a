ghost use Rattle.std.specs.Prelude.{◌≡◌, ◌≤◌, IfSome};
ghost use Rattle.watch_machine.specs.code.Bounds.{IsTrack};
ghost use Rattle.watch_machine.specs.declared.reading.TheConstants.{READING_MAX};
ghost use Rattle.watch_machine.specs.Lines.{asked_rank, is_along, is_due, is_first, later_at, part, part_of_first, part_of_later, rank, ready, rested};

use crate::event::Operation;
use crate::lanes::Presence;
use crate::margins::has_come;
use crate::reading::Millis;
use crate::refusal::is_same;
use crate::track::{Track, Try};
use crate::wanted::{believed, is_alive};
use plan_forest::Entry;

/// The moment from which an entry may be asked again: a second after it was last asked.
pub(crate) fn rested(last: Option<Millis>) -> Millis
    requires { IfSome last (λ last. last ≤ READING_MAX) }
    ensures { result ≡ rested last }
{
    match last {
        None => 0,
        Some(last) => last + 1000,
    }
}

/// Whether a try is pressed and never failed.
pub(crate) fn is_first(attempt: Try) -> bool
    ensures { result ≡ is_first attempt }
{
    attempt.pressed && attempt.fails == 0
}

/// The moment of a later try: one that was lost is tried again a second after it, while the broker is away.
fn later_at(away: bool, track: Track, attempt: Try) -> Millis
    requires { IsTrack track }
    ensures { result ≡ later_at away track attempt }
{
    if away && attempt.lost {
        attempt.at.min(rested(track.last))
    } else {
        attempt.at
    }
}

/// The moment from which on a try may go out.
#[tactic(auto, unfolding(crate::specs::Lines::ready))]
pub(crate) fn ready(presence: Presence, track: Track, attempt: Try) -> Millis
    requires { IsTrack track }
    ensures { result ≡ ready presence track attempt }
{
    if is_first(attempt) {
        attempt.at
    } else {
        presence.hold.max(later_at(presence.away, track, attempt))
    }
}

/// Whether an entry is not out, and has a try that may go out now.
#[tactic(auto, unfolding(crate::specs::Lines::is_due))]
pub(crate) fn is_due(presence: Presence, at: Millis, track: Track) -> bool
    requires { IsTrack track }
    ensures { result ≡ is_due presence at track }
{
    if track.out {
        return false;
    }
    match track.attempt {
        None => false,
        Some(attempt) => ready(presence, track, attempt) <= at,
    }
}

/// Whether an entry is renewed along with others: its own time has not come.
fn is_along(margin: u32, entry: &Entry, now: u64, track: Track, attempt: Try) -> bool
    ensures { result ≡ is_along margin entry.now now track attempt }
{
    is_same(attempt.operation, Operation::Renew) && !has_come(margin, entry, track, now)
}

/// In which part of the line a first try stands.
fn part_of_first(
    margin: u32,
    entry: &Entry,
    away: bool,
    now: u64,
    track: Track,
    attempt: Try,
) -> u32
    ensures { result ≡ part_of_first margin entry.now away now track attempt }
{
    if is_along(margin, entry, now, track, attempt) {
        return 4;
    }
    let front = if away { 2 } else { 0 };
    if is_alive(track, now) {
        front
    } else {
        front + 1
    }
}

/// In which part of the line a later one stands.
fn part_of_later(away: bool, attempt: Try) -> u32
    ensures { result ≡ part_of_later away attempt }
{
    let front = if away { 0 } else { 2 };
    if attempt.pressed { front } else { front + 1 }
}

/// In which part of the line a try stands: first tries whose ends are ahead, the other first tries, later ones, those that only
/// owe a lookup, and first tries that go along. While the broker is away the later ones stand in front.
pub(crate) fn part(
    margin: u32,
    entry: &Entry,
    away: bool,
    now: u64,
    track: Track,
    attempt: Try,
) -> u32
    ensures { result ≡ part margin entry.now away now track attempt }
{
    if is_first(attempt) {
        part_of_first(margin, entry, away, now, track, attempt)
    } else {
        part_of_later(away, attempt)
    }
}

/// Where an entry stands by when it was last asked: the longest unanswered in front.
fn asked_rank(last: Option<Millis>) -> u64
    requires { IfSome last (λ last. last ≤ READING_MAX) }
    ensures { result ≡ asked_rank last }
{
    match last {
        None => 0,
        Some(last) => last + 1,
    }
}

/// Where a try stands in its part: a first one by its end, a later one by when it was last asked.
pub(crate) fn rank(track: Track, attempt: Try) -> u64
    requires { IsTrack track }
    ensures { result ≡ rank track attempt }
{
    if is_first(attempt) {
        believed(track.end)
    } else {
        asked_rank(track.last)
    }
}
