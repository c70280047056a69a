ghost use Rattle.std.specs.Prelude.{◌≡◌, ◌<◌, ◌+◌, length, min, ◌≤◌, IfSome};
ghost use Rattle.watch_machine.specs.code.Bounds.{IsTrack, IsTry, WentOutAtReading};
ghost use Rattle.watch_machine.specs.declared.reading.TheConstants.{READING_MAX};
ghost use Rattle.plan_forest.specs.declared.forest.TheConstants.{END_MAX};
ghost use Rattle.watch_machine.specs.Clocks.{sec};
ghost use Rattle.watch_machine.specs.Renewed.{after_renewal, end_at, from_base, from_try, granted, granted_from, granted_try, is_no_further, renewed_track, state_renewed, time_from, top_by, track_renewed, ungranted_track, ungranted_try};

use crate::answers::failing;
use crate::beginning::owed;
use crate::event::{Operation, WatchReply};
use crate::lanes::Out;
use crate::margins::own_by;
use crate::reading::{Millis, Seconds, second};
use crate::track::{End, Grant, Track, Try, keeps_last_try};
use crate::wanted::is_alive;
use crate::watch::Watch;
use base_moment::Span;

/// A grant as it is told: the margin and the step of its entry, its seconds, and the clocks at which it is taken and was asked for.
#[derive(Clone, Copy, Debug)]
struct Granting {
    margin: u32,
    step: u32,
    seconds: Span,
    at: Millis,
    since: Millis,
}

/// The end after a grant that counts from the second of a clock.
fn end_after(from: Millis, seconds: Span) -> Seconds
    ensures value { result ≡ sec from + seconds }
    ensures most { result ≤ 18446744073709551 + 4294967295 }
    ensures within { from ≤ READING_MAX → result ≤ END_MAX }
{
    second(from) + seconds as u64
}

/// The time of an entry with that step, after a grant that counts from the second of a clock.
fn time_from(margin: u32, step: u32, seconds: Span, from: Millis) -> u64
    ensures { result ≡ time_from margin step seconds (sec from) }
{
    end_after(from, seconds).saturating_sub(own_by(margin, step.min(seconds)))
}

impl Granting {
    /// The clock from whose second the grant counts: `base`, where the try has not failed since, and that leaves a time which is
    /// more than a second ahead; else that of the request.
    fn from_base(self, base: Option<Millis>) -> Millis
        requires base { IfSome base (λ base. base ≤ READING_MAX) }
        requires since { self.since ≤ READING_MAX }
        ensures value { result ≡ from_base self.margin self.step self.seconds self.at self.since base }
        ensures bounds { result ≤ READING_MAX }
    {
        match base {
            None => self.since,
            Some(base) => {
                let time = time_from(self.margin, self.step, self.seconds, base);
                if second(self.at) + 1 < time {
                    base
                } else {
                    self.since
                }
            }
        }
    }

    fn from_try(self, attempt: Option<Try>) -> Millis
        requires attempt { IfSome attempt IsTry }
        requires since { self.since ≤ READING_MAX }
        ensures value { result ≡ from_try self.margin self.step self.seconds self.at self.since attempt }
        ensures bounds { result ≤ READING_MAX }
    {
        match attempt {
            None => self.since,
            Some(attempt) => self.from_base(attempt.base),
        }
    }
}

/// Whether this grant and the one before it, which count from seconds 2 apart or more, are both less than the step, and it leads
/// more than a second further neither than the one before nor than the believed end.
fn is_no_further(step: u32, seconds: Span, from: Millis, track: Track) -> bool
    ensures { result ≡ is_no_further step seconds from track.grant track.end }
{
    match (track.grant, track.end) {
        (Some(before), End::At(end)) => {
            let most = end.min(end_after(before.from, before.seconds));
            second(before.from) + 2 <= second(from)
                && before.seconds < step
                && seconds < step
                && end_after(from, seconds) <= most + 1
        }
        _ => false,
    }
}

/// The try after a grant that leads to `end`. One whose end is not ahead is a failure; a lookup that is owed follows after half a
/// minute.
fn granted_try(track: Track, at: Millis, end: u64) -> Option<Try>
    requires track { IsTrack track }
    requires at { at ≤ READING_MAX }
    ensures value { result ≡ granted_try at track.owes end track.attempt }
    ensures bounds { IfSome result IsTry }
{
    match track.attempt {
        None => None,
        Some(attempt) => {
            if second(at) >= end {
                Some(failing(attempt, Operation::Look, false, false))
            } else if track.owes {
                Some(owed(at + 30_000))
            } else {
                None
            }
        }
    }
}

/// A track after a grant that counts from a clock's second. The first that leads it no further, since one that did, gives it its last
/// try; the next one takes that away.
#[tactic(auto, unfolding(crate::specs::Renewed::granted_from))]
fn granted_from(
    step: u32,
    at: Millis,
    seconds: Span,
    renewable: bool,
    from: Millis,
    track: Track,
) -> Track
    requires at { at ≤ READING_MAX }
    requires from { from ≤ READING_MAX }
    requires track { IsTrack track }
    ensures value { result ≡ granted_from step at seconds renewable from track }
    ensures bounds { IsTrack result }
{
    let end = end_after(from, seconds);
    let top = is_no_further(step, seconds, from, track);
    Track {
        end: End::At(end),
        renewable,
        top,
        last_try: !top || keeps_last_try(track),
        grant: Some(Grant { seconds, from }),
        attempt: granted_try(track, at, end),
        out: false,
        ..track
    }
}

/// A track after a grant.
fn granted(granting: Granting, renewable: bool, track: Track) -> Track
    requires at { granting.at ≤ READING_MAX }
    requires since { granting.since ≤ READING_MAX }
    requires track { IsTrack track }
    ensures value { result ≡ granted granting.margin granting.step granting.at granting.since granting.seconds renewable track }
    ensures bounds { IsTrack result }
{
    let from = granting.from_try(track.attempt);
    granted_from(
        granting.step,
        granting.at,
        granting.seconds,
        renewable,
        from,
        track,
    )
}

/// What is asked after a renewal that had no answer: a renewal again while the end is ahead, also where a lookup is owed, which
/// follows the grant; else a lookup.
fn after_renewal(track: Track, now: u64) -> Operation
    ensures { result ≡ after_renewal now track }
{
    if is_alive(track, now) {
        Operation::Renew
    } else {
        Operation::Look
    }
}

/// The try after a reply to a renewal that granted nothing; others were `heard` meanwhile.
fn ungranted_try(track: Track, attempt: Try, reply: WatchReply, at: Millis, heard: bool) -> Try
    requires { IsTry attempt }
    ensures value { result ≡ ungranted_try at heard reply track attempt }
    ensures bounds { IsTry result }
{
    match reply {
        WatchReply::Told { .. } => attempt,
        WatchReply::Refused { .. } => failing(attempt, Operation::Look, false, false),
        WatchReply::Busy => failing(attempt, after_renewal(track, second(at)), true, false),
        WatchReply::Lost => failing(attempt, after_renewal(track, second(at)), true, heard),
    }
}

/// A track after a reply to a renewal that granted nothing.
#[tactic(auto, unfolding(crate::specs::Renewed::ungranted_track))]
fn ungranted(track: Track, reply: WatchReply, at: Millis, heard: bool) -> Track
    requires { IsTrack track }
    ensures value { result ≡ ungranted_track at heard reply track }
    ensures bounds { IsTrack result }
{
    let attempt = match track.attempt {
        None => None,
        Some(attempt) => Some(ungranted_try(track, attempt, reply, at, heard)),
    };
    Track {
        out: false,
        attempt,
        ..track
    }
}

/// A track after the answer to a renewal, with that margin and step.
#[tactic(auto, unfolding(crate::specs::Renewed::renewed_track))]
pub(crate) fn renewed_track(
    margin: u32,
    step: u32,
    at: Millis,
    request: Out,
    reply: WatchReply,
    track: Track,
) -> Track
    requires at { at ≤ READING_MAX }
    requires request { WentOutAtReading request }
    requires track { IsTrack track }
    ensures value { result ≡ renewed_track margin step at request reply track }
    ensures bounds { IsTrack result }
{
    match reply {
        WatchReply::Told {
            seconds,
            renewable,
            ..
        } => {
            let granting = Granting {
                margin,
                step,
                seconds,
                at,
                since: request.since,
            };
            granted(granting, renewable, track)
        }
        WatchReply::Refused { .. } | WatchReply::Busy | WatchReply::Lost => {
            ungranted(track, reply, at, request.heard)
        }
    }
}

/// The second of a known end.
fn end_at(end: End) -> Option<u64>
    ensures { result ≡ end_at end }
{
    match end {
        End::At(end) => Some(end),
        End::Unknown | End::Never => None,
    }
}

/// The end of an entry that a grant led no further, by its track after the answer.
fn top_by(reply: WatchReply, track: Track) -> Option<u64>
    ensures { result ≡ top_by reply track }
{
    match reply {
        WatchReply::Told { .. } => { if track.top { end_at(track.end) } else { None } }
        WatchReply::Refused { .. } | WatchReply::Busy | WatchReply::Lost => None,
    }
}

impl Watch {
    /// Takes the answer to a renewal for its entry, if that is still there, and gives its end where it is led no further.
    pub(crate) fn renewed(&mut self, request: Out, reply: WatchReply) -> Option<u64>
        requires { WentOutAtReading request }
        ensures state { self.new ≡ state_renewed self.old request reply }
        ensures top { result ≡ top_by reply (track_renewed self.old request reply) }
    {
        if request.entry >= self.forest.len() {
            return None;
        }
        let track = renewed_track(
            self.forest.margin(),
            self.forest.get(request.entry).step,
            self.clocks.at,
            request,
            reply,
            self.track(request.entry),
        );
        self.set_track(request.entry, track);
        top_by(reply, track)
    }
}
