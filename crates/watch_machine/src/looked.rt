ghost use Rattle.std.specs.Prelude.{◌≡◌, ◌<◌, ◌&&◌, not, Some, is_some, length, ◌≤◌, IfSome};
ghost use Rattle.watch_machine.specs.code.Bounds.{IsTrack, IsTry, WentOutAtReading};
ghost use Rattle.watch_machine.specs.declared.reading.TheConstants.{READING_MAX};
ghost use Rattle.plan_forest.specs.Push.{is_lease};
ghost use Rattle.watch_machine.specs.Answers.{with_track};
ghost use Rattle.watch_machine.specs.Looked.{after_look, at_once, is_called_for, looked, refused_try, status_of, told_state, told_track, told_try, untold_track, untold_try, with_told_try};
ghost use Rattle.watch_machine.specs.State.{entry_of, track_at};
ghost use Rattle.watch_machine.specs.Step.{notes_of, notes_told, notes_untold};

use crate::answers::failing;
use crate::event::{Operation, WatchReply, WatchTerms};
use crate::lanes::Out;
use crate::margins::has_come;
use crate::new_terms::{is_orphaned, take_orphan, take_terms};
use crate::notes::Notes;
use crate::reading::{Millis, second};
use crate::track::{End, Track, Try};
use crate::wanted::{is_alive, is_never, is_open, need_of, wants};
use crate::watch::Watch;
use base_moment::Span;

/// A track as a lookup told it that went out at `since`, but for its try.
#[tactic(auto, unfolding(crate::specs::Looked::told_track))]
fn told_track(track: Track, since: Millis, seconds: Span, renewable: bool, endless: bool) -> Track
    requires since { since ≤ READING_MAX }
    requires track { IsTrack track }
    ensures value { result ≡ told_track since seconds renewable endless track }
    ensures bounds { IsTrack result }
{
    let end = if endless {
        End::Never
    } else {
        End::At(second(since) + seconds as u64)
    };
    Track {
        end,
        renewable,
        owes: false,
        out: false,
        ..track
    }
}

/// A renewal at once, in the same try; where that was of an owed lookup, the try begins now.
#[tactic(auto, unfolding(crate::specs::Looked::at_once))]
fn at_once(attempt: Try, at: Millis) -> Try
    requires at { at ≤ READING_MAX }
    requires attempt { IsTry attempt }
    ensures value { result ≡ at_once at attempt }
    ensures bounds { IsTry result }
{
    if attempt.pressed {
        Try {
            at: at,
            operation: Operation::Renew,
            failed: false,
            ..attempt
        }
    } else {
        Try {
            at: at,
            operation: Operation::Renew,
            pressed: true,
            base: Some(at),
            fails: 0,
            lost: false,
            alone: false,
            failed: false,
        }
    }
}

/// The try after a lookup that told of its entry. Where that is to be asked, `is_due`, it is renewed at once; an end that is not
/// ahead is a failure; else the try ends.
fn told_try(track: Track, at: Millis, is_due: bool) -> Option<Try>
    requires at { at ≤ READING_MAX }
    requires track { IsTrack track }
    ensures value { result ≡ told_try at is_due track track.attempt }
    ensures bounds { IfSome result IsTry }
{
    match track.attempt {
        None => None,
        Some(attempt) => {
            if is_due {
                Some(at_once(attempt, at))
            } else if is_alive(track, second(at)) {
                None
            } else {
                Some(failing(attempt, Operation::Look, false, false))
            }
        }
    }
}

/// A lookup that was refused: a renewal is tried while the end is ahead or unknown, at once where the lookup was only owed.
fn refused_try(track: Track, attempt: Try, at: Millis) -> Try
    requires { IsTry attempt }
    ensures value { result ≡ refused_try at track attempt }
    ensures bounds { IsTry result }
{
    if !is_open(track, second(at)) {
        return failing(attempt, Operation::Look, false, false);
    }
    let next = failing(attempt, Operation::Renew, false, false);
    if attempt.pressed {
        next
    } else {
        Try {
            at: at,
            failed: false,
            ..next
        }
    }
}

/// What is asked after a lookup that had no answer: where the entry is pressed a renewal, unless its end is past.
fn after_look(track: Track, attempt: Try, now: u64) -> Operation
    ensures { result ≡ after_look now track attempt }
{
    if attempt.pressed && is_open(track, now) {
        Operation::Renew
    } else {
        Operation::Look
    }
}

/// The try after a reply to a lookup that told nothing; others were `heard` meanwhile.
fn untold_try(track: Track, attempt: Try, reply: WatchReply, at: Millis, heard: bool) -> Try
    requires { IsTry attempt }
    ensures value { result ≡ untold_try at heard reply track attempt }
    ensures bounds { IsTry result }
{
    match reply {
        WatchReply::Told { .. } => attempt,
        WatchReply::Refused { .. } => refused_try(track, attempt, at),
        WatchReply::Busy => failing(attempt, after_look(track, attempt, second(at)), true, false),
        WatchReply::Lost => failing(attempt, after_look(track, attempt, second(at)), true, heard),
    }
}

/// A track after a reply to a lookup that told nothing of it.
#[tactic(auto, unfolding(crate::specs::Looked::untold_track))]
fn untold(track: Track, reply: WatchReply, at: Millis, heard: bool) -> Track
    requires { IsTrack track }
    ensures value { result ≡ untold_track at heard reply track }
    ensures bounds { IsTrack result }
{
    let attempt = match track.attempt {
        None => None,
        Some(attempt) => Some(untold_try(track, attempt, reply, at, heard)),
    };
    Track {
        owes: track.owes && status_of(reply).is_none(),
        out: false,
        attempt,
        ..track
    }
}

/// The status of a refusal.
fn status_of(reply: WatchReply) -> Option<u16>
    ensures { result ≡ status_of reply }
{
    match reply {
        WatchReply::Refused { status, .. } => Some(status),
        WatchReply::Told { .. } | WatchReply::Busy | WatchReply::Lost => None,
    }
}

impl Watch {
    /// Takes the answer to a lookup for its entry, if that is still there, and gives what is noted of it.
    pub(crate) fn looked(&mut self, request: Out, reply: WatchReply, terms: WatchTerms) -> Notes
        requires { WentOutAtReading request }
        ensures state { self.new ≡ looked self.old request reply terms }
        ensures notes { result ≡ notes_of self.old request reply terms }
    {
        if request.entry >= self.forest.len() {
            return Notes::none();
        }
        match reply {
            WatchReply::Told {
                seconds,
                renewable,
                ..
            } => {
                let notes = self.told_notes(request.entry, terms);
                self.take_told(request, seconds, renewable, terms);
                self.set_after(request.entry);
                notes
            }
            WatchReply::Refused { .. } | WatchReply::Busy | WatchReply::Lost => self.tell_nothing(
                request, reply,
            ),
        }
    }

    /// What is noted of a lookup that tells of an entry.
    fn told_notes(&self, entry: u32, terms: WatchTerms) -> Notes
        requires { entry < length self.now.forest.entries }
        ensures { result ≡ notes_told self.now entry terms }
    {
        Notes {
            orphan: is_orphaned(self.forest.get(entry), terms),
            endless: terms.endless && !is_never(self.track(entry).end),
            ..Notes::none()
        }
    }

    /// Takes a reply to a lookup that told nothing of its entry, and gives what is noted of it.
    fn tell_nothing(&mut self, request: Out, reply: WatchReply) -> Notes
        requires { request.entry < length self.old.forest.entries }
        ensures state { self.new ≡ with_track self.old request.entry (untold_track self.old.clocks.at request.heard reply (track_at self.old request.entry)) }
        ensures notes { result ≡ notes_untold self.old request.entry reply }
    {
        let track = self.track(request.entry);
        let track = untold(track, reply, self.clocks.at, request.heard);
        self.set_track(request.entry, track);
        Notes {
            gone: status_of(reply),
            ..Notes::none()
        }
    }

    /// Takes what a lookup told of an entry, but for its try.
    fn take_told(&mut self, request: Out, seconds: Span, renewable: bool, terms: WatchTerms)
        requires within { request.entry < length self.old.forest.entries }
        requires request { WentOutAtReading request }
        ensures { self.new ≡ told_state self.old request.entry request.since seconds renewable terms }
    {
        let entry = request.entry;
        let before = self.track(entry);
        let track = told_track(before, request.since, seconds, renewable, terms.endless);
        self.lull = None;
        self.line.known = false;
        take_terms(&mut self.forest, entry, terms);
        take_orphan(&mut self.view, entry, terms);
        self.tracks[entry as usize] = track;
    }

    /// Sets the try after a lookup that told of its entry.
    fn set_after(&mut self, entry: u32)
        requires { entry < length self.old.forest.entries }
        ensures { self.new ≡ with_told_try self.old entry }
    {
        let is_due = self.is_called_for(entry);
        let track = self.track(entry);
        let attempt = told_try(track, self.clocks.at, is_due);
        self.set_track(entry, Track { attempt, ..track });
    }

    /// Whether an entry is wanted and its time has come. Where it has not, no other entry is looked at.
    fn is_called_for(&self, entry: u32) -> bool
        requires { entry < length self.now.forest.entries }
        ensures { result ≡ is_called_for self.now entry }
    {
        let now = second(self.clocks.at);
        let track = self.track(entry);
        if !has_come(self.forest.margin(), self.forest.get(entry), track, now) {
            return false;
        }
        let need = need_of(&self.forest, &self.tracks, self.clocks, entry);
        wants(track, need)
    }
}
