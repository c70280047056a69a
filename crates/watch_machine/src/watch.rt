ghost use Rattle.std.specs.Prelude.{◌≡◌, ◌<◌, IfErr, IfOk, length, map, true};
ghost use Rattle.watch_machine.specs.code.Bounds.{IsTrack};
ghost use Rattle.std.specs.List.{All};
ghost use Rattle.base_moment.specs.declared.moment.TheConstants.{LAST};
ghost use Rattle.watch_machine.specs.Answers.{with_track};
ghost use Rattle.watch_machine.specs.declared.fault.WatchFault.TheVariants.{OutOfMemory};
ghost use Rattle.watch_machine.specs.State.{broker_present, fresh_track, opened, track_at};
ghost use Rattle.watch_machine.specs.Step.{known, told_earlier, with_need_until};

use crate::beginning::owing_past;
use crate::clocks::Clocks;
use crate::fault::WatchFault;
use crate::lanes::{LaneAnswer, Out, Presence};
use crate::line::Line;
use crate::lull::Lull;
use crate::reading::{Millis, moment_at};
use crate::track::{End, Track};
use base_moment::LAST;
use plan_forest::{END_MAX, Entry, Forest};
use std::alloc::{AllocError, Global};
use std::marker::Model;

/// The most requests that may be out at once.
pub const WIDTH_MAX: u32 = 32;

/// The most requests that are out at once unless it is told otherwise.
pub const WIDTH: u32 = 8;

/// The machine that watches over a forest.
#[derive(Debug, Drop)]
pub struct Watch {
    // the needs, steps, ceilings and parents, by the broker's moments, as looked up
    pub(crate) forest: Forest,
    // the same forest, whose ends, needs, steps and ceilings are written before each use
    pub(crate) view: Forest,
    pub(crate) width: u32,
    pub(crate) tracks: Vec<Track>,
    pub(crate) out: Vec<Out>,
    pub(crate) answers: Vec<LaneAnswer>,
    pub(crate) clocks: Clocks,
    pub(crate) presence: Presence,
    pub(crate) begun: Option<Millis>,
    pub(crate) asked: bool,
    pub(crate) stepped: bool,
    // how long nothing is to be done but to take answers, where that is known
    pub(crate) lull: Option<Lull>,
    // those that wait for a lane, where they are known
    pub(crate) line: Line,
}

impl Model for Watch {
    ghost use Rattle.watch_machine.specs.State.{WatchState};
    ghost use Rattle.watch_machine.specs.code.Watching.{IsWatch};

    ghost Value = { WatchState };

    ghost view = { λ w. record { forest = w.forest; width = w.width; tracks = w.tracks.items; out = w.out.items; answers = w.answers.items; clocks = w.clocks; presence = w.presence; begun = w.begun; asked = w.asked; stepped = w.stepped } };

    ghost invariant = { λ w. IsWatch w.forest w.view w.tracks.items w.out.items w.clocks w.presence w.lull w.line };
}

/// What is known of an entry that is watched from now on.
pub(crate) fn fresh_track(entry: &Entry) -> Track
    ensures value { result ≡ fresh_track entry.now }
    ensures bounds { IsTrack result }
{
    Track {
        end: End::Unknown,
        renewable: entry.renewable,
        top: false,
        last_try: true,
        grant: None,
        owes: false,
        attempt: None,
        last: None,
        out: false,
    }
}

/// What is known of the entries of a forest that is watched from now on. The only error is lack of memory.
fn fresh_tracks(alloc: Global, forest: &Forest) -> Result<Vec<Track>, AllocError>
    ensures value { IfOk result (λ tracks. tracks.items ≡ map fresh_track forest.now.entries) }
    ensures bounds { IfOk result (λ tracks. All IsTrack tracks.items) }
{
    let mut tracks = Vec::new(alloc);
    for index in 0..forest.len() {
        tracks.push(fresh_track(forest.get(index)))?;
    }
    Ok(tracks)
}

/// The broker is there, and nothing is held back.
fn present() -> Presence
    ensures { result ≡ broker_present }
{
    Presence {
        away: false,
        count: 0,
        hold: 0,
        pace: 0,
    }
}

/// A track with an end that an earlier watch told.
fn told_earlier(track: Track, end: u64, renewable: bool) -> Track
    requires { IsTrack track }
    ensures value { result ≡ told_earlier end renewable track }
    ensures bounds { IsTrack result }
{
    Track {
        end: End::At(END_MAX.min(end)),
        renewable,
        ..track
    }
}

impl Watch {
    /// A watch over this forest, of which at most `width` requests are out at once, 1 to [`WIDTH_MAX`]. No end is known yet. The
    /// only error is lack of memory.
    pub fn new(alloc: Global, forest: Forest, width: u32) -> Result<Watch, WatchFault>
        ensures opened { IfOk result (λ watch. watch ≡ opened forest width) }
        ensures refused { IfErr result (λ fault. fault ≡ OutOfMemory) }
    {
        let view = forest.copy()?;
        let tracks = fresh_tracks(alloc, &forest)?;
        Ok(Watch {
            forest,
            view,
            width,
            tracks,
            out: Vec::new(alloc),
            answers: Vec::new(alloc),
            clocks: Clocks::unset(),
            presence: present(),
            begun: None,
            asked: false,
            stepped: false,
            lull: None,
            line: Line::none(alloc),
        })
    }

    /// The entry is needed until that moment by the broker's clock.
    pub(crate) fn need(&mut self, entry: u32, until: u64)
        requires { entry < length self.old.forest.entries }
        ensures { self.new ≡ with_need_until self.old entry until }
    {
        self.lull = None;
        self.line.known = false;
        self.forest.set_need(entry, moment_at(LAST.min(until)));
    }

    /// Everything is to be looked up anew.
    pub(crate) fn ask_beginning(&mut self)
        ensures { self.new ≡ record self.old { asked = true } }
    {
        self.asked = true;
    }

    /// An end that an earlier watch of the same boot told. Where it is past a lookup is owed.
    pub(crate) fn know(&mut self, entry: u32, end: u64, renewable: bool)
        requires { entry < length self.old.forest.entries }
        ensures { self.new ≡ known self.old entry end renewable }
    {
        let track = told_earlier(self.track(entry), end, renewable);
        self.set_track(entry, owing_past(track, self.clocks.at));
    }

    /// The forest, with needs, steps, ceilings and parents by the broker's moments, as looked up.
    pub fn forest(&self) -> &Forest
        ensures { result.now ≡ self.now.forest }
    {
        &self.forest
    }

    /// How many requests may be out at once.
    pub fn width(&self) -> u32
        ensures { result ≡ self.now.width }
    {
        self.width
    }

    /// The requests that are out, as they went.
    pub fn out(&self) -> &[Out]
        ensures { result.now ≡ self.now.out }
    {
        &self.out
    }

    /// What is known of an entry.
    pub fn track(&self, entry: u32) -> Track
        requires { entry < length self.now.forest.entries }
        ensures value { result ≡ track_at self.now entry }
        ensures bounds { IsTrack result }
    {
        self.tracks[entry as usize]
    }

    /// Sets what is known of an entry.
    pub(crate) fn set_track(&mut self, entry: u32, track: Track)
        requires within { entry < length self.old.forest.entries }
        requires track { IsTrack track }
        ensures { self.new ≡ with_track self.old entry track }
    {
        self.lull = None;
        self.line.known = false;
        self.tracks[entry as usize] = track;
    }
}
