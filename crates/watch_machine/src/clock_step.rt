ghost use Rattle.std.specs.Prelude.{◌≡◌, [], IfErr, IfOk, IfSome, OnErr, length};
ghost use Rattle.watch_machine.specs.code.Bounds.{IsClocks, IsTrack};
ghost use Rattle.std.specs.List.{All};
ghost use Rattle.watch_machine.specs.Settling.{clocks_after, has_jumped, has_stepped};
ghost use Rattle.watch_machine.specs.Step.{StepClock, nothing_noted};
ghost use Rattle.watch_machine.specs.Beginning.{beginning, begun_tracks, noted_begun, owing_all, untopped};
ghost use Rattle.watch_machine.specs.Press.{pressed_tracks};
ghost use Rattle.watch_machine.specs.Round.{IsRound, asked_by_round};
ghost use Rattle.watch_machine.specs.code.Lull.{IsQuiet, quieted};
ghost use Rattle.watch_machine.specs.code.View.{Sees};
ghost use Rattle.watch_machine.specs.code.View.{IsView};
ghost use Rattle.watch_machine.specs.declared.command.WatchCommand.TheVariants.{Go};
ghost use Rattle.watch_machine.specs.declared.fault.WatchFault.TheVariants.{OutOfMemory};

use crate::beginning::{clear_tops, is_any_urgent, is_past, is_start, owe_all};
use crate::clocks::{Clocks, goes_on};
use crate::command::{Requests, WatchCommand, WatchOutput};
use crate::fault::WatchFault;
use crate::lanes::Presence;
use crate::line::Line;
use crate::lull::Lull;
use crate::needs::{Needs, needs_of};
use crate::notes::{BeginReason, Notes};
use crate::press::{press_alone, press_round};
use crate::reading::{Millis, moment_at, reading, second};
use crate::round::round;
use crate::sending::{Front, going, out_with, send_all};
use crate::settling::{dated_by_all, is_holding, pace_after, presence_after, settled_tracks};
use crate::track::Track;
use crate::waiting::{latest, wait};
use crate::watch::Watch;
use plan_forest::{Forest, Indices};
use plan_needs::carry;
use std::alloc::Global;

/// The clocks at later readings, whether the wall has jumped, and whether the broker's clock was set on since the last beginning.
#[derive(Clone, Copy, Debug)]
pub(crate) struct Shown {
    pub(crate) clocks: Clocks,
    pub(crate) jumped: bool,
    pub(crate) stepped: bool,
}

impl Watch {
    /// The clocks at these readings, in milliseconds, with the dates of the answers since the last one.
    #[tactic(auto, unfolding(crate::specs::Settling::clocks_after, crate::specs::Settling::has_jumped, crate::specs::Settling::has_stepped))]
    fn timed(&self, wall: u64, elapsed: u64) -> Shown
        ensures clocks { result.clocks ≡ clocks_after self.now wall elapsed }
        ensures jumped { result.jumped ≡ has_jumped self.now wall elapsed }
        ensures stepped { result.stepped ≡ has_stepped self.now wall elapsed }
        ensures bounds { IsClocks result.clocks }
    {
        let at = self.clocks.later(elapsed);
        let shown = reading(wall);
        let dated = dated_by_all(at.walled(shown), &self.answers);
        let clocks = if self.begun.is_none() {
            Clocks::first(wall, elapsed)
        } else {
            dated.clocks
        };
        Shown {
            clocks,
            jumped: at.is_stepped(shown),
            stepped: self.stepped || dated.stepped,
        }
    }

    /// Why everything is looked up anew, `None` where it is not.
    #[tactic(auto, unfolding(crate::specs::Beginning::beginning))]
    pub(crate) fn reason(&self, timed: Shown, tracks: &[Track]) -> Option<BeginReason>
        ensures { result ≡ beginning self.now.begun self.now.asked timed.stepped timed.jumped timed.clocks.at tracks.now }
    {
        let at = timed.clocks.at;
        if self.begun.is_none() {
            Some(BeginReason::Start)
        } else if timed.jumped || (timed.stepped && is_past(600_000, self.begun, at)) {
            Some(BeginReason::Jump)
        } else if self.asked {
            Some(BeginReason::Asked)
        } else if is_past(86_400_000, self.begun, at) && !is_any_urgent(tracks, second(at)) {
            Some(BeginReason::Day)
        } else {
            None
        }
    }

    /// The two clocks, in milliseconds. Refused, for lack of memory alone, it leaves the watch as it was.
    pub(crate) fn clock(
        &mut self,
        alloc: Global,
        wall: u64,
        elapsed: u64,
    ) -> Result<WatchOutput, WatchFault>
        ensures step { IfOk result (λ output. StepClock self.old wall elapsed output self.new) }
        ensures refused { IfErr result (λ fault. fault ≡ OutOfMemory) }
        ensures unchanged { OnErr result (self.new ≡ self.old) }
    {
        let timed = self.timed(wall, elapsed);
        if let Some(until) = self.quiet_until(timed) {
            return Ok(self.quiet_clock(alloc, timed, until));
        }
        let line = self.take_line(alloc);
        match self.round_until(&line, timed) {
            None => self.whole_clock(alloc, wall, elapsed),
            Some(until) => self.line_clock(alloc, timed, line, until),
        }
    }

    /// Until when to wait, where nothing is to be done of any entry and the clocks go on as before; `None` where that is not known.
    fn quiet_until(&self, timed: Shown) -> Option<Millis>
        requires { IsClocks timed.clocks }
        ensures { IfSome result (λ until. IsQuiet self.now timed.clocks timed.stepped timed.jumped until) }
    {
        let Some(lull) = self.lull else {
            return None;
        };
        let clocks = timed.clocks;
        if !lull.lasts(clocks.at) {
            return None;
        }
        if !goes_on(clocks, self.clocks) {
            return None;
        }
        if is_holding(&self.answers, self.presence) {
            return None;
        }
        match self.reason(timed, &self.tracks) {
            Some(_) => None,
            None => Some(latest(self.forest.margin(), clocks.at).min(lull.next)),
        }
    }

    /// A clock at which nothing is to be done of any entry: none is looked at.
    fn quiet_clock(&mut self, alloc: Global, timed: Shown, until: Millis) -> WatchOutput
        requires quiet { IsQuiet self.old timed.clocks timed.stepped timed.jumped until }
        requires clocks { IsClocks timed.clocks }
        ensures state { self.new ≡ quieted self.old timed.clocks timed.stepped }
        ensures output { result ≡ record { command = Go [] until; notes = nothing_noted } }
    {
        let pace = pace_after(timed.clocks.at, self.presence.pace, &self.answers);
        self.presence = Presence {
            pace,
            ..self.presence
        };
        self.answers.clear();
        self.clocks = timed.clocks;
        self.stepped = timed.stepped;
        WatchOutput {
            command: WatchCommand::Go {
                requests: Requests {
                    items: Vec::new(alloc),
                },
                until,
            },
            notes: Notes::none(),
        }
    }

    /// A clock at which all entries are gone through. Refused, for lack of memory alone, it leaves the watch as it was.
    fn whole_clock(
        &mut self,
        alloc: Global,
        wall: u64,
        elapsed: u64,
    ) -> Result<WatchOutput, WatchFault>
        ensures step { IfOk result (λ output. StepClock self.old wall elapsed output self.new) }
        ensures refused { IfErr result (λ fault. fault ≡ OutOfMemory) }
        ensures unchanged { OnErr result (self.new ≡ self.old) }
    {
        let margin = self.forest.margin();
        let timed = self.timed(wall, elapsed);
        let clocks = timed.clocks;
        let at = clocks.at;
        let mut tracks = settled_tracks(alloc, margin, at, &self.tracks)?;
        let presence = presence_after(margin, at, &self.tracks, &self.answers, self.presence);
        let why = self.reason(timed, &tracks);
        let needs = begin(
            alloc,
            &mut self.view,
            &self.forest,
            &mut tracks,
            clocks,
            why,
        )?;
        let round = press(
            alloc,
            &mut self.view,
            &self.forest,
            &mut tracks,
            clocks,
            &needs,
        )?;
        let lanes = (self.width as usize).saturating_sub(self.out.len());
        let Front { requests, line } = going(alloc, &self.forest, presence, at, &tracks, lanes)?;
        let out = out_with(alloc, &self.out, at, &requests)?;
        send_all(&mut tracks, at, &requests);
        let until = wait(&self.forest, &tracks, &needs, presence, at);
        let lull = Lull::after(&requests, &self.forest, &tracks, &needs, clocks, presence);
        let line = Line::of(
            line,
            requests.len(),
            &self.forest,
            &tracks,
            &needs,
            clocks,
            presence,
        );
        self.tracks = tracks;
        self.out = out;
        self.answers.clear();
        self.clocks = clocks;
        self.presence = presence;
        self.stepped = timed.stepped;
        self.lull = lull;
        self.line = line;
        self.note_begun(why);
        Ok(WatchOutput {
            command: WatchCommand::Go {
                requests: Requests { items: requests },
                until,
            },
            notes: Notes {
                began: why,
                round,
                ..Notes::none()
            },
        })
    }

    /// Everything is looked up anew from now on, where there is a reason.
    fn note_begun(&mut self, why: Option<BeginReason>)
        ensures { self.new ≡ noted_begun self.old why }
    {
        if why.is_some() {
            self.begun = Some(self.clocks.at);
            self.asked = false;
            self.stepped = false;
        }
    }
}

/// Looks everything up anew where there is a reason, and gives what the entries need. The only error is lack of memory.
fn begin(
    alloc: Global,
    view: &mut Forest,
    forest: &Forest,
    tracks: &mut [Track],
    clocks: Clocks,
    why: Option<BeginReason>,
) -> Result<Needs, WatchFault>
    requires count { length tracks.old ≡ length forest.now.entries }
    requires view { IsView view.old forest.now }
    requires bounds { All IsTrack tracks.old }
    requires clocks { IsClocks clocks }
    ensures tracks { IfOk result (λ needs. tracks.new ≡ begun_tracks forest.now clocks why tracks.old) }
    ensures needs { IfOk result (λ needs. Sees view.new forest.now tracks.new clocks needs) }
    ensures count { length tracks.new ≡ length forest.now.entries }
    ensures view { IsView view.new forest.now }
    ensures refused { IfErr result (λ fault. fault ≡ OutOfMemory) }
    ensures bounds { All IsTrack tracks.new }
{
    match why {
        None => needs_of(alloc, view, forest, tracks, clocks),
        Some(why) => begin_anew(alloc, view, forest, tracks, clocks, is_start(why)),
    }
}

/// Looks everything up anew, for the `first` time or a later one, and gives what the entries need. The only error is lack of memory.
fn begin_anew(
    alloc: Global,
    view: &mut Forest,
    forest: &Forest,
    tracks: &mut [Track],
    clocks: Clocks,
    first: bool,
) -> Result<Needs, WatchFault>
    requires count { length tracks.old ≡ length forest.now.entries }
    requires view { IsView view.old forest.now }
    requires bounds { All IsTrack tracks.old }
    requires clocks { IsClocks clocks }
    ensures tracks { IfOk result (λ needs. tracks.new ≡ owing_all forest.now clocks first (untopped tracks.old)) }
    ensures needs { IfOk result (λ needs. Sees view.new forest.now tracks.new clocks needs) }
    ensures count { length tracks.new ≡ length forest.now.entries }
    ensures view { IsView view.new forest.now }
    ensures refused { IfErr result (λ fault. fault ≡ OutOfMemory) }
    ensures bounds { All IsTrack tracks.new }
{
    clear_tops(tracks);
    let needs = needs_of(alloc, view, forest, tracks, clocks)?;
    let written = carry(alloc, forest, moment_at(0))?;
    owe_all(
        tracks,
        forest.len(),
        first,
        clocks.at,
        clocks.dated,
        needs.cut(),
        &written,
    );
    Ok(needs)
}

/// Presses those whose time has come, and those whom a round asks. The only error is lack of memory.
fn press(
    alloc: Global,
    view: &mut Forest,
    forest: &Forest,
    tracks: &mut [Track],
    clocks: Clocks,
    needs: &Needs,
) -> Result<Option<Indices>, WatchFault>
    requires count { length tracks.old ≡ length forest.now.entries }
    requires view { IsView view.old forest.now }
    requires needs { Sees view.old forest.now tracks.old clocks needs.now }
    requires bounds { All IsTrack tracks.old }
    requires clocks { IsClocks clocks }
    ensures round { IfOk result (λ round. IsRound forest.now tracks.old clocks round) }
    ensures tracks { IfOk result (λ round. tracks.new ≡ pressed_tracks forest.now clocks (asked_by_round round) tracks.old) }
    ensures count { length tracks.new ≡ length forest.now.entries }
    ensures view { IsView view.new forest.now }
    ensures refused { IfErr result (λ fault. fault ≡ OutOfMemory) }
    ensures bounds { All IsTrack tracks.new }
{
    let round = round(alloc, view, forest, tracks, clocks, needs)?;
    press_alone(tracks, forest, needs, clocks.at);
    if let Some(asked) = &round {
        press_round(tracks, asked.list(), clocks.at);
    }
    Ok(round)
}
