//! A clock at which nothing is to be done but to fill the lanes from the line: no entry is looked at but those that go out.
ghost use Rattle.std.specs.Prelude.{◌≡◌, ◌<◌, true, IfErr, IfOk, IfSome, IsTrue, OnErr, length};
ghost use Rattle.watch_machine.specs.code.Bounds.{IsClocks, WentOutAtReading};
ghost use Rattle.watch_machine.specs.Answers.{replied};
ghost use Rattle.watch_machine.specs.Renewed.{state_renewed};
ghost use Rattle.watch_machine.specs.Settling.{is_real};
ghost use Rattle.watch_machine.specs.code.Line.{IsLineOf, IsPlain, IsRoundClock, IsServed};
ghost use Rattle.watch_machine.specs.declared.fault.WatchFault.TheVariants.{OutOfMemory};

use crate::clock_step::Shown;
use crate::command::{Requests, WatchCommand, WatchOutput};
use crate::event::WatchReply;
use crate::fault::WatchFault;
use crate::lanes::{Out, Presence};
use crate::line::Line;
use crate::lull::is_failed;
use crate::margins::time;
use crate::notes::Notes;
use crate::reading::{Millis, second};
use crate::renewed::renewed_track;
use crate::sending::{out_with, send_all};
use crate::settling::{is_holding, is_real, pace_after};
use crate::track::{Track, has_last_try};
use crate::waiting::latest;
use crate::wanted::{believed, is_fixed};
use crate::watch::Watch;
use std::alloc::Global;
use std::mem;

/// Whether that answer, which made a track of the one before it, leaves what is known of the others, and nothing is to be asked of
/// its own.
fn is_plain(reply: WatchReply, before: Track, after: Track) -> bool
    ensures real { IsTrue result → is_real reply ≡ true }
    ensures plain { IsTrue result → IsPlain before after }
{
    is_real(reply)
        && before.out
        && !is_failed(before)
        && !is_fixed(before)
        && !is_fixed(after)
        && !has_last_try(before)
        && !has_last_try(after)
        && after.attempt.is_none()
}

impl Watch {
    /// Takes the line out; none is known from then on.
    pub(crate) fn take_line(&mut self, alloc: Global) -> Line
        ensures unchanged { self.new ≡ self.old }
        ensures line { IsLineOf self.old result }
    {
        mem::replace(&mut self.line, Line::none(alloc))
    }

    /// Puts a line in.
    pub(crate) fn keep_line(&mut self, line: Line)
        requires { IsLineOf self.old line }
        ensures { self.new ≡ self.old }
    {
        self.line = line;
    }

    /// Takes the line out as it is after that answer to a renewal. None is known where its entry is no more.
    pub(crate) fn line_renewed(&mut self, alloc: Global, request: Out, reply: WatchReply) -> Line
        requires { WentOutAtReading request }
        ensures unchanged { self.new ≡ self.old }
        ensures line { IsLineOf (replied (state_renewed self.old request reply) request reply) result }
    {
        let line = self.take_line(alloc);
        if request.entry >= self.forest.len() {
            return line.ended();
        }
        let margin = self.forest.margin();
        let entry = self.forest.get(request.entry);
        let before = self.track(request.entry);
        let after = renewed_track(margin, entry.step, self.clocks.at, request, reply, before);
        if !is_plain(reply, before, after) {
            return line.ended();
        }
        line.answered(time(margin, entry, after) * 1000, believed(after.end))
    }

    /// Until when to wait, where nothing is to be done of any entry but that those in line go out; `None` where that is not known.
    /// Where none waits and none is out, all entries are gone through, so that a lull begins.
    pub(crate) fn round_until(&self, line: &Line, timed: Shown) -> Option<Millis>
        requires line { IsLineOf self.now line.now }
        requires clocks { IsClocks timed.clocks }
        ensures { IfSome result (λ until. IsRoundClock self.now line.now timed.clocks timed.stepped timed.jumped until) }
    {
        if !line.known {
            return None;
        }
        if line.rest().is_empty() && self.out.is_empty() {
            return None;
        }
        let latest = latest(self.forest.margin(), timed.clocks.at);
        if !line.lasts(timed.clocks, latest) {
            return None;
        }
        if is_holding(&self.answers, self.presence) {
            return None;
        }
        match self.reason(timed, &self.tracks) {
            Some(_) => None,
            None => Some(latest.min(line.next)),
        }
    }

    /// A clock at which nothing is to be done but that those in line go out. Refused, for lack of memory alone, it leaves the watch
    /// as it was.
    pub(crate) fn line_clock(
        &mut self,
        alloc: Global,
        timed: Shown,
        line: Line,
        until: Millis,
    ) -> Result<WatchOutput, WatchFault>
        requires round { IsRoundClock self.old line timed.clocks timed.stepped timed.jumped until }
        requires clocks { IsClocks timed.clocks }
        ensures served { IfOk result (λ output. IsServed self.old line timed.clocks timed.stepped until output self.new) }
        ensures refused { IfErr result (λ fault. fault ≡ OutOfMemory) }
        ensures unchanged { OnErr result (self.new ≡ self.old) }
    {
        let at = timed.clocks.at;
        let pace = pace_after(at, self.presence.pace, &self.answers);
        let presence = Presence {
            pace,
            ..self.presence
        };
        let lanes = (self.width as usize).saturating_sub(self.out.len());
        let requests = line.front(alloc, lanes, presence, second(at), &self.tracks)?;
        let out = out_with(alloc, &self.out, at, &requests)?;
        let line = line.moved(requests.len());
        send_all(&mut self.tracks, at, &requests);
        self.out = out;
        self.presence = presence;
        self.answers.clear();
        self.clocks = timed.clocks;
        self.stepped = timed.stepped;
        self.lull = None;
        self.line = line;
        Ok(WatchOutput {
            command: WatchCommand::Go {
                requests: Requests { items: requests },
                until,
            },
            notes: Notes::none(),
        })
    }
}
