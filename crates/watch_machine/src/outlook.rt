//! What a watch says of itself between two events.
ghost use Rattle.std.specs.Prelude.{◌≡◌, ◌<◌, ◌≤◌, IfErr, IfOk, is_some, length};
ghost use Rattle.plan_forest.specs.declared.forest.TheConstants.{END_MAX};
ghost use Rattle.watch_machine.specs.Outlook.{IsNextTime, broker_moment, is_timed, time_of};
ghost use Rattle.watch_machine.specs.State.{track_at};
ghost use Rattle.watch_machine.specs.Wanted.{is_wanted};
ghost use Rattle.watch_machine.specs.code.Lull.{shown_by};
ghost use Rattle.watch_machine.specs.code.Outlook.{IsFirstBy, earlier_next, is_counted, is_first_ahead};
ghost use Rattle.watch_machine.specs.code.View.{HasNeeds};
ghost use Rattle.watch_machine.specs.declared.fault.WatchFault.TheVariants.{OutOfMemory};

use crate::clocks::Clocks;
use crate::fault::WatchFault;
use crate::margins::time;
use crate::needs::{Needs, needs_of};
use crate::reading::{Seconds, second};
use crate::track::{End, Track};
use crate::wanted::{is_alive, need_of, wants};
use crate::watch::Watch;
use plan_forest::{END_MAX, Forest};
use std::alloc::Global;

/// The next time of an entry that is wanted.
#[derive(Clone, Copy, Debug, PartialEq, Eq)]
pub struct Next {
    /// The moment, in seconds of the clock that never steps.
    pub at: u64,
    /// The lowest entry whose time it is.
    pub entry: u32,
}

/// The earlier of the first time so far and that of an entry, of which the one so far is of a lower index.
fn earlier(first: Option<Next>, at: u64, entry: u32) -> Option<Next>
    ensures { result ≡ earlier_next first at entry }
{
    match first {
        Some(first) if first.at <= at => Some(first),
        _ => Some(Next { at, entry }),
    }
}

/// Whether an entry that carries that need is wanted, and its end is ahead.
#[tactic(auto, unfolding(crate::specs::Outlook::is_timed))]
fn is_timed(track: Track, need: u64, now: u64) -> bool
    ensures { result ≡ is_timed now track need }
{
    wants(track, need) && is_alive(track, now)
}

/// Whether an entry of that need and that time counts: one that is timed, and whose time is ahead if only such count.
fn is_counted(is_ahead: bool, now: u64, track: Track, need: u64, at: u64) -> bool
    ensures { result ≡ is_counted is_ahead now track need at }
{
    is_timed(track, need, now) && (!is_ahead || now < at)
}

/// The first time of the entries that are wanted and whose end is ahead, by what they carry; or of those whose time is ahead too.
pub(crate) fn first_time(
    forest: &Forest,
    tracks: &[Track],
    needs: &Needs,
    clocks: Clocks,
    is_ahead: bool,
) -> Option<Next>
    requires count { length tracks.now ≡ length forest.now.entries }
    requires needs { length needs.now.cut ≡ length forest.now.entries }
    ensures { HasNeeds forest.now.entries tracks.now clocks needs.now → IsFirstBy is_ahead (shown_by forest.now tracks.now clocks) result }
{
    let now = second(clocks.at);
    let margin = forest.margin();
    let mut first = None;
    for index in 0..forest.len() {
        let track = tracks[index as usize];
        let at = time(margin, forest.get(index), track);
        if is_counted(is_ahead, now, track, needs.need(index), at) {
            first = earlier(first, at, index);
        }
    }
    first
}

/// The next time, by what the entries carry.
fn next_time(forest: &Forest, tracks: &[Track], needs: &Needs, clocks: Clocks) -> Option<Next>
    requires count { length tracks.now ≡ length forest.now.entries }
    requires needs { length needs.now.cut ≡ length forest.now.entries }
    ensures { HasNeeds forest.now.entries tracks.now clocks needs.now → IsNextTime (shown_by forest.now tracks.now clocks) result }
{
    if let Some(ahead) = first_time(forest, tracks, needs, clocks, true) {
        return Some(ahead);
    }
    first_time(forest, tracks, needs, clocks, false)
}

/// Whether the first time of all is ahead, or there is none.
fn is_first_ahead(first: Option<Next>, now: u64) -> bool
    ensures { result ≡ is_first_ahead now first }
{
    match first {
        None => true,
        Some(first) => now < first.at,
    }
}

impl Watch {
    /// Whether a clock was taken.
    pub fn has_begun(&self) -> bool
        ensures { result ≡ is_some self.now.begun }
    {
        self.begun.is_some()
    }

    /// The clocks.
    pub fn clocks(&self) -> Clocks
        ensures { result ≡ self.now.clocks }
    {
        self.clocks
    }

    /// What the broker's clock shows at a second of this clock, in seconds since 1970-01-01T00:00:00Z; after the greatest end, what
    /// it shows then.
    pub fn broker_moment(&self, second: u64) -> u64
        ensures { result ≡ broker_moment self.now second }
    {
        self.clocks.broker.to_broker(second.min(END_MAX))
    }

    /// The believed end of an entry.
    pub fn end_of(&self, index: u32) -> End
        requires { index < length self.now.forest.entries }
        ensures { result ≡ (track_at self.now index).end }
    {
        self.track(index).end
    }

    /// The second from which on an entry is asked, by its own margin, for its last try by half of that; 0 where its end is unknown.
    pub fn time_of(&self, index: u32) -> Seconds
        requires { index < length self.now.forest.entries }
        ensures value { result ≡ time_of self.now index }
        ensures within { result ≤ END_MAX }
    {
        time(
            self.forest.margin(),
            self.forest.get(index),
            self.track(index),
        )
    }

    /// Whether an entry is to be led further. One pass over the entries.
    pub fn is_wanted(&self, index: u32) -> bool
        requires { index < length self.now.forest.entries }
        ensures { result ≡ is_wanted self.now index }
    {
        let need = need_of(&self.forest, &self.tracks, self.clocks, index);
        wants(self.track(index), need)
    }

    /// The next time of the entries that are wanted and whose end is ahead: the first one that is ahead, or if none is, the first of
    /// all, whose entry is asked and not yet granted; `None` where there is no such entry. The only error is lack of memory.
    pub fn next(&mut self, alloc: Global) -> Result<Option<Next>, WatchFault>
        ensures next { IfOk result (λ next. IsNextTime self.old next) }
        ensures refused { IfErr result (λ fault. fault ≡ OutOfMemory) }
        ensures unchanged { self.new ≡ self.old }
    {
        match self.lull {
            Some(lull) if is_first_ahead(lull.first, second(self.clocks.at)) => Ok(lull.first),
            _ => self.next_by_needs(alloc),
        }
    }

    /// The same, by what the entries carry.
    fn next_by_needs(&mut self, alloc: Global) -> Result<Option<Next>, WatchFault>
        ensures next { IfOk result (λ next. IsNextTime self.old next) }
        ensures refused { IfErr result (λ fault. fault ≡ OutOfMemory) }
        ensures unchanged { self.new ≡ self.old }
    {
        let needs = needs_of(
            alloc,
            &mut self.view,
            &self.forest,
            &self.tracks,
            self.clocks,
        )?;
        let next = next_time(&self.forest, &self.tracks, &needs, self.clocks);
        Ok(next)
    }
}
