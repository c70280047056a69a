//! Another forest is watched from now on, and what is known of those of its entries that were watched before.
ghost use Rattle.std.specs.Prelude.{◌≡◌, ◌+◌, ◌<◌, ◌≤◌, IfErr, IfOk, IfSome, IsTrue, OnErr, OnOk, length, slice_set};
ghost use Rattle.std.specs.List.{All};
ghost use Rattle.plan_forest.specs.Forest.{entry_at};
ghost use Rattle.watch_machine.specs.Change.{IsChange, changed, entry_by, forest_after, former, is_former, moved_out, out_after, place_now, terms_left, track_by, tracks_after, was_at};
ghost use Rattle.watch_machine.specs.code.Bounds.{IsTrack, WentOutAtReading};
ghost use Rattle.watch_machine.specs.declared.fault.WatchFault.TheVariants.{OutOfMemory};

use crate::beginning::{owing_lookup, untopped};
use crate::event::WatchTerms;
use crate::fault::WatchFault;
use crate::lanes::Out;
use crate::new_terms::take_terms;
use crate::reading::Millis;
use crate::track::Track;
use crate::watch::{Watch, fresh_track};
use plan_forest::{Entry, Forest};
use std::alloc::{AllocError, Global};

/// Where an entry of another forest was in the one that is watched.
#[derive(Clone, Copy, Debug, PartialEq, Eq)]
pub enum Was {
    /// Nowhere.
    New,
    /// At this index, and the inventory says of it what it said, but for its need.
    Same(u32),
    /// At this index, and the inventory says something else of it.
    Retold(u32),
}

/// The index at which it was, if it was.
fn former(was: Was) -> Option<u32>
    ensures { result ≡ former was }
{
    match was {
        Was::New => None,
        Was::Same(former) | Was::Retold(former) => Some(former),
    }
}

/// Whether that index is `entry`.
fn is_former(entry: u32, former: Option<u32>) -> bool
    ensures { result ≡ is_former entry former }
{
    match former {
        None => false,
        Some(former) => former == entry,
    }
}

/// What is said of an entry.
fn was_at(was: &[Was], index: u32) -> Was
    requires { index < length was.now }
    ensures { result ≡ was_at was.now index }
{
    was[index as usize]
}

/// Where an entry is among `count` entries that was at that index before, `None` where it is no more.
fn place_now(was: &[Was], count: u32, entry: u32) -> Option<u32>
    requires { count ≡ length was.now }
    ensures { result ≡ place_now was.now entry }
{
    for index in 0..count {
        if is_former(entry, former(was_at(was, index))) {
            return Some(index);
        }
    }
    None
}

/// What lookups have told of an entry, as terms that tell it again.
fn terms_left(entry: &Entry) -> WatchTerms
    ensures { result ≡ terms_left entry.now }
{
    WatchTerms {
        step: Some(entry.step),
        ceiling: entry.ceiling,
        orphan: entry.parent.is_none(),
        endless: false,
    }
}

/// Writes what lookups have told of an entry, where the inventory says of it what it said.
fn keep_terms(forest: &mut Forest, before: &Forest, index: u32, was: Was)
    requires index { index < length forest.old.entries }
    requires within { IfSome (former was) (λ i. i < length before.now.entries) }
    ensures { forest.new ≡ record forest.old { entries = slice_set forest.old.entries index (entry_by forest.old.margin before.now.entries (entry_at forest.old.entries index) was) } }
{
    if let Was::Same(former) = was {
        take_terms(forest, index, terms_left(before.get(former)));
    }
}

/// The same of each entry.
fn keep_all_terms(forest: &mut Forest, before: &Forest, was: &[Was])
    requires { IsChange (length before.now.entries) forest.old was.now }
    ensures { forest.new ≡ forest_after before.now.entries forest.old was.now }
{
    for index in 0..forest.len() {
        keep_terms(forest, before, index, was_at(was, index));
    }
}

/// What is known of an entry from then on: what was known of it. Of one that is watched from then on, or of which the inventory says
/// something else, a lookup is owed at once; and the latter is at its top no more.
fn track_by(entry: &Entry, was: Was, tracks: &[Track], at: Millis) -> Track
    requires within { IfSome (former was) (λ i. i < length tracks.now) }
    requires tracks { All IsTrack tracks.now }
    ensures value { result ≡ track_by at tracks.now entry.now was }
    ensures bounds { IsTrack result }
{
    match was {
        Was::New => owing_lookup(fresh_track(entry), at),
        Was::Same(former) => tracks[former as usize],
        Was::Retold(former) => owing_lookup(untopped(tracks[former as usize]), at),
    }
}

/// The same of each entry of a forest. The only error is lack of memory.
fn tracks_after(
    alloc: Global,
    forest: &Forest,
    was: &[Was],
    tracks: &[Track],
    at: Millis,
) -> Result<Vec<Track>, AllocError>
    requires change { IsChange (length tracks.now) forest.now was.now }
    requires tracks { All IsTrack tracks.now }
    ensures value { IfOk result (λ after. after.items ≡ tracks_after at tracks.now forest.now was.now) }
    ensures bounds { IfOk result (λ after. All IsTrack after.items) }
{
    let mut after = Vec::new(alloc);
    for index in 0..forest.len() {
        let entry = forest.get(index);
        after.push(track_by(entry, was_at(was, index), tracks, at))?;
    }
    Ok(after)
}

/// Whether there is an index past the last of `count` entries for each of so many requests.
fn has_room(count: u32, out: usize) -> bool
    ensures { IsTrue result → count + out ≤ 4294967295 }
{
    out <= (u32::MAX - count) as usize
}

/// A request under the index that its entry has among so many now; under `nobody` where it is no more.
fn moved(request: Out, was: &[Was], count: u32, nobody: u32) -> Out
    requires count { count ≡ length was.now }
    requires out { WentOutAtReading request }
    ensures value { result ≡ moved_out was.now nobody request }
    ensures bounds { WentOutAtReading result }
{
    Out {
        entry: place_now(was, count, request.entry).unwrap_or(nobody),
        ..request
    }
}

/// The requests that are out, each under the index that its entry has among `count` now. That of an entry which is no more has one of
/// its own past the last.
fn move_all(out: &mut [Out], was: &[Was], count: u32)
    requires count { count ≡ length was.now }
    requires room { count + length out.old ≤ 4294967295 }
    requires out { All WentOutAtReading out.old }
    ensures value { out.new ≡ out_after was.now count out.old }
    ensures bounds { All WentOutAtReading out.new }
{
    for place in 0..out.len() {
        out[place] = moved(out[place], was, count, count + place as u32);
    }
}

impl Watch {
    /// Watches another forest from now on. `was` says of each of its entries where it was in the one that is watched.
    ///
    /// An entry that was keeps all that is known of it, its try, and its request that is out. Of one that was not, or of which the
    /// inventory says something else but for its need, a lookup is owed at once; and the latter is at its top no more. What lookups
    /// have told stays written of the others. The answer to a request of which no entry is any more, which is then out under an index
    /// past the last entry, frees its lane, and is heard for what it says of the broker. Nothing else is changed.
    ///
    /// The only error is lack of memory, which leaves the watch as it was; or of indices, where more than four thousand million requests
    /// are out.
    pub fn change(&mut self, alloc: Global, forest: Forest, was: &[Was]) -> Result<(), WatchFault>
        requires { IsChange (length self.old.forest.entries) forest was.now }
        ensures changed { OnOk result (self.new ≡ changed self.old forest was.now) }
        ensures refused { IfErr result (λ fault. fault ≡ OutOfMemory) }
        ensures unchanged { OnErr result (self.new ≡ self.old) }
    {
        if !has_room(forest.len(), self.out.len()) {
            return Err(WatchFault::OutOfMemory);
        }
        let mut forest = forest;
        let tracks = tracks_after(alloc, &forest, was, &self.tracks, self.clocks.at)?;
        keep_all_terms(&mut forest, &self.forest, was);
        let view = forest.copy()?;
        move_all(&mut self.out, was, forest.len());
        self.forest = forest;
        self.view = view;
        self.tracks = tracks;
        self.lull = None;
        self.line.known = false;
        Ok(())
    }
}
