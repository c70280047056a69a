//! What the entries need: a pass over them, and one more where one of them has its last try.
ghost use Rattle.std.specs.Prelude.{◌≡◌, ◌<◌, IfErr, IfOk, IfSome, length};
ghost use Rattle.std.specs.List.{All, list_any};
ghost use Rattle.watch_machine.specs.State.{has_last_try};
ghost use Rattle.watch_machine.specs.code.Bounds.{IsClocks, IsTrack};
ghost use Rattle.watch_machine.specs.code.View.{IsFree, IsView, Sees, last_by, last_needs, need_at, need_by};
ghost use Rattle.watch_machine.specs.declared.fault.WatchFault.TheVariants.{OutOfMemory};

use crate::clocks::Clocks;
use crate::fault::WatchFault;
use crate::reading::{moment_at, second};
use crate::track::{Track, has_last_try};
use crate::wanted::{write_free, write_view};
use plan_forest::Forest;
use plan_needs::{Carried, carry};
use std::alloc::{AllocError, Global};
use std::marker::Model;

/// What the entries need.
#[derive(Debug, Drop)]
pub(crate) struct Needs {
    // what they carry, cut to their limits
    cut: Carried,
    // what counts for each, where one of them has its last try; else it is empty
    last: Vec<u64>,
}

impl Model for Needs {
    ghost use Rattle.watch_machine.specs.code.View.{Loads};

    ghost Value = { Loads };

    ghost view = { λ n. record { cut = n.cut; last = n.last.items } };
}

impl Needs {
    /// What the entries carry, cut to their limits.
    pub(crate) fn cut(&self) -> &Carried
        ensures { result.now ≡ self.now.cut }
    {
        &self.cut
    }

    /// The need that counts for the entry at `index`.
    pub(crate) fn need(&self, index: u32) -> u64
        requires { index < length self.now.cut }
        ensures { result ≡ need_at self.now index }
    {
        let (at, many) = (index as usize, self.last.len());
        if at < many {
            self.last[at]
        } else {
            self.cut.need(index)
        }
    }

    /// By what these `count` entries carry, and what they would with no limit at all, if one has its last try. The only error is lack
    /// of memory.
    fn of(
        alloc: Global,
        tracks: &[Track],
        count: u32,
        cut: Carried,
        free: Option<Carried>,
    ) -> Result<Needs, AllocError>
        requires count { count ≡ length tracks.now }
        requires cut { count ≡ length cut }
        requires free { IfSome free (λ loads. count ≡ length loads) }
        ensures { IfOk result (λ needs. needs ≡ record { cut = cut; last = last_by tracks.now cut free }) }
    {
        match free {
            None => Ok(Needs {
                cut,
                last: Vec::new(alloc),
            }),
            Some(free) => {
                let last = last_needs(alloc, tracks, count, &cut, &free)?;
                Ok(Needs { cut, last })
            }
        }
    }
}

/// Of two needs of an entry that which counts for it: for its last try no limit does.
fn need_by(track: Track, cut: u64, free: u64) -> u64
    ensures { result ≡ need_by track cut free }
{
    if has_last_try(track) { free } else { cut }
}

/// What counts for each of these `count` entries, by what they carry and what they would with no limit at all. The only error is
/// lack of memory.
fn last_needs(
    alloc: Global,
    tracks: &[Track],
    count: u32,
    cut: &Carried,
    free: &Carried,
) -> Result<Vec<u64>, AllocError>
    requires count { count ≡ length tracks.now }
    requires cut { count ≡ length cut.now }
    requires free { count ≡ length free.now }
    ensures { IfOk result (λ needs. needs.items ≡ last_needs tracks.now cut.now free.now) }
{
    let mut needs = Vec::new(alloc);
    for index in 0..count {
        let need = need_by(tracks[index as usize], cut.need(index), free.need(index));
        needs.push(need)?;
    }
    Ok(needs)
}

/// Whether one of them has its last try.
fn is_any_last(tracks: &[Track]) -> bool
    ensures { result ≡ list_any has_last_try tracks.now }
{
    tracks.iter().any(|track| has_last_try(*track))
}

/// What the entries would carry with no limit at all; `None` where nobody has its last try. The only error is lack of memory.
fn free_needs(
    alloc: Global,
    view: &mut Forest,
    forest: &Forest,
    tracks: &[Track],
    clocks: Clocks,
) -> Result<Option<Carried>, WatchFault>
    requires view { IsView view.old forest.now }
    requires clocks { IsClocks clocks }
    ensures free { IfOk result (λ free. IsFree forest.now.entries tracks.now clocks free) }
    ensures view { IsView view.new forest.now }
    ensures refused { IfErr result (λ fault. fault ≡ OutOfMemory) }
{
    if !is_any_last(tracks) {
        return Ok(None);
    }
    write_free(view, forest, clocks);
    Ok(Some(carry(alloc, view, moment_at(second(clocks.at)))?))
}

/// Writes the view, and gives what the entries need. The only error is lack of memory.
pub(crate) fn needs_of(
    alloc: Global,
    view: &mut Forest,
    forest: &Forest,
    tracks: &[Track],
    clocks: Clocks,
) -> Result<Needs, WatchFault>
    requires count { length tracks.now ≡ length forest.now.entries }
    requires view { IsView view.old forest.now }
    requires bounds { All IsTrack tracks.now }
    requires clocks { IsClocks clocks }
    ensures needs { IfOk result (λ needs. Sees view.new forest.now tracks.now clocks needs) }
    ensures view { IsView view.new forest.now }
    ensures refused { IfErr result (λ fault. fault ≡ OutOfMemory) }
{
    let free = free_needs(alloc, view, forest, tracks, clocks)?;
    write_view(view, forest, tracks, clocks);
    let cut = carry(alloc, view, moment_at(second(clocks.at)))?;
    let needs = Needs::of(alloc, tracks, forest.len(), cut, free)?;
    Ok(needs)
}
