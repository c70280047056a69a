ghost use Rattle.std.specs.Prelude.{◌≡◌, ℕ, ◌<◌, ◌&&◌, length, not, if◌then◌else◌, IfErr, IfOk, Some, slice_set};
ghost use Rattle.watch_machine.specs.code.Bounds.{IsClocks};
ghost use Rattle.plan_needs.specs.Carried.{IsCarried, load_at};
ghost use Rattle.plan_rule.specs.Forced.{latest_end};
ghost use Rattle.plan_forest.specs.Forest.{entry_at};
ghost use Rattle.plan_forest.specs.Push.{IsForest};
ghost use Rattle.watch_machine.specs.Round.{IsRound, IsSecond, is_hoped, opens, opens_some, plan_view, planned_by, step_in_plan};
ghost use Rattle.watch_machine.specs.Wanted as wanted;
ghost use Rattle.watch_machine.specs.code.Rounds.{IsFirstShort, first_with, is_sooner};
ghost use Rattle.watch_machine.specs.code.View.{HasNeeds, IsView, Sees};
ghost use Rattle.watch_machine.specs.declared.fault.WatchFault.TheVariants.{OutOfMemory};

use crate::beginning::is_pressed;
use crate::clocks::Clocks;
use crate::fault::WatchFault;
use crate::margins::{is_in_plan, lead};
use crate::needs::Needs;
use crate::press::is_fresh;
use crate::reading::{moment_at, second};
use crate::track::Track;
use crate::wanted::{is_alive, is_unknown, wants};
use base_moment::{LAST, Moment};
use plan_forest::{Entry, Forest, Indices, capped, renewal};
use plan_needs::Carried;
use plan_search::asks_before;
use std::alloc::Global;

/// Whether an entry that carries that need opens a round: it is pressed now, in the plan, and its end is ahead.
#[tactic(auto, unfolding(crate::specs::Round::opens))]
fn opens(margin: u32, entry: &Entry, track: Track, need: u64, now: u64) -> bool
    ensures { result ≡ opens margin entry.now track need now }
{
    is_fresh(margin, entry, track, need, now)
        && is_in_plan(margin, entry, track)
        && is_alive(track, now)
}

/// Whether one of the entries opens a round; `needs` has what they carry.
fn opens_some(forest: &Forest, tracks: &[Track], needs: &Needs, clocks: Clocks) -> bool
    requires count { length tracks.now ≡ length forest.now.entries }
    requires needs { length needs.now.cut ≡ length forest.now.entries }
    requires clocks { IsClocks clocks }
    ensures { HasNeeds forest.now.entries tracks.now clocks needs.now → result ≡ opens_some forest.now tracks.now clocks }
{
    let now = second(clocks.at);
    let margin = forest.margin();
    for index in 0..forest.len() {
        let track = tracks[index as usize];
        if opens(margin, forest.get(index), track, needs.need(index), now) {
            return true;
        }
    }
    false
}

/// Whether an entry that carries that need counts as renewed now, in the hope that it is: it is wanted, and is outside the plan,
/// of unknown end, pressed before, or out.
#[tactic(auto, unfolding(crate::specs::Round::is_hoped))]
fn is_hoped(margin: u32, entry: &Entry, track: Track, need: u64) -> bool
    ensures { result ≡ is_hoped margin entry.now track need }
{
    wants(track, need)
        && (!is_in_plan(margin, entry, track)
            || is_unknown(track.end)
            || is_pressed(track)
            || track.out)
}

/// How far a renewal leads in the plan, where `step` is the entry's own step. It is past the margin, as a step has to be.
fn step_in_plan(margin: u32, entry: &Entry, track: Track, step: u32) -> u32
    requires margin { 0 < margin }
    requires step { margin < step }
    ensures value { result ≡ step_in_plan margin entry.now track step }
    ensures past { margin < result }
{
    if is_in_plan(margin, entry, track) {
        lead(entry.step, track.grant)
    } else {
        step
    }
}

/// Writes the entry at an index, which carries that need and is written as it is seen, as the Asks take it.
fn write_planned(view: &mut Forest, entry: &Entry, track: Track, need: u64, now: Moment, index: u32)
    requires { index < length view.old.entries }
    ensures { view.new ≡ record view.old { entries = slice_set view.old.entries index (planned_by view.old.margin entry.now track need now (entry_at view.old.entries index)) } }
{
    let margin = view.margin();
    let ceiling = view.get(index).ceiling;
    if is_hoped(margin, entry, track, need) {
        let lead = lead(entry.step, track.grant);
        view.set_end(index, capped(ceiling, now.plus(lead)));
        view.set_renewable(index, false);
        return;
    }
    let step = step_in_plan(margin, entry, track, view.get(index).step);
    view.set_terms(index, step, ceiling);
    view.set_renewable(index, goes_further(track));
}

/// Whether a renewal may lead the entry further.
fn goes_further(track: Track) -> bool
    ensures { result ≡ (track.renewable && not track.top) }
{
    track.renewable && !track.top
}

/// Writes every entry, which is written as it is seen, as the Asks take it; `needs` has what they carry.
fn write_plan_view(
    view: &mut Forest,
    forest: &Forest,
    tracks: &[Track],
    needs: &Needs,
    clocks: Clocks,
)
    requires count { length tracks.now ≡ length forest.now.entries }
    requires view { IsView view.old forest.now }
    requires needs { length needs.now.cut ≡ length forest.now.entries }
    requires clocks { IsClocks clocks }
    ensures view { IsView view.new forest.now }
    ensures sound { IsForest forest.now }
    ensures planned { view.old.entries ≡ wanted.view forest.now.entries tracks.now clocks → HasNeeds forest.now.entries tracks.now clocks needs.now → view.new.entries ≡ plan_view forest.now tracks.now clocks }
{
    let now = moment_at(second(clocks.at));
    for index in 0..forest.len() {
        let track = tracks[index as usize];
        let need = needs.need(index);
        write_planned(view, forest.get(index), track, need, now, index);
    }
}

/// The latest end that the entry can have after a wake-up at `now`.
#[tactic(auto, unfolding(plan_rule::specs::Forced::latest_end))]
fn bound(entry: &Entry, now: Moment) -> u64
    ensures { result ≡ latest_end entry.now entry.now.end (Some now) }
{
    if entry.renewable {
        entry.end.max(renewal(entry, now.get()))
    } else {
        entry.end
    }
}

/// The earliest bound after a wake-up at `now` that falls short of what its entry carries, `None` where none does.
fn first_short(view: &Forest, needs: &Carried, now: Moment) -> Option<u64>
    requires { length needs.now ≡ length view.now.entries }
    ensures sound { IsForest view.now }
    ensures first { IsFirstShort (λ i. latest_end (entry_at view.now.entries i) (entry_at view.now.entries i).end (Some now)) (λ i. (load_at needs.now i).need) (length view.now.entries) result }
{
    let mut first = None;
    for index in 0..view.len() {
        let bound = bound(view.get(index), now);
        first = first_with(first, bound, needs.need(index));
    }
    first
}

/// The first bound so far, or this one where it falls short of that need and comes before.
fn first_with(first: Option<u64>, bound: u64, need: u64) -> Option<u64>
    ensures { result ≡ first_with first bound need }
{
    if bound < need && is_before(bound, first) {
        Some(bound)
    } else {
        first
    }
}

/// Whether the bound comes before the first so far.
fn is_before(bound: u64, first: Option<u64>) -> bool
    ensures { result ≡ is_sooner bound first }
{
    match first {
        None => true,
        Some(first) => bound < first,
    }
}

/// The moment of the round after one at `now`, `None` where no bound falls short.
fn second_round(view: &Forest, needs: &Carried, now: Moment) -> Option<Moment>
    requires { length needs.now ≡ length view.now.entries }
    ensures { IsCarried view.now now needs.now → IsSecond view.now.entries view.now.margin now result }
{
    let margin = view.margin() as u64;
    match first_short(view, needs, now) {
        None => None,
        Some(bound) => Some(moment_at(bound.saturating_sub(margin).min(LAST))),
    }
}

/// The round that opens now: whom it asks; `None` where none opens. The view is written as it is seen, and `needs` has what its
/// entries carry. The only error is lack of memory.
pub(crate) fn round(
    alloc: Global,
    view: &mut Forest,
    forest: &Forest,
    tracks: &[Track],
    clocks: Clocks,
    needs: &Needs,
) -> Result<Option<Indices>, WatchFault>
    requires count { length tracks.now ≡ length forest.now.entries }
    requires view { IsView view.old forest.now }
    requires needs { length needs.now.cut ≡ length forest.now.entries }
    requires clocks { IsClocks clocks }
    ensures view { IsView view.new forest.now }
    ensures round { IfOk result (λ round. Sees view.old forest.now tracks.now clocks needs.now → IsRound forest.now tracks.now clocks round) }
    ensures refused { IfErr result (λ fault. fault ≡ OutOfMemory) }
{
    if !opens_some(forest, tracks, needs, clocks) {
        return Ok(None);
    }
    write_plan_view(view, forest, tracks, needs, clocks);
    let now = moment_at(second(clocks.at));
    let cut = needs.cut();
    let next = second_round(view, cut, now);
    Ok(Some(asks_before(alloc, view, cut, now, next)?))
}
