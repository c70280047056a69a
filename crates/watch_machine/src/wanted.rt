ghost use Rattle.std.specs.Prelude.{◌≡◌, ℕ, ◌<◌, ◌≤◌, ◌&&◌, IfSome, length, if◌then◌else◌, max, min, nat_lt, option_map, slice_set};
ghost use Rattle.watch_machine.specs.code.Bounds.{IsClocks, IsEnd, IsTrack};
ghost use Rattle.std.specs.List.{All};
ghost use Rattle.plan_forest.specs.declared.forest.TheConstants.{END_MAX};
ghost use Rattle.plan_forest.specs.Forest.{entry_at};
ghost use Rattle.watch_machine.specs.Wanted.{believed, free_entry, is_alive, is_fixed, is_open, is_unknown, least_over, need_here, need_of, seen_entry, wants};
ghost use Rattle.watch_machine.specs.Wanted as wanted;
ghost use Rattle.watch_machine.specs.code.View.{IsView};

use crate::clocks::Clocks;
use crate::reading::{moment_at, second};
use crate::track::{End, Track, has_last_try};
use base_moment::Moment;
use plan_forest::{END_MAX, Forest};

/// A ceiling, one past the greatest as the greatest.
pub(crate) fn most(ceiling: Option<u64>) -> Option<u64>
    ensures value { result ≡ option_map (λ t. min END_MAX t) ceiling }
    ensures within { IfSome result (λ t. t ≤ END_MAX) }
{
    match ceiling {
        None => None,
        Some(ceiling) => Some(END_MAX.min(ceiling)),
    }
}

/// An end as a number: 0 where it is unknown, and past every need where there is none.
pub(crate) fn believed(end: End) -> u64
    ensures value { result ≡ believed end }
    ensures within { IsEnd end → result ≤ END_MAX }
{
    match end {
        End::Unknown => 0,
        End::At(end) => end,
        End::Never => END_MAX,
    }
}

/// Whether the end is unknown.
pub(crate) fn is_unknown(end: End) -> bool
    ensures { result ≡ is_unknown end }
{
    matches!(end, End::Unknown)
}

/// Whether there is none.
pub(crate) fn is_never(end: End) -> bool
    ensures { result ≡ wanted.is_never end }
{
    matches!(end, End::Never)
}

fn is_known(end: End) -> bool
    ensures { result ≡ wanted.is_known end }
{
    matches!(end, End::At(_))
}

/// Whether the end is ahead in that second.
pub(crate) fn is_alive(track: Track, now: u64) -> bool
    ensures { result ≡ is_alive now track }
{
    now < believed(track.end)
}

/// Whether the end is ahead in that second, or unknown.
pub(crate) fn is_open(track: Track, now: u64) -> bool
    ensures { result ≡ is_open now track }
{
    is_unknown(track.end) || is_alive(track, now)
}

/// Whether the entry is led no further than its believed end.
pub(crate) fn is_fixed(track: Track) -> bool
    ensures { result ≡ is_fixed track }
{
    is_known(track.end) && (!track.renewable || track.top)
}

/// A limit, or the believed end of an entry that is led no further, where that is less.
fn limited(limit: u64, track: Track) -> u64
    ensures { result ≡ (if is_fixed track then min limit (believed track.end) else limit) }
{
    if is_fixed(track) {
        limit.min(believed(track.end))
    } else {
        limit
    }
}

/// The least of a limit and of the believed ends of those over the entry that are led no further.
fn limit(forest: &Forest, tracks: &[Track], index: u32, above: u64) -> u64
    requires within { index < length forest.now.entries }
    requires count { length tracks.now ≡ length forest.now.entries }
    ensures { result ≡ least_over forest.now.entries tracks.now above index }
{
    let least = limited(above, tracks[index as usize]);
    match forest.get(index).parent {
        None => least,
        Some(parent) => limit(forest, tracks, parent, least),
    }
}

/// Writes the entry at an index as it is seen on this clock, by its believed end, its need cut to its limit.
fn write_seen(view: &mut Forest, forest: &Forest, tracks: &[Track], clocks: Clocks, index: u32)
    requires within { index < length forest.now.entries }
    requires count { length tracks.now ≡ length forest.now.entries }
    requires view { IsView view.old forest.now }
    requires bounds { All IsTrack tracks.now }
    requires clocks { IsClocks clocks }
    ensures view { IsView view.new forest.now }
    ensures written { view.new.entries ≡ slice_set view.old.entries index (seen_entry forest.now.entries tracks.now clocks index) }
{
    let entry = forest.get(index);
    let track = tracks[index as usize];
    let need = clocks
        .need_here(entry.need)
        .min(limit(forest, tracks, index, END_MAX));
    view.set_terms(index, entry.step, clocks.ceiling_here(entry.ceiling));
    view.set_end(index, believed(track.end));
    view.set_renewable(index, track.renewable);
    view.set_need(index, moment_at(need));
}

/// Writes every entry as it is seen on this clock.
pub(crate) fn write_view(view: &mut Forest, forest: &Forest, tracks: &[Track], clocks: Clocks)
    requires count { length tracks.now ≡ length forest.now.entries }
    requires view { IsView view.old forest.now }
    requires bounds { All IsTrack tracks.now }
    requires clocks { IsClocks clocks }
    ensures view { IsView view.new forest.now }
    ensures written { view.new.entries ≡ wanted.view forest.now.entries tracks.now clocks }
{
    for index in 0..forest.len() {
        write_seen(view, forest, tracks, clocks, index);
    }
}

/// A greatest need so far, or that of one entry more where it is after `now`, and of an entry that this one is over.
fn carry_more(most: u64, now: Moment, need: u64, is_over: bool) -> u64
    ensures { result ≡ (if is_over && nat_lt now need then max most need else most) }
{
    if is_over && now.get() < need {
        most.max(need)
    } else {
        most
    }
}

/// Writes the need of every entry as it is on this clock, cut to no limit.
pub(crate) fn write_free(view: &mut Forest, forest: &Forest, clocks: Clocks)
    requires view { IsView view.old forest.now }
    requires clocks { IsClocks clocks }
    ensures view { IsView view.new forest.now }
    ensures written { (k : ℕ) → k < length forest.now.entries → (entry_at view.new.entries k).need ≡ need_here clocks (entry_at forest.now.entries k).need }
{
    for index in 0..forest.len() {
        let need = clocks.need_here(forest.get(index).need);
        view.set_need(index, moment_at(need));
    }
}

/// The need of an entry on this clock, cut to no limit, or to its own.
#[tactic(auto, unfolding(crate::specs::Wanted::seen_entry))]
fn need_seen(forest: &Forest, tracks: &[Track], clocks: Clocks, is_free: bool, index: u32) -> u64
    requires within { index < length forest.now.entries }
    requires count { length tracks.now ≡ length forest.now.entries }
    requires clocks { IsClocks clocks }
    ensures { result ≡ (if is_free then (free_entry forest.now.entries clocks index).need else (seen_entry forest.now.entries tracks.now clocks index).need) }
{
    let need = clocks.need_here(forest.get(index).need);
    if is_free {
        need
    } else {
        need.min(limit(forest, tracks, index, END_MAX))
    }
}

/// The need that counts for an entry; for its last try no limit does.
pub(crate) fn need_of(forest: &Forest, tracks: &[Track], clocks: Clocks, index: u32) -> u64
    requires within { index < length forest.now.entries }
    requires count { length tracks.now ≡ length forest.now.entries }
    requires clocks { IsClocks clocks }
    ensures { result ≡ need_of forest.now.entries tracks.now clocks index }
{
    let now = moment_at(second(clocks.at));
    let is_free = has_last_try(tracks[index as usize]);
    let mut most = 0;
    for below in 0..forest.len() {
        let is_over = forest.is_over(index, below);
        let need = need_seen(forest, tracks, clocks, is_free, below);
        most = carry_more(most, now, need, is_over);
    }
    most
}

/// Whether an entry may be led further, and has to be, where that need counts for it.
#[tactic(auto, unfolding(crate::specs::Wanted::wants))]
pub(crate) fn wants(track: Track, need: u64) -> bool
    ensures { result ≡ wants track need }
{
    (track.renewable || is_unknown(track.end))
        && (!track.top || track.last_try)
        && !is_never(track.end)
        && believed(track.end) < need
}
