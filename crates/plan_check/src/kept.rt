ghost use Rattle.std.specs.Prelude.{◌≡◌, ◌+◌, ◌-◌, ◌*◌, ◌<◌, ◌≤◌, true, IfOk, length};
ghost use Rattle.base_moment.specs.declared.moment.TheConstants.{LAST};
ghost use Rattle.plan_forest.specs.Forest.{end_of, entry_at};
ghost use Rattle.plan_forest.specs.Push.{IsForest};
ghost use Rattle.plan_rule.specs.Runs.{all_wakes, moments_of, wakes};
ghost use Rattle.plan_check.specs.code.Steps.{FirstShort, Stops, least_with};
ghost use Rattle.plan_check.specs.Kept.{own, own_end};

use crate::gaps::gaps_until;
use crate::rising_runs::RisingRuns;
use crate::walk::last_of;
use plan_forest::{Entry, Forest, renewal};
use plan_rule::Run;
use std::alloc::{AllocError, Global};

/// The lowest entry over which one, asked by itself at each moment of the runs, does not last until its need. For each entry
/// it costs a few searches whose steps grow with the logarithm of the runs.
pub(crate) fn first_short(
    alloc: Global,
    forest: &Forest,
    rising: &RisingRuns,
) -> Result<Option<u32>, AllocError>
    ensures short { IfOk result (λ found. FirstShort forest.now rising.now.start (own forest.now.entries forest.now.margin (end_of forest.now.entries) (moments_of (all_wakes rising.now.runs))) found) }
    ensures sound { IsForest forest.now }
{
    let start = rising.start();
    // The least own end over each entry, itself included.
    let mut lasts = Vec::new(alloc);
    for index in 0..forest.len() {
        let end = own_end(forest, index, rising);
        let last = least_over(forest, index, end, &lasts);
        let need = forest.get(index).need;
        if start < need && last < need {
            return Ok(Some(index));
        }
        lasts.push(last)?;
    }
    Ok(None)
}

/// The less of `end` and the least that is carried for the parent.
fn least_over(forest: &Forest, index: u32, end: u64, lasts: &[u64]) -> u64
    requires within { index < length forest.now.entries }
    requires carried { length lasts.now ≡ index }
    ensures value { result ≡ least_with (entry_at forest.now.entries index).parent end lasts.now }
    ensures sound { IsForest forest.now }
{
    match forest.get(index).parent {
        None => end,
        Some(parent) => end.min(lasts[parent as usize]),
    }
}

/// The last end of an entry that is asked by itself at each moment of the runs.
fn own_end(forest: &Forest, index: u32, rising: &RisingRuns) -> u64
    requires { index < length forest.now.entries }
    ensures { result ≡ own forest.now.entries forest.now.margin (end_of forest.now.entries) (moments_of (all_wakes rising.now.runs)) index }
{
    let entry = forest.get(index);
    if entry.renewable {
        renewed_end(entry, forest.margin(), rising)
    } else {
        entry.end
    }
}

/// The last end of a renewable entry that is asked by itself at each moment of the runs. From the first moment that gains on
/// the end is at most a step after the last one that came in time, so the first gap that the step does not bridge ends it.
/// So the loop turns four times at most: it may take the run in which the first moment gains, passes at once all runs whose
/// gaps are bridged, takes the one after them, and finds the next too late.
fn renewed_end(entry: &Entry, margin: u32, rising: &RisingRuns) -> u64
    requires { entry.now.renewable ≡ true }
    ensures { result ≡ own_end entry.now margin entry.now.end (moments_of (all_wakes rising.now.runs)) }
{
    let runs = rising.list();
    // The least gap that the step does not bridge.
    let too_wide = (entry.step as u64 + 1).saturating_sub(margin as u64);
    let mut end = entry.end;
    let mut at = rising.first_gaining(entry);
    while at < runs.len() {
        if end < runs[at].first + margin as u64 {
            return end;
        }
        let wide = rising.wide_from(at, too_wide);
        if at < wide {
            end = end.max(renewal(entry, last_of(&runs[wide - 1])));
            at = wide;
        } else {
            end = own_after_run(entry, margin, end, &runs[at]);
            at += 1;
        }
    }
    end
}

/// The end after a run, whose first moment comes in time, of an entry that is asked by itself at each of its moments.
fn own_after_run(entry: &Entry, margin: u32, end: u64, run: &Run) -> u64
    requires renewable { entry.now.renewable ≡ true }
    requires some { 0 < run.now.count }
    requires within { run.now.first + (run.now.count - 1) * run.now.step ≤ LAST }
    requires first { run.now.first + margin ≤ end }
    ensures { result ≡ own_end entry.now margin end (moments_of (wakes run.now)) }
{
    let more = more_in_time(entry, margin, end, run);
    end.max(renewal(entry, run.first + more * run.step))
}

/// How many more of the moments of a run, after its first, find an entry in time that is asked by itself.
fn more_in_time(entry: &Entry, margin: u32, end: u64, run: &Run) -> u64
    requires some { 0 < run.now.count }
    requires within { run.now.first + (run.now.count - 1) * run.now.step ≤ LAST }
    requires first { run.now.first + margin ≤ end }
    ensures most { result ≤ run.now.count - 1 }
    ensures stops { Stops entry.now margin end run.now.step run.now.first result (run.now.count - 1) }
{
    let most = run.count - 1;
    let gap = run.step;
    if most == 0 || gap == 0 {
        return most;
    }
    let margin = margin as u64;
    if (entry.step as u64) < gap + margin {
        return gaps_until(run.first, gap, most, end - margin);
    }
    match entry.ceiling {
        Some(ceiling) => gaps_until(run.first, gap, most, end.max(ceiling) - margin),
        None => most,
    }
}
