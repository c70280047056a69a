ghost use Rattle.std.specs.Prelude.{◌≡◌, ◌+◌, ◌-◌, ◌*◌, ◌<◌, ◌≤◌, Some, None, IfSome, length};
ghost use Rattle.base_moment.specs.declared.moment.TheConstants.{LAST};
ghost use Rattle.plan_forest.specs.Forest.{end_of, entry_at};
ghost use Rattle.plan_forest.specs.Over.{Over};
ghost use Rattle.plan_rule.specs.Forced.{Forced, bound};
ghost use Rattle.plan_rule.specs.Runs.{all_wakes, wake_count, wakes, wakes_of};
ghost use Rattle.plan_rule.specs.declared.limit.TheConstants.{LIMIT};
ghost use Rattle.plan_check.specs.Answer.{first_fault};
ghost use Rattle.plan_check.specs.code.Steps.{AllFit, WalkFinds};
ghost use Rattle.plan_check.specs.Fit.{RunIsFit};
ghost use Rattle.plan_check.specs.Walk.{is_forced, rises};

use crate::answer::Cause;
use crate::bound::{latest_end, long_from};
use crate::gaps::gaps_to;
use plan_forest::Forest;
use plan_rule::Run;

/// The first wake-up of the runs that does not rise or is not forced. It costs a division or two for each run.
pub(crate) fn first_fault(forest: &Forest, start: u64, runs: &[Run]) -> Option<Cause>
    requires fit { AllFit (length forest.now.entries) runs.now }
    requires number { wake_count runs.now ≤ LIMIT }
    ensures { result ≡ first_fault forest.now start (all_wakes runs.now) }
{
    let mut previous = None;
    let mut count = 1;
    for run in runs {
        match fault_of_run(forest, start, previous, count, run) {
            Some(cause) => return Some(cause),
            None => {}
        }
        previous = Some(last_of(run));
        count += run.count;
    }
    None
}

/// The last moment of a run.
pub(crate) fn last_of(run: &Run) -> u64
    requires some { 0 < run.now.count }
    requires within { run.now.first + (run.now.count - 1) * run.now.step ≤ LAST }
    ensures { result ≡ run.now.first + (run.now.count - 1) * run.now.step }
{
    run.first + (run.count - 1) * run.step
}

/// The first fault of a run after a wake-up at `previous`; its first wake-up is the one number `count`.
fn fault_of_run(
    forest: &Forest,
    start: u64,
    previous: Option<u64>,
    count: u64,
    run: &Run,
) -> Option<Cause>
    requires fit { RunIsFit (length forest.now.entries) run.now }
    requires room { IfSome previous (λ t. t ≤ LAST) }
    requires number { count + run.now.count ≤ LIMIT + 1 }
    ensures { WalkFinds forest.now start previous count (wakes run.now)
        (run.now.first + (run.now.count - 1) * run.now.step) (count + run.now.count) result }
{
    if !rises(start, previous, run.first) {
        return Some(Cause::NotRising(count));
    }
    if !is_forced(forest, start, previous, run) {
        return Some(Cause::NotForced(count));
    }
    fault_after_first(forest, start, count + 1, run)
}

/// Whether a wake-up at `at` is not before the start and after the one before it.
#[tactic(auto, unfolding(crate::specs::Walk::rises))]
fn rises(start: u64, previous: Option<u64>, at: u64) -> bool
    ensures { result ≡ rises start previous at }
{
    match previous {
        None => start <= at,
        Some(before) => start <= at && before < at,
    }
}

/// Whether the pair of the run forces its first wake-up.
#[tactic(auto, unfolding(crate::specs::Walk::is_forced, plan_rule::specs::Forced::bound, plan_forest::specs::Forest::end_of))]
fn is_forced(forest: &Forest, start: u64, previous: Option<u64>, run: &Run) -> bool
    requires entry { run.now.entry < length forest.now.entries }
    requires needed { run.now.needed < length forest.now.entries }
    requires first { run.now.first ≤ LAST }
    requires room { IfSome previous (λ t. t ≤ LAST) }
    ensures { result ≡ is_forced forest.now.entries forest.now.margin start (end_of forest.now.entries) previous run.now.first run.now.entry run.now.needed }
{
    if !forest.is_over(run.entry, run.needed) {
        return false;
    }
    let need = forest.get(run.needed).need;
    let bound = latest_end(forest.get(run.entry), previous);
    start < need && bound < need && bound <= run.first + forest.margin() as u64
}

/// The first fault of a run after its first wake-up, which is forced; the second is the one number `count`. Once a bound
/// is no later than the margin after the next wake-up, those of all that follow are so; and bounds only grow, so the first
/// that reaches the need is found by a division.
fn fault_after_first(forest: &Forest, start: u64, count: u64, run: &Run) -> Option<Cause>
    requires fit { RunIsFit (length forest.now.entries) run.now }
    requires number { count + (run.now.count - 1) ≤ LIMIT + 1 }
    requires start { start ≤ run.now.first }
    requires over { Over forest.now.entries run.now.entry run.now.needed }
    requires later { start < (entry_at forest.now.entries run.now.needed).need }
    requires short { (entry_at forest.now.entries run.now.entry).end < (entry_at forest.now.entries run.now.needed).need }
    ensures { WalkFinds forest.now start (Some run.now.first) count
        (wakes_of (run.now.first + run.now.step) run.now.step (run.now.count - 1) run.now.entry run.now.needed)
        (run.now.first + (run.now.count - 1) * run.now.step) (count + (run.now.count - 1)) result }
{
    let more = run.count - 1;
    if more == 0 {
        return None;
    }
    let step = run.step;
    if step == 0 {
        return Some(Cause::NotRising(count));
    }
    let entry = forest.get(run.entry);
    let bound = latest_end(entry, Some(run.first));
    if run.first + step + (forest.margin() as u64) < bound {
        return Some(Cause::NotForced(count));
    }
    match long_from(entry, forest.get(run.needed).need) {
        None => None,
        Some(top) => {
            let gaps = gaps_to(run.first, step, top);
            if gaps < more {
                Some(Cause::NotForced(count + gaps))
            } else {
                None
            }
        }
    }
}
