ghost use Rattle.std.specs.Prelude.{◌≡◌};
ghost use Rattle.plan_rule.specs.Runs.{AreRuns, IsRun, all_wakes, wakes};
ghost use Rattle.plan_search.specs.Planned.{behind_first, next_after};

use base_moment::Moment;
use plan_schedule::Run;

/// The run without its first wake-up, `None` where it has no other.
pub(crate) fn behind_first(run: Run) -> Option<Run>
    requires { IsRun run }
    ensures { result ≡ behind_first run }
{
    if run.count == 1 {
        return None;
    }
    let step = if run.count == 2 { 0 } else { run.step };
    Some(Run {
        first: run.first + run.step,
        step,
        count: run.count - 1,
        ..run
    })
}

/// The moment of the first wake-up of these runs that comes after `at`.
pub(crate) fn next_after(runs: &[Run], at: Moment) -> Option<Moment>
    requires { AreRuns runs.now }
    ensures { result ≡ next_after at (all_wakes runs.now) }
{
    for run in runs {
        let next = next_in(*run, at);
        if next.is_some() {
            return next;
        }
    }
    None
}

/// The moment of the first wake-up of the run that comes after `at`.
fn next_in(run: Run, at: Moment) -> Option<Moment>
    requires { IsRun run }
    ensures { result ≡ next_after at (wakes run) }
{
    if at.get() < run.first {
        return Moment::new(run.first);
    }
    if run.step == 0 {
        return None;
    }
    let passed = (at.get() - run.first) / run.step + 1;
    if passed < run.count {
        Moment::new(run.first + passed * run.step)
    } else {
        None
    }
}
