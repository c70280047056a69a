ghost use Rattle.std.specs.Prelude.{◌≡◌, ℕ, ◌<◌, ◌≤◌, ◌⊎◌, IfOk, length, slice_index};
ghost use Rattle.plan_rule.specs.Schedule.{RisesStrictly};
ghost use Rattle.plan_rule.specs.Runs.{all_wakes, moments_of};
ghost use Rattle.plan_check.specs.code.Steps.{AllFit};
ghost use Rattle.plan_check.specs.code.Gaps.{AllNarrow, IsIdleAt, gaps_of};

use crate::gap_tree::GapTree;
use plan_forest::Entry;
use plan_rule::Run;
use std::alloc::{AllocError, Global};
use std::marker::Model;

/// Runs whose moments rise from a start on, with the gaps between these at hand.
///
/// To contracts it is the record of the start and the runs.
#[derive(Drop)]
pub(crate) struct RisingRuns<'a> {
    start: u64,
    runs: &'a [Run],
    gaps: GapTree,
}

impl<'a> Model for RisingRuns<'a> {
    ghost use Rattle.plan_check.specs.code.Rising.{AreRising, Rising};

    ghost Value = { Rising };

    ghost view = { λ r. record { start = r.start; runs = r.runs.now } };

    ghost invariant = { λ r. AreRising r.start r.runs.now r.gaps };
}

impl<'a> RisingRuns<'a> {
    /// These runs. The only error is out of memory, which is in proportion to them.
    pub(crate) fn over(
        alloc: Global,
        start: u64,
        runs: &'a [Run],
    ) -> Result<RisingRuns<'a>, AllocError>
        requires fit { (n : ℕ) × AllFit n runs.now }
        requires rising { RisesStrictly start (moments_of (all_wakes runs.now)) }
        ensures { IfOk result (λ rising. rising ≡ record { start = start; runs = runs.now }) }
    {
        Ok(RisingRuns {
            start,
            runs,
            gaps: GapTree::over(alloc, runs)?,
        })
    }

    /// The moment from which on they rise.
    pub(crate) fn start(&self) -> u64
        ensures { result ≡ self.now.start }
    {
        self.start
    }

    /// The runs in order.
    pub(crate) fn list(&self) -> &[Run]
        ensures value { result.now ≡ self.now.runs }
        ensures fit { (n : ℕ) × AllFit n result.now }
        ensures rising { RisesStrictly self.now.start (moments_of (all_wakes result.now)) }
    {
        self.runs
    }

    /// The place of the first run, `at` or after it, whose gap is at least `too_wide`; the number of runs where there is
    /// none.
    pub(crate) fn wide_from(&self, at: usize, too_wide: u64) -> usize
        ensures within { result ≤ length self.now.runs }
        ensures narrow { AllNarrow (gaps_of self.now.runs) at result too_wide }
        ensures wide { result < length self.now.runs → (at ≤ result) × (too_wide ≤ slice_index (gaps_of self.now.runs) result) }
    {
        self.gaps
            .first_from(at, too_wide)
            .unwrap_or(self.runs.len())
    }

    /// The place of the last run at whose first moment a renewal gives no more than the present end: before that run no
    /// moment gains. 0 where there is no such run.
    pub(crate) fn first_gaining(&self, entry: &Entry) -> usize
        ensures idle { (result ≡ 0) ⊎ IsIdleAt entry.now entry.now.end self.now.runs result }
        ensures last { (at : ℕ) → result < at → IsIdleAt entry.now entry.now.end self.now.runs at → ⊥ }
    {
        match entry.end.checked_sub(entry.step as u64) {
            Some(idle) => self
                .runs
                .partition_point(|run| run.first <= idle)
                .saturating_sub(1),
            None => 0,
        }
    }
}
