ghost use Rattle.std.specs.Prelude.{◌≡◌, ℕ, ◌^◌, ◌+◌, ◌<◌, IfOk, length};
ghost use Rattle.plan_check.specs.code.Steps.{AllFit};
ghost use Rattle.plan_check.specs.code.Gaps.{HasMarks, IsFirstFrom, gap_from, gap_within, gaps_in, gaps_of, mark};

use crate::walk::last_of;
use plan_rule::Run;
use std::alloc::{AllocError, Global};

/// The gaps of some runs, in order, in a balanced tree of their maxima, so that the first wide gap from a place on is
/// found in steps that grow with the logarithm of the runs. A gap is the greatest distance in seconds between moments
/// that are neighbours within a run, or the last of it and the first of the next run.
#[derive(Drop)]
pub(crate) enum GapTree {
    Empty,
    Leaf(u64),
    Fork {
        /// The greatest gap below.
        greatest: u64,
        /// How many gaps are on the left.
        half: usize,
        left: Box<GapTree>,
        right: Box<GapTree>,
    },
}

impl GapTree {
    /// The tree over runs. The only error is out of memory, which is in proportion to the runs.
    pub(crate) fn over(alloc: Global, runs: &[Run]) -> Result<GapTree, AllocError>
        requires { (n : ℕ) × AllFit n runs.now }
        ensures { IfOk result (λ t. HasMarks t × (gaps_in t ≡ gaps_of runs.now)) }
    {
        let mut gaps = Vec::new(alloc);
        for at in 0..runs.len() {
            gaps.push(gap_at(runs, at))?;
        }
        tree_of(alloc, &gaps)
    }

    /// The first place, `from` or after it, of a gap that is at least `least`.
    pub(crate) fn first_from(&self, from: usize, least: u64) -> Option<usize>
        requires marks { HasMarks self.now }
        requires few { length (gaps_in self.now) < 2 ^ 64 }
        ensures { IsFirstFrom (gaps_in self.now) from least result }
    {
        match self {
            GapTree::Empty => None,
            GapTree::Leaf(gap) => {
                if from == 0 && least <= *gap {
                    Some(0)
                } else {
                    None
                }
            }
            GapTree::Fork {
                greatest,
                half,
                left,
                right,
            } => {
                if *greatest < least {
                    return None;
                }
                if from < *half {
                    match left.first_from(from, least) {
                        Some(at) => return Some(at),
                        None => {}
                    }
                }
                match right.first_from(from.saturating_sub(*half), least) {
                    Some(at) => Some(*half + at),
                    None => None,
                }
            }
        }
    }

    /// The greatest gap, 0 where there is none.
    fn greatest(&self) -> u64
        ensures { result ≡ mark self.now }
    {
        match self {
            GapTree::Empty => 0,
            GapTree::Leaf(gap) => *gap,
            GapTree::Fork { greatest, .. } => *greatest,
        }
    }
}

/// The tree of some gaps, each side of which has half of them.
fn tree_of(alloc: Global, gaps: &[u64]) -> Result<GapTree, AllocError>
    ensures { IfOk result (λ t. HasMarks t × (gaps_in t ≡ gaps.now)) }
{
    if gaps.is_empty() {
        return Ok(GapTree::Empty);
    }
    if gaps.len() == 1 {
        return Ok(GapTree::Leaf(gaps[0]));
    }
    let half = gaps.len() / 2;
    let left = tree_of(alloc, &gaps[..half])?;
    let right = tree_of(alloc, &gaps[half..])?;
    Ok(GapTree::Fork {
        greatest: left.greatest().max(right.greatest()),
        half,
        left: Box::new(alloc, left)?,
        right: Box::new(alloc, right)?,
    })
}

/// The gap of the run at this place.
fn gap_at(runs: &[Run], at: usize) -> u64
    requires fit { (n : ℕ) × AllFit n runs.now }
    requires within { at < length runs.now }
    ensures { result ≡ gap_from runs.now at }
{
    let run = &runs[at];
    match runs.get(at + 1) {
        Some(next) => gap_within(run).max(next.first.saturating_sub(last_of(run))),
        None => gap_within(run),
    }
}

/// The distance between neighbouring moments of a run, 0 where it has one alone.
fn gap_within(run: &Run) -> u64
    ensures { result ≡ gap_within run.now }
{
    if run.count == 1 { 0 } else { run.step }
}
