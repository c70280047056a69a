ghost use Rattle.std.specs.Prelude.{◌≡◌, ◌<◌, ◌≤◌, IfOk, MatchOption};
ghost use Rattle.plan_search.specs.Widest.{IsFewest, IsWidest, KeepsWithin, NoneIsEnough};
ghost use Rattle.plan_search.specs.code.Widening.{WidestIsBetween};

use crate::decision::Decision;
use crate::fault::PlanFault;
use crate::planning::plan;
use base_moment::Moment;
use plan_forest::Forest;
use plan_schedule::LIMIT;
use std::alloc::Global;

/// A margin, in seconds, and how many wake-ups the least plan has with it.
#[derive(Clone, Copy, Debug, PartialEq, Eq)]
pub struct Widest {
    pub margin: u32,
    pub wakes: u64,
}

/// The greatest margin that the entries allow and with which some plan from `start` on keeps by at most `most_wakes`
/// wake-ups, whatever the forest's own margin is; `None` where there is none. The forest is as before, also after the only
/// error, which is that memory was refused. It takes at most twelve plans.
///
/// Source: this project's own.
pub fn widest_margin(
    alloc: Global,
    forest: &mut Forest,
    start: Moment,
    most_wakes: u64,
) -> Result<Option<Widest>, PlanFault>
    requires { most_wakes ≤ LIMIT }
    ensures value { IfOk result (λ widest. MatchOption widest (NoneIsEnough forest.old start most_wakes) (λ w. IsWidest forest.old start most_wakes w)) }
    ensures unchanged { forest.new ≡ forest.old }
{
    // Its contract says that the forest is one, so its own margin can be set again.
    let _entries = forest.len();
    let own = forest.margin();
    let found = bisect(alloc, forest, start, most_wakes);
    forest.set_margin(own);
    let widest = found?;
    if widest.margin == 0 {
        return Ok(None);
    }
    Ok(Some(widest))
}

/// The greatest margin that is enough; the margin 0 where none is. It leaves another margin in the forest.
fn bisect(
    alloc: Global,
    forest: &mut Forest,
    start: Moment,
    most_wakes: u64,
) -> Result<Widest, PlanFault>
    requires { most_wakes ≤ LIMIT }
    ensures value { IfOk result (λ low. WidestIsBetween forest.old start most_wakes low low.margin) }
    ensures entries { forest.new.entries ≡ forest.old.entries }
{
    let mut low = Widest {
        margin: 0,
        wakes: 0,
    };
    let mut high = forest.most_margin();
    while low.margin < high {
        let margin = high - (high - low.margin) / 2;
        forest.set_margin(margin);
        match fewest_within(alloc, forest, start, most_wakes)? {
            Some(wakes) => low = Widest { margin, wakes },
            None => high = margin - 1,
        }
    }
    Ok(low)
}

/// How many wake-ups the least plan from `start` on has, `None` where no plan keeps by at most `most_wakes`.
fn fewest_within(
    alloc: Global,
    forest: &Forest,
    start: Moment,
    most_wakes: u64,
) -> Result<Option<u64>, PlanFault>
    requires { most_wakes ≤ LIMIT }
    ensures { IfOk result (λ found. MatchOption found (KeepsWithin forest.now start most_wakes → ⊥) (λ wakes. (wakes ≤ most_wakes) × IsFewest forest.now start wakes)) }
{
    match plan(alloc, forest, start)? {
        Decision::Keep(plan) => Ok(at_most(most_wakes, plan.len())),
        Decision::Unkeepable { .. } => Ok(None),
        Decision::TooLong => Ok(None),
    }
}

/// A number, `None` where it is more than the most.
fn at_most(most: u64, number: u64) -> Option<u64>
    ensures { MatchOption result (most < number) (λ n. (n ≡ number) × (n ≤ most)) }
{
    if number <= most { Some(number) } else { None }
}
