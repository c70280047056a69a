ghost use Rattle.std.specs.Prelude.{◌≡◌, ◌++◌, ◌≤◌, IfErr, IfOk, OnErr, length, take};
ghost use Rattle.base_moment.specs.declared.moment.TheConstants.{LAST};
ghost use Rattle.plan_forest.specs.Forest.{end_of};
ghost use Rattle.plan_forest.specs.Push.{IsForest};
ghost use Rattle.plan_rule.specs.Unkeepable.{AllKeepable};
ghost use Rattle.plan_search.specs.Decides.{IsBestPlan};
ghost use Rattle.tick_keeper.specs.code.Passes.{ForestHasNeeds, PlanRefused, forest_with_needs};
ghost use Rattle.tick_keeper.specs.Replan.{PlanFails};
ghost use Rattle.tick_keeper.specs.Shorten.{pairs, shorten};

use crate::fault::StepFault;
use crate::least::least_reaches;
use crate::shorten::{needs_left, needs_of, pairs, set_needs};
use crate::shortened::ShortNeed;
use base_moment::Moment;
use plan_forest::Forest;
use plan_search::{Decision, Plan, plan};
use std::alloc::{AllocError, Global};

/// Shortens, in the forest, the needs that no plan from `at` can keep, notes them after those of before, and plans anew from
/// there. Refused, the forest and the list are as they were.
pub(crate) fn replan(
    alloc: Global,
    forest: &mut Forest,
    shortened: &mut Vec<ShortNeed>,
    at: Moment,
) -> Result<Plan, StepFault>
    ensures sound { IsForest forest.old × (at ≤ LAST) }
    ensures shortened { IfOk result (λ _. (forest.new ≡ shorten forest.old at) × (shortened.new.items ≡ shortened.old.items ++ pairs forest.old at)) }
    ensures planned { IfOk result (λ plan. IsBestPlan forest.new at plan) }
    ensures refused { IfErr result (λ fault. PlanFails forest.old at fault) }
    ensures unchanged { OnErr result ((forest.new ≡ forest.old) × (shortened.new.items ≡ shortened.old.items)) }
{
    let noted = shortened.len();
    let needs = shorten(alloc, forest, shortened, at)?;
    match plan_kept(alloc, forest, at) {
        Ok(plan) => Ok(plan),
        Err(fault) => {
            restore(forest, shortened, &needs, noted);
            Err(fault)
        }
    }
}

/// Shortens, in the forest, the needs that no plan from `at` can keep, notes them after those of before, and gives the needs
/// as they were. Refused, which is for lack of memory alone, the forest and the list are as they were.
pub(crate) fn shorten(
    alloc: Global,
    forest: &mut Forest,
    shortened: &mut Vec<ShortNeed>,
    at: Moment,
) -> Result<Vec<Moment>, AllocError>
    ensures sound { IsForest forest.old × (at ≤ LAST) }
    ensures shortened { IfOk result (λ _. (forest.new ≡ shorten forest.old at) × (shortened.new.items ≡ shortened.old.items ++ pairs forest.old at)) }
    ensures before { IfOk result (λ needs. ForestHasNeeds forest.old needs.items) }
    ensures unchanged { OnErr result ((forest.new ≡ forest.old) × (shortened.new.items ≡ shortened.old.items)) }
{
    // asked only for what each of them tells the proof: that this is a forest, and that a moment
    let _entries = forest.len();
    let _seconds = at.get();
    let reaches = least_reaches(alloc, forest, at)?;
    let before = needs_of(alloc, forest)?;
    let needs = needs_left(alloc, forest, &reaches, at)?;
    shortened.extend_from_slice(&pairs(alloc, forest, &reaches, at)?)?;
    set_needs(forest, &needs);
    Ok(before)
}

/// Takes shortening back: the needs are these again, and the first `noted` pairs stay.
pub(crate) fn restore(
    forest: &mut Forest,
    shortened: &mut Vec<ShortNeed>,
    needs: &[Moment],
    noted: usize,
)
    requires { length needs.now ≡ length forest.old.entries }
    ensures forest { forest.new ≡ forest_with_needs forest.old needs.now }
    ensures shortened { shortened.new.items ≡ take noted shortened.old.items }
{
    set_needs(forest, needs);
    shortened.truncate(noted);
}

/// The plan from `at` for a forest in which no pair is unkeepable.
pub(crate) fn plan_kept(alloc: Global, forest: &Forest, at: Moment) -> Result<Plan, StepFault>
    requires { AllKeepable forest.now at (end_of forest.now.entries) }
    ensures kept { IfOk result (λ plan. IsBestPlan forest.now at plan) }
    ensures refused { IfErr result (λ fault. PlanRefused forest.now at fault) }
{
    // tells the proof that this is a forest
    let _entries = forest.len();
    match plan(alloc, forest, at)? {
        Decision::Keep(plan) => Ok(plan),
        // no pair is unkeepable, so there is no other answer
        Decision::Unkeepable { .. } | Decision::TooLong => Err(StepFault::TooLong),
    }
}
