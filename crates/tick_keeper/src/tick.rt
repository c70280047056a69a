ghost use Rattle.std.specs.Prelude.{◌≡◌, ◌++◌, None, IfErr, IfOk, OnErr};
ghost use Rattle.plan_forest.specs.Forest.{end_of};
ghost use Rattle.plan_rule.specs.Asks.{first_of};
ghost use Rattle.plan_rule.specs.Unkeepable.{AllKeepable};
ghost use Rattle.plan_search.specs.Decides.{IsBestPlan};
ghost use Rattle.plan_search.specs.Planned.{to_come};
ghost use Rattle.plan_rule.specs.Runs.{moments_of};
ghost use Rattle.tick_keeper.specs.declared.event.Event.TheVariants as events;
ghost use Rattle.tick_keeper.specs.code.Passes.{PlanRefused};
ghost use Rattle.tick_keeper.specs.Replan.{PlanFails};
ghost use Rattle.tick_keeper.specs.Refusal.{step_refusal};
ghost use Rattle.tick_keeper.specs.History.{CoreTurn};
ghost use Rattle.tick_keeper.specs.Shorten.{pairs, shorten};
ghost use Rattle.tick_keeper.specs.code.Waking.{CoreWakes, OpensRound, is_late};

use crate::event::Output;
use crate::fault::StepFault;
use crate::keeper::Keeper;
use crate::opening::{Opening, opening_at};
use crate::replan::{plan_kept, restore, shorten};
use crate::shortened::ShortNeed;
use base_moment::Moment;
use plan_forest::Forest;
use plan_search::Plan;
use std::alloc::Global;

impl Keeper {
    /// A tick. Where it is not late the plan in force is what planning anew would give, and stays; else it is made anew from
    /// the tick's moment. Then its first wake-up decides.
    pub(crate) fn tick(&mut self, at: u64) -> Result<Output, StepFault>
        requires { step_refusal self.old (events.Tick at) ≡ None }
        ensures { CoreTurn self.old (events.Tick at) result self.new }
    {
        let alloc = *self.shortened.allocator();
        let at = Moment::new(at).unwrap();
        if self.is_late(at) {
            let late = replan_late(alloc, &mut self.forest, &mut self.shortened, at)?;
            self.plan = late.plan;
            self.last = at;
            return Ok(self.wake(late.opening));
        }
        let opening = opening_at(alloc, &self.forest, &self.plan, at)?;
        self.last = at;
        Ok(self.wake(opening))
    }

    /// Whether the first wake-up of the plan in force comes before `at`.
    fn is_late(&self, at: Moment) -> bool
        ensures { result ≡ is_late at (first_of self.now.to_come) }
    {
        match self.next_wake() {
            None => false,
            Some(next) => next.get() < at.get(),
        }
    }

    /// What the plan in force says at the last moment, from which it is planned. Where a wake-up is due, its round opens.
    fn wake(&mut self, opening: Option<Opening>) -> Output
        requires closed { self.old.round ≡ None }
        requires opening { OpensRound self.old.forest self.old.last self.old.to_come opening }
        ensures { CoreWakes self.old result self.new }
    {
        if let Some(opening) = opening {
            self.plan.drop_first();
            self.round = Some(opening.round);
            return Output::Ask(opening.asked);
        }
        match self.next_wake() {
            None => Output::Idle,
            Some(next) => Output::Sleep(next.get()),
        }
    }
}

/// What a late tick makes anew.
#[derive(Drop)]
struct Late {
    plan: Plan,
    opening: Option<Opening>,
}

/// Shortens needs and plans anew from `at`, with what opens a round there. Refused, the forest and the list are as they were.
fn replan_late(
    alloc: Global,
    forest: &mut Forest,
    shortened: &mut Vec<ShortNeed>,
    at: Moment,
) -> Result<Late, StepFault>
    ensures shortened { IfOk result (λ _. (forest.new ≡ shorten forest.old at) × (shortened.new.items ≡ shortened.old.items ++ pairs forest.old at)) }
    ensures planned { IfOk result (λ late. IsBestPlan forest.new at late.plan) }
    ensures opening { IfOk result (λ late. OpensRound forest.new at (moments_of (to_come late.plan)) late.opening) }
    ensures refused { IfErr result (λ fault. PlanFails forest.old at fault) }
    ensures unchanged { OnErr result ((forest.new ≡ forest.old) × (shortened.new.items ≡ shortened.old.items)) }
{
    let noted = shortened.len();
    let needs = shorten(alloc, forest, shortened, at)?;
    match plan_late(alloc, forest, at) {
        Ok(late) => Ok(late),
        Err(fault) => {
            restore(forest, shortened, &needs, noted);
            Err(fault)
        }
    }
}

/// The plan from `at` for a forest in which no pair is unkeepable, with what opens a round there.
fn plan_late(alloc: Global, forest: &Forest, at: Moment) -> Result<Late, StepFault>
    requires { AllKeepable forest.now at (end_of forest.now.entries) }
    ensures planned { IfOk result (λ late. IsBestPlan forest.now at late.plan) }
    ensures opening { IfOk result (λ late. OpensRound forest.now at (moments_of (to_come late.plan)) late.opening) }
    ensures refused { IfErr result (λ fault. PlanRefused forest.now at fault) }
{
    let plan = plan_kept(alloc, forest, at)?;
    let opening = opening_at(alloc, forest, &plan, at)?;
    Ok(Late { plan, opening })
}
