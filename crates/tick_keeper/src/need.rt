ghost use Rattle.std.specs.Prelude.{◌≡◌, ◌++◌, ◌<◌, None, length, IfErr, IfOk, OnErr};
ghost use Rattle.plan_search.specs.Decides.{IsBestPlan};
ghost use Rattle.tick_keeper.specs.declared.event.Event.TheVariants as events;
ghost use Rattle.tick_keeper.specs.Replan.{PlanFails};
ghost use Rattle.tick_keeper.specs.Refusal.{step_refusal};
ghost use Rattle.tick_keeper.specs.History.{CoreTurn};
ghost use Rattle.tick_keeper.specs.Shorten.{pairs, shorten};
ghost use Rattle.tick_keeper.specs.Step.{with_entry_changed};

use crate::event::Output;
use crate::fault::StepFault;
use crate::keeper::Keeper;
use crate::replan::replan;
use crate::shortened::ShortNeed;
use base_moment::Moment;
use plan_forest::Forest;
use plan_search::Plan;
use std::alloc::Global;

impl Keeper {
    /// A new need: it is set, and planned anew from the last moment.
    pub(crate) fn need(&mut self, i: u32, until: u64) -> Result<Output, StepFault>
        requires { step_refusal self.old (events.Need i until) ≡ None }
        ensures { CoreTurn self.old (events.Need i until) result self.new }
    {
        let alloc = *self.shortened.allocator();
        let until = Moment::new(until).unwrap();
        let plan = replan_with_need(
            alloc,
            &mut self.forest,
            &mut self.shortened,
            i,
            until,
            self.last,
        )?;
        self.plan = plan;
        Ok(Output::Planned)
    }
}

/// Sets a need in the forest and plans anew. Refused, the forest and the list are as they were.
fn replan_with_need(
    alloc: Global,
    forest: &mut Forest,
    shortened: &mut Vec<ShortNeed>,
    i: u32,
    until: Moment,
    at: Moment,
) -> Result<Plan, StepFault>
    requires { i < length forest.old.entries }
    ensures shortened { IfOk result (λ _. (forest.new ≡ shorten (with_entry_changed forest.old i (λ e. record e { need = until })) at)
        × (shortened.new.items ≡ shortened.old.items ++ pairs (with_entry_changed forest.old i (λ e. record e { need = until })) at)) }
    ensures planned { IfOk result (λ plan. IsBestPlan forest.new at plan) }
    ensures refused { IfErr result (λ fault. PlanFails (with_entry_changed forest.old i (λ e. record e { need = until })) at fault) }
    ensures unchanged { OnErr result ((forest.new ≡ forest.old) × (shortened.new.items ≡ shortened.old.items)) }
{
    let before = Moment::new(forest.get(i).need).unwrap();
    forest.set_need(i, until);
    let planned = replan(alloc, forest, shortened, at);
    if planned.is_err() {
        forest.set_need(i, before);
    }
    planned
}
