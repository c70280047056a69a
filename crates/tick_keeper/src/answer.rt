ghost use Rattle.std.specs.Prelude.{◌≡◌, ◌++◌, ◌<◌, None, true, length, nat_lt, IfErr, IfOk, IfSome, OnErr};
ghost use Rattle.plan_forest.specs.Forest.{entry_at};
ghost use Rattle.plan_rule.specs.Asks.{first_of};
ghost use Rattle.plan_search.specs.Decides.{IsBestPlan};
ghost use Rattle.tick_keeper.specs.declared.fault.StepFault.TheVariants.{OutOfMemory};
ghost use Rattle.tick_keeper.specs.code.Hearing.{heard_in_round, is_rules, others};
ghost use Rattle.tick_keeper.specs.LawsOfHistories.{IsAnswerEvent};
ghost use Rattle.tick_keeper.specs.Replan.{PlanFails, Replan};
ghost use Rattle.tick_keeper.specs.Refusal.{TellsSpan, step_refusal, waits_for};
ghost use Rattle.tick_keeper.specs.History.{CoreTurn};
ghost use Rattle.tick_keeper.specs.Shorten.{pairs, shorten};
ghost use Rattle.tick_keeper.specs.Step.{entry_after_answer, entry_of_event, state_after_answer, with_entry_changed};

use crate::event::{Event, Output};
use crate::fault::StepFault;
use crate::keeper::Keeper;
use crate::replan::replan;
use crate::shortened::ShortNeed;
use base_moment::Moment;
use plan_forest::{Forest, renewal};
use plan_search::Plan;
use std::alloc::Global;

impl Keeper {
    /// An answer for entry `i`, which is waited for. The last one closes the round.
    pub(crate) fn answer(&mut self, i: u32, event: Event) -> Result<Output, StepFault>
        requires taken { step_refusal self.old event ≡ None }
        requires answer { IsAnswerEvent event }
        requires entry { entry_of_event event ≡ i }
        ensures { CoreTurn self.old event result self.new }
    {
        if self.waits_for_others(i) {
            self.hear(i, event);
            return Ok(Output::Waiting);
        }
        self.close(i, event)?;
        Ok(Output::Round {
            next: self.next_seconds(),
        })
    }

    /// The first moment of the plan in force, in seconds since 1970-01-01T00:00:00Z.
    fn next_seconds(&self) -> Option<u64>
        ensures { result ≡ first_of self.now.to_come }
    {
        self.next_wake().map(|at| at.get())
    }

    /// Whether the answer of another entry is waited for than of this one, which is.
    fn waits_for_others(&self, i: u32) -> bool
        requires within { i < length self.now.forest.entries }
        requires asked { waits_for self.now.round i ≡ true }
        ensures { result ≡ nat_lt 0 (length (others self.now.round i)) }
    {
        match &self.round {
            None => false,
            Some(round) => round.left > 1,
        }
    }

    /// An answer to a round that others are still to answer.
    fn hear(&mut self, i: u32, event: Event)
        requires taken { step_refusal self.old event ≡ None }
        requires answer { IsAnswerEvent event }
        requires entry { entry_of_event event ≡ i }
        requires others { 0 < length (others self.old.round i) }
        ensures { self.new ≡ heard_in_round self.old.round self.old event }
    {
        // an answer is taken only where a round is open
        let Some(mut round) = self.round.take() else {
            return;
        };
        round.by_rule &= is_rules(&self.forest, i, event, round.at);
        round.waiting[i as usize] = false;
        round.left -= 1;
        tell(&mut self.forest, i, event, round.at);
        self.round = Some(round);
    }

    /// The last answer of a round, which closes it. Where each entry was told the rule's end and stays renewable, the rest
    /// of the plan is what planning anew would give, and stands; else it is made anew from the round's moment. Refused, the
    /// round stays open and the answer untaken.
    fn close(&mut self, i: u32, event: Event) -> Result<(), StepFault>
        requires taken { step_refusal self.old event ≡ None }
        requires answer { IsAnswerEvent event }
        requires entry { entry_of_event event ≡ i }
        requires last { length (others self.old.round i) ≡ 0 }
        ensures planned { IfOk result (λ _. IfSome self.old.round (λ round. Replan (state_after_answer self.old event round.at None) round.at self.new)) }
        ensures refused { IfErr result (λ fault. fault ≡ OutOfMemory) }
        ensures unchanged { OnErr result (self.new ≡ self.old) }
    {
        // an answer is taken only where a round is open
        let Some(round) = self.round.take() else {
            return Ok(());
        };
        if round.by_rule & is_rules(&self.forest, i, event, round.at) {
            tell(&mut self.forest, i, event, round.at);
            return Ok(());
        }
        let alloc = *self.shortened.allocator();
        match replan_with_answer(
            alloc,
            &mut self.forest,
            &mut self.shortened,
            i,
            event,
            round.at,
        ) {
            Ok(plan) => {
                self.plan = plan;
                Ok(())
            }
            Err(fault) => {
                self.round = Some(round);
                Err(fault)
            }
        }
    }
}

/// Whether the answer to a round at `at` gives the entry the rule's end and leaves it renewable.
#[tactic(auto, unfolding(crate::specs::code::Hearing::is_rules))]
fn is_rules(forest: &Forest, i: u32, event: Event, at: Moment) -> bool
    requires within { i < length forest.now.entries }
    requires seconds { TellsSpan event }
    ensures { result ≡ is_rules at event (entry_at forest.now.entries i) }
{
    match event {
        Event::Told {
            seconds,
            renewable,
            ..
        } => renewable && at.get() + seconds == renewal(forest.get(i), at.get()),
        _ => false,
    }
}

/// What an answer to a round at `at` makes of its entry.
fn tell(forest: &mut Forest, i: u32, event: Event, at: Moment)
    requires within { i < length forest.old.entries }
    requires seconds { TellsSpan event }
    ensures { forest.new ≡ with_entry_changed forest.old i (entry_after_answer at event) }
{
    match event {
        Event::Told {
            seconds,
            renewable,
            ..
        } => {
            forest.set_end(i, at.get() + seconds);
            forest.set_renewable(i, renewable);
        }
        Event::Refused(_) => forest.set_renewable(i, false),
        Event::Lost(_) | Event::Tick(_) | Event::Need { .. } => {}
    }
}

/// Takes an answer to a round at `at` and plans anew from there. Refused, the forest and the list are as they were.
fn replan_with_answer(
    alloc: Global,
    forest: &mut Forest,
    shortened: &mut Vec<ShortNeed>,
    i: u32,
    event: Event,
    at: Moment,
) -> Result<Plan, StepFault>
    requires within { i < length forest.old.entries }
    requires seconds { TellsSpan event }
    ensures shortened { IfOk result (λ _. (forest.new ≡ shorten (with_entry_changed forest.old i (entry_after_answer at event)) at)
        × (shortened.new.items ≡ shortened.old.items ++ pairs (with_entry_changed forest.old i (entry_after_answer at event)) at)) }
    ensures planned { IfOk result (λ plan. IsBestPlan forest.new at plan) }
    ensures refused { IfErr result (λ fault. PlanFails (with_entry_changed forest.old i (entry_after_answer at event)) at fault) }
    ensures unchanged { OnErr result ((forest.new ≡ forest.old) × (shortened.new.items ≡ shortened.old.items)) }
{
    let end = forest.get(i).end;
    let renewable = forest.get(i).renewable;
    tell(forest, i, event, at);
    let planned = replan(alloc, forest, shortened, at);
    if planned.is_err() {
        forest.set_end(i, end);
        forest.set_renewable(i, renewable);
    }
    planned
}
