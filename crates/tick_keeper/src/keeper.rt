ghost use Rattle.std.specs.Prelude.{◌≡◌, [], None, IfErr, IfOk};
ghost use Rattle.plan_forest.specs.Forest.{end_of};
ghost use Rattle.plan_rule.specs.Asks.{first_of};
ghost use Rattle.plan_needs.specs.Carried.{IsCarried};
ghost use Rattle.plan_rule.specs.Runs.{moments_of};
ghost use Rattle.plan_search.specs.Planned.{to_come};
ghost use Rattle.tick_keeper.specs.InForce.{AllForcedAs, InForce};
ghost use Rattle.tick_keeper.specs.Replan.{PlanFails, Replan};
ghost use Rattle.tick_keeper.specs.Refusal.{waits_for};
ghost use Rattle.tick_keeper.specs.State.{moment_of_round, unplanned};
ghost use Rattle.tick_keeper.specs.States.{IsState};

use crate::fault::StepFault;
use crate::replan::replan;
use crate::round::OpenRound;
use crate::shortened::{ShortNeed, Shortened};
use base_moment::Moment;
use plan_forest::Forest;
use plan_search::Plan;
use std::alloc::Global;
use std::marker::Model;
use std::mem;

/// The executor: the forest with the ends as told and the needs in force, the last moment, the plan in force from there on,
/// the open round if any, and the needs that were shortened.
#[derive(Debug, Drop)]
pub struct Keeper {
    pub(crate) forest: Forest,
    pub(crate) last: Moment,
    pub(crate) plan: Plan,
    pub(crate) round: Option<OpenRound>,
    pub(crate) shortened: Vec<ShortNeed>,
}

impl Model for Keeper {
    ghost use Rattle.std.specs.Prelude.{◌≡◌};
    ghost use Rattle.plan_rule.specs.Runs.{moments_of};
    ghost use Rattle.plan_search.specs.Planned.{to_come};
    ghost use Rattle.tick_keeper.specs.code.Keeping.{IsKeeper, seen_round};
    ghost use Rattle.tick_keeper.specs.State.{CoreState};

    ghost Value = { CoreState };

    ghost view = { λ k. record { forest = k.forest; last = k.last; to_come = moments_of (to_come k.plan); round = seen_round k.round; shortened = k.shortened.items } };

    ghost invariant = { λ k. IsKeeper k.forest k.last k.plan k.round };
}

impl Keeper {
    /// A keeper of this forest, planned anew from `start`, which is its last moment. Refused, because the plan would have
    /// more than 10,000,000 wake-ups or for lack of memory, it hands the forest back as it was.
    pub fn new(alloc: Global, forest: Forest, start: Moment) -> Result<Keeper, (StepFault, Forest)>
        ensures opened { IfOk result (λ keeper. Replan (unplanned forest) start keeper) }
        ensures refused { IfErr result (λ refused. PlanFails forest start refused.0 × (refused.1 ≡ forest)) }
    {
        let mut forest = forest;
        let mut shortened = Vec::new(alloc);
        match replan(alloc, &mut forest, &mut shortened, start) {
            Ok(plan) => Ok(Keeper {
                forest,
                last: start,
                plan,
                round: None,
                shortened,
            }),
            Err(fault) => Err((fault, forest)),
        }
    }

    /// The last moment.
    pub fn now(&self) -> Moment
        ensures { result ≡ self.now.last }
    {
        self.last
    }

    /// The forest, with the ends as told and the needs in force.
    pub fn forest(&self) -> &Forest
        ensures { result.now ≡ self.now.forest }
    {
        &self.forest
    }

    /// The forest as `forest` lends it, where the keeper is needed no more.
    pub fn into_forest(self) -> Forest
        ensures { result ≡ self.forest }
    {
        self.forest
    }

    /// The moment of the open round, `None` where no round is open. The contract says beside it what every keeper is: a round is
    /// open since the last moment and waits for somebody, and the plan is in force whenever no round is open.
    pub fn open_round(&self) -> Option<Moment>
        ensures value { result ≡ moment_of_round self.now.round }
        ensures state { IsState self.now }
    {
        match &self.round {
            None => None,
            Some(round) => Some(round.at),
        }
    }

    /// Whether a round is open that waits for the answer of this entry. An index past the entries is waited for by none.
    pub fn waits_for(&self, i: u32) -> bool
        ensures { result ≡ waits_for self.now.round i }
    {
        match &self.round {
            None => false,
            Some(round) => i < self.forest.len() && round.waiting[i as usize],
        }
    }

    /// The first moment of the plan in force, `None` where it is empty.
    pub fn next_wake(&self) -> Option<Moment>
        ensures { result ≡ first_of self.now.to_come }
    {
        self.plan.wakes().next().map(|force| force.at)
    }

    /// The plan in force: whenever no round is open, its moments are those of the least and latest plan for the ends as told
    /// and the needs in force, from the last moment, and each of its forces is forced.
    pub fn plan(&self) -> &Plan
        ensures moments { moments_of (to_come result.now) ≡ self.now.to_come }
        ensures carried { IsCarried self.now.forest result.now.start result.now.carried }
        ensures in_force { self.now.round ≡ None → InForce self.now }
        ensures forced { self.now.round ≡ None → AllForcedAs self.now.forest.entries self.now.forest.margin self.now.last (end_of self.now.forest.entries) None (to_come result.now) }
    {
        &self.plan
    }

    /// The needs that were shortened since this was last asked, in the order in which they arose; by index within one
    /// planning. It takes no memory.
    pub fn take_shortened(&mut self) -> Shortened
        ensures value { result ≡ self.old.shortened }
        ensures after { self.new ≡ record self.old { shortened = [] } }
    {
        let none = Vec::new(*self.shortened.allocator());
        Shortened::from_vec(mem::replace(&mut self.shortened, none))
    }
}
