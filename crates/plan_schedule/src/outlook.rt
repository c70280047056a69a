ghost use Rattle.std.specs.Prelude.{◌≡◌, ◌<◌, ◌≤◌, ◌^◌, length};
ghost use Rattle.base_moment.specs.declared.moment.TheConstants.{LAST};
ghost use Rattle.plan_forest.specs.Forest.{end_of};
ghost use Rattle.plan_forest.specs.Push.{IsForest};
ghost use Rattle.plan_rule.specs.Unkeepable.{AllKeepable};
ghost use Rattle.plan_needs.specs.Carried.{IsCarried};
ghost use Rattle.plan_schedule.specs.Courses.{IsMomentWithin};
ghost use Rattle.plan_schedule.specs.code.Sound.{IsInSight, TermsAreSound};
ghost use Rattle.plan_schedule.specs.Prospect.{terms_of};
ghost use Rattle.plan_schedule.specs.Terms.{lasts_until};

use base_moment::Moment;
use plan_forest::Forest;
use plan_needs::Carried;
use std::marker::Model;

/// What a schedule looks at: a forest, and what its entries carry.
#[derive(Drop)]
pub(crate) struct Outlook<'a> {
    forest: &'a Forest,
    carried: &'a Carried,
}

impl<'a> Model for Outlook<'a> {
    ghost use Rattle.plan_schedule.specs.code.Sound.{IsInSight};
    ghost use Rattle.plan_schedule.specs.Prospect.{Prospect};

    ghost Value = { Prospect };

    ghost view = { λ o. record { forest = o.forest.now; loads = o.carried.now } };

    ghost invariant = { λ o. IsInSight (record { forest = o.forest.now; loads = o.carried.now }) };
}

impl<'a> Outlook<'a> {
    /// The outlook on a forest of which no pair is unkeepable from the start on. The start itself stands in the needs that
    /// are carried.
    pub(crate) fn new(forest: &'a Forest, carried: &'a Carried, _start: Moment) -> Outlook<'a>
        requires carried { IsCarried forest.now _start carried.now }
        requires keepable { AllKeepable forest.now _start (end_of forest.now.entries) }
        ensures value { result ≡ record { forest = forest.now; loads = carried.now } }
        ensures sound { IsForest forest.now }
    {
        // Its contract says that the forest is one, which the proof needs here.
        let _entries = forest.len();
        Outlook { forest, carried }
    }

    /// The number of entries.
    pub(crate) fn len(&self) -> u32
        ensures value { result ≡ length self.now.loads }
        ensures sound { IsInSight self.now }
    {
        self.forest.len()
    }

    #[tactic(auto, unfolding(crate::specs::Prospect::terms_of, plan_forest::specs::Forest::end_of))]
    pub(crate) fn margin(&self) -> u64
        ensures value { result ≡ (terms_of self.now).margin }
        ensures sound { TermsAreSound (terms_of self.now) }
    {
        self.forest.margin() as u64
    }

    #[tactic(auto, unfolding(crate::specs::Prospect::terms_of, plan_forest::specs::Forest::end_of))]
    pub(crate) fn end(&self, index: u32) -> u64
        requires { index < length self.now.loads }
        ensures value { result ≡ (terms_of self.now).end index }
        ensures sound { TermsAreSound (terms_of self.now) }
    {
        self.forest.get(index).end
    }

    #[tactic(auto, unfolding(crate::specs::Prospect::terms_of, plan_forest::specs::Forest::end_of))]
    pub(crate) fn step(&self, index: u32) -> u64
        requires { index < length self.now.loads }
        ensures value { result ≡ (terms_of self.now).step index }
        ensures within { result < 2 ^ 32 }
    {
        self.forest.get(index).step as u64
    }

    /// The carried need.
    #[tactic(auto, unfolding(crate::specs::Prospect::terms_of, plan_forest::specs::Forest::end_of))]
    pub(crate) fn need(&self, index: u32) -> u64
        requires { index < length self.now.loads }
        ensures value { result ≡ (terms_of self.now).need index }
        ensures within { result ≤ LAST }
    {
        self.carried.need(index)
    }

    /// The entry whose need is carried, 0 where there is none.
    #[tactic(auto, unfolding(crate::specs::Prospect::terms_of, plan_forest::specs::Forest::end_of))]
    pub(crate) fn from(&self, index: u32) -> u32
        requires { index < length self.now.loads }
        ensures { result ≡ (terms_of self.now).from index }
    {
        self.carried.from(index).unwrap_or(0)
    }

    /// Until when the entry lasts after a wake-up at `last`.
    pub(crate) fn deadline(&self, last: Option<u64>, index: u32) -> u64
        requires index { index < length self.now.loads }
        requires last { IsMomentWithin last }
        ensures { result ≡ lasts_until (terms_of self.now) last index }
    {
        match last {
            None => self.end(index),
            Some(at) => self.end(index).max(at + self.step(index)),
        }
    }
}
