ghost use Rattle.std.specs.Prelude.{◌<◌, ◌↔◌, List, length, None, IfSome, IsTrue};
ghost use Rattle.plan_forest.specs.Forest.{end_of};
ghost use Rattle.plan_rule.specs.Unkeepable.{AllKeepable};
ghost use Rattle.plan_needs.specs.Carried.{IsCarried};
ghost use Rattle.plan_rule.specs.declared.force.Force.{Force};
ghost use Rattle.plan_schedule.specs.code.Scanning.{IsLeader, TakesLead};
ghost use Rattle.plan_schedule.specs.Courses.{IsMomentWithin, IsToCome};
ghost use Rattle.plan_schedule.specs.Forces.{AreForces};
ghost use Rattle.plan_schedule.specs.code.Sound.{IsInSight};
ghost use Rattle.plan_schedule.specs.Prospect.{terms_of};

use crate::outlook::Outlook;
use crate::schedule::Schedule;
use base_moment::Moment;
use plan_forest::Forest;
use plan_needs::Carried;
use plan_rule::Force;
use std::marker::Model;

/// The slow form of a schedule: each wake-up costs a look at every entry.
#[derive(Drop)]
pub struct ScanSchedule<'a> {
    outlook: Outlook<'a>,
    last: Option<u64>,
}

impl<'a> Model for ScanSchedule<'a> {
    ghost use Rattle.plan_schedule.specs.Courses.{Course, IsMomentWithin};

    ghost Value = { Course };

    ghost view = { λ q. record { prospect = q.outlook; last = q.last } };

    ghost invariant = { λ q. IsMomentWithin q.last };
}

impl<'a> ScanSchedule<'a> {
    /// The schedule of the forest from `start` on, where `carried` is what its entries carry from there and no pair of them
    /// is unkeepable: its list is that of the forces from `start` on, whose moments are least and latest. It takes no
    /// memory.
    #[tactic(auto, unfolding(crate::specs::Courses::IsToCome))]
    pub fn new(forest: &'a Forest, carried: &'a Carried, start: Moment) -> ScanSchedule<'a>
        requires carried { IsCarried forest.now start carried.now }
        requires keepable { AllKeepable forest.now start (end_of forest.now.entries) }
        ensures { (xs : List Force) → IsToCome result xs ↔ AreForces forest.now.entries forest.now.margin start (end_of forest.now.entries) None xs }
    {
        ScanSchedule {
            outlook: Outlook::new(forest, carried, start),
            last: None,
        }
    }
}

impl<'a> Schedule for ScanSchedule<'a> {
    ghost use Rattle.plan_schedule.specs.Courses.{IsToCome};

    ghost comes = { IsToCome };

    fn next(&mut self) -> Option<Force> {
        let Some(entry) = leader(&self.outlook, self.last) else {
            return None;
        };
        let at = self.outlook.deadline(self.last, entry) - self.outlook.margin();
        self.last = Some(at);
        Some(Force {
            at: Moment::new(at).unwrap(),
            entry,
            needed: self.outlook.from(entry),
        })
    }
}

/// The entry that forces the next wake-up after the one at `last`: of those that end before the need that they carry, the
/// first to end, of several the lowest index.
fn leader(outlook: &Outlook, last: Option<u64>) -> Option<u32>
    requires { IsMomentWithin last }
    ensures leader { IsLeader (terms_of outlook.now) last result }
    ensures within { IfSome result (λ f. f < length outlook.now.loads) }
    ensures sound { IsInSight outlook.now }
{
    let mut best = None;
    for index in 0..outlook.len() {
        if takes_lead(outlook, last, index, best) {
            best = Some(index);
        }
    }
    best
}

/// Whether the entry ends before the need that it carries, and before `best`, if there is one.
fn takes_lead(outlook: &Outlook, last: Option<u64>, index: u32, best: Option<u32>) -> bool
    requires last { IsMomentWithin last }
    requires index { index < length outlook.now.loads }
    requires best { IfSome best (λ f. f < length outlook.now.loads) }
    ensures { IsTrue result ↔ TakesLead (terms_of outlook.now) last index best }
{
    let until = outlook.deadline(last, index);
    if outlook.need(index) <= until {
        return false;
    }
    match best {
        None => true,
        Some(other) => until < outlook.deadline(last, other),
    }
}
