ghost use Rattle.std.specs.Prelude.{◌≡◌, ◌+◌, ◌-◌, ◌*◌, ◌<◌, ◌≤◌, ◌↔◌, List, length, None, IfOk, IfSome};
ghost use Rattle.base_moment.specs.declared.moment.TheConstants.{LAST};
ghost use Rattle.plan_forest.specs.Forest.{end_of};
ghost use Rattle.plan_rule.specs.Unkeepable.{AllKeepable};
ghost use Rattle.plan_needs.specs.Carried.{IsCarried};
ghost use Rattle.plan_rule.specs.declared.force.Force.{Force};
ghost use Rattle.plan_schedule.specs.Courses.{IsMomentWithin, IsToCome};
ghost use Rattle.plan_schedule.specs.Forces.{AreForces};
ghost use Rattle.plan_schedule.specs.Prospect.{terms_of};
ghost use Rattle.plan_schedule.specs.code.Queueing.{FillsLine, GroupsAreReady, RunIsBegun, runs_left};
ghost use Rattle.plan_schedule.specs.Given.{GivesRun, LeavesFewer};

use crate::fault::ScheduleFault;
use crate::groups::{Groups, Next};
use crate::line::Line;
use crate::outlook::Outlook;
use crate::schedule::Schedule;
use crate::stretch::extend;
use base_moment::Moment;
use plan_forest::Forest;
use plan_needs::Carried;
use plan_rule::{Force, Run};
use std::alloc::{AllocError, Global};
use std::marker::Model;

/// A schedule by a queue of deadlines: an entry waits until a wake-up and its step reach its present end; then it has
/// joined, and leaves where they reach the need that it carries. A run of wake-ups costs a logarithm of the number of
/// entries for each that joins or leaves.
#[derive(Drop)]
pub struct QueueSchedule<'a> {
    outlook: Outlook<'a>,
    groups: Groups,
    next: Next,
    last: Option<u64>,
}

impl<'a> Model for QueueSchedule<'a> {
    ghost use Rattle.std.specs.Prelude.{length};
    ghost use Rattle.plan_schedule.specs.Courses.{IsMomentWithin};
    ghost use Rattle.plan_schedule.specs.Prospect.{terms_of};
    ghost use Rattle.plan_schedule.specs.code.Queueing.{GroupsAreReady, runs_left};
    ghost use Rattle.plan_schedule.specs.Queues.{Queue};

    ghost Value = { Queue };

    ghost view = { λ q. record { course = record { prospect = q.outlook; last = q.last }; runs = runs_left q.groups q.next } };

    ghost invariant = { λ q. IsMomentWithin q.last × GroupsAreReady q.outlook q.last q.groups q.next };
}

impl<'a> QueueSchedule<'a> {
    /// The schedule of the forest from `start` on, where `carried` is what its entries carry from there and no pair of them
    /// is unkeepable: its list is that of the forces from `start` on, whose moments are least and latest. Its runs are fewer
    /// than twice the entries. It makes room for every entry at once. The only error is out of memory.
    pub fn new(
        alloc: Global,
        forest: &'a Forest,
        carried: &'a Carried,
        start: Moment,
    ) -> Result<QueueSchedule<'a>, ScheduleFault>
        requires carried { IsCarried forest.now start carried.now }
        requires keepable { AllKeepable forest.now start (end_of forest.now.entries) }
        ensures list { IfOk result (λ q. (xs : List Force) → IsToCome q.course xs ↔ AreForces forest.now.entries forest.now.margin start (end_of forest.now.entries) None xs) }
        ensures runs { IfOk result (λ q. q.runs ≤ 2 * length forest.now.entries - 1) }
    {
        let outlook = Outlook::new(forest, carried, start);
        let groups = Groups {
            waits: waiting(alloc, &outlook)?,
            joined: Line::with_room(alloc, outlook.len() as usize)?,
        };
        let next = match groups.waits.first() {
            None => Next::Done,
            Some(front) => Next::Waiting(front),
        };
        Ok(QueueSchedule {
            outlook,
            groups,
            next,
            last: None,
        })
    }

    /// Takes the first run from the list: the longest prefix of at most `most` wake-ups that is one run; `None` exactly
    /// where the list is empty. It takes no memory.
    pub fn next_run(&mut self, most: u64) -> Option<Run>
        requires { 1 ≤ most }
        ensures run { GivesRun (IsToCome self.old.course) (IsToCome self.new.course) most result }
        ensures fewer { LeavesFewer self.old.runs self.new.runs most result }
    {
        let Some(begun) = begin(&self.outlook, &mut self.groups, self.last, self.next) else {
            return None;
        };
        let entry = begun.entry;
        let stretch = extend(&self.outlook, &mut self.groups, entry, begun.first, most);
        self.last = Some(stretch.last);
        self.next = stretch.next;
        Some(Run {
            first: begun.first,
            step: if stretch.more == 0 {
                0
            } else {
                self.outlook.step(entry) - self.outlook.margin()
            },
            count: stretch.more + 1,
            entry,
            needed: self.outlook.from(entry),
        })
    }
}

impl<'a> Schedule for QueueSchedule<'a> {
    ghost use Rattle.plan_schedule.specs.Courses.{IsToCome};

    ghost comes = { λ q. IsToCome q.course };

    fn next(&mut self) -> Option<Force> {
        let Some(run) = self.next_run(1) else {
            return None;
        };
        Some(Force {
            at: Moment::new(run.first).unwrap(),
            entry: run.entry,
            needed: run.needed,
        })
    }
}

/// The first wake-up of a run.
#[derive(Clone, Copy)]
struct Begun {
    first: u64,
    entry: u32,
}

/// Takes the next wake-up, after the one at `last`. Where an entry that waits forces it, that has now joined.
fn begin(outlook: &Outlook, groups: &mut Groups, last: Option<u64>, next: Next) -> Option<Begun>
    requires ready { GroupsAreReady outlook.now last groups.old next }
    requires last { IsMomentWithin last }
    ensures begun { IfSome result (λ b. RunIsBegun outlook.now last groups.old groups.new next b.entry b.first) }
    ensures moment { IfSome result (λ b. b.first ≤ LAST) }
    ensures none { result ≡ None → (next ≡ Next.Done) × (groups.new ≡ groups.old) }
{
    match next {
        Next::Done => None,
        Next::Waiting(entry) => {
            let first = outlook.deadline(last, entry) - outlook.margin();
            groups.join(outlook, entry);
            Some(Begun { first, entry })
        }
        Next::Joined(entry) => {
            let first = outlook.deadline(last, entry) - outlook.margin();
            Some(Begun { first, entry })
        }
    }
}

/// The line of those that fall short before any wake-up.
fn waiting(alloc: Global, outlook: &Outlook) -> Result<Line, AllocError>
    ensures { IfOk result (λ line. FillsLine outlook.now (length outlook.now.loads) line) }
{
    let mut line = Line::with_room(alloc, outlook.len() as usize)?;
    for index in 0..outlook.len() {
        let end = outlook.end(index);
        if end < outlook.need(index) {
            line.add(end, index);
        }
    }
    Ok(line)
}
