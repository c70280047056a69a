ghost use Rattle.std.specs.Prelude.{◌≡◌, ◌<◌, length, IfOk};
ghost use Rattle.plan_forest.specs.Forest.{end_of};
ghost use Rattle.plan_rule.specs.Asks.{asks};
ghost use Rattle.plan_needs.specs.Carried.{IsCarried};
ghost use Rattle.plan_search.specs.Planned.{IsPlanned, IsTail, Planned, next_after, to_come, without_first};

use crate::asks::asks_before;
use crate::fault::PlanFault;
use crate::runs::{behind_first, next_after};
use crate::wakes::Wakes;
use base_moment::Moment;
use plan_forest::{Forest, Indices};
use plan_needs::Carried;
use plan_schedule::Run;
use std::marker::Model;

/// The wake-ups that are still to come, held as runs, with the start and the carried needs that they were planned by.
#[derive(Debug, Drop)]
pub struct Plan {
    start: Moment,
    carried: Carried,
    runs: Vec<Run>,
    first: usize,
}

impl Model for Plan {
    ghost use Rattle.std.specs.Prelude.{◌≤◌, drop, length};
    ghost use Rattle.plan_search.specs.Planned.{IsPlanned, Planned};

    ghost Value = { Planned };

    ghost view = { λ p. record { start = p.start; carried = p.carried; runs = drop p.first p.runs.items } };

    ghost invariant = { λ p. (p.first ≤ length p.runs.items) × IsPlanned (record { start = p.start; carried = p.carried; runs = drop p.first p.runs.items }) };
}

impl Plan {
    /// The plan of these runs, with the start and the carried needs that they were planned by.
    pub(crate) fn new(start: Moment, carried: Carried, runs: Vec<Run>) -> Plan
        requires { IsPlanned (record { start = start; carried = carried; runs = runs.items }) }
        ensures { result ≡ record { start = start; carried = carried; runs = runs.items } }
    {
        Plan {
            start,
            carried,
            runs,
            first: 0,
        }
    }

    /// The number of wake-ups to come, at most [`LIMIT`](crate::LIMIT).
    pub fn len(&self) -> u64
        ensures value { result ≡ length (to_come self.now) }
        ensures sound { IsPlanned self.now }
    {
        let mut count = 0;
        for run in self.runs() {
            count += run.count;
        }
        count
    }

    /// The runs to come, whose wake-ups in order are the plan's.
    pub fn runs(&self) -> &[Run]
        ensures value { result.now ≡ self.now.runs }
        ensures sound { IsPlanned self.now }
    {
        &self.runs[self.first..]
    }

    /// The wake-ups to come in order, each with its force. Neither this nor the items take memory.
    pub fn wakes(&self) -> Wakes<'_>
        ensures { result ≡ to_come self.now }
    {
        Wakes::new(self.runs())
    }

    /// Takes the first wake-up away: the first run is shortened (its step is 0 where one wake-up is left), or taken away.
    /// No list is moved.
    pub fn drop_first(&mut self)
        requires { 0 < length (to_come self.old) }
        ensures runs { self.new ≡ record self.old { runs = without_first self.old.runs } }
        ensures tail { IsTail (to_come self.old) (to_come self.new) }
    {
        match behind_first(self.runs[self.first]) {
            Some(shortened) => self.runs[self.first] = shortened,
            None => self.first += 1,
        }
    }

    /// The entries to ask at `at`, by rising index: those that are alive then, end before a need that they carry, gain by
    /// a renewal, and cannot wait for the plan's first moment after `at`. What the entries carry from the plan's start on
    /// has to be what it was planned by. The only error is out of memory.
    ///
    /// Source: Vault, "Lease, renew, and revoke".
    pub fn asks(&self, forest: &Forest, at: Moment) -> Result<Indices, PlanFault>
        requires { IsCarried forest.now self.now.start self.now.carried }
        ensures { IfOk result (λ asked. asked ≡ asks forest.now.entries forest.now.margin self.now.start (end_of forest.now.entries) at (next_after at (to_come self.now))) }
    {
        let next = next_after(self.runs(), at);
        Ok(asks_before(*self.runs.allocator(), forest, &self.carried, at, next)?)
    }
}
