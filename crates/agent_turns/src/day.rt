//! Everything is looked up anew before a day is over, so that agents which began together do not do so together for ever.
ghost use Rattle.std.specs.Prelude.{◌≡◌, ◌⊎◌, ◌-◌, Bool, IfOk, None, Option, Result, false};
ghost use Rattle.std.specs.declared.alloc.AllocError.{AllocError};
ghost use Rattle.agent_turns.specs.Days.{AsksAnew, AsksBy, BeginningIsDue, GivesOthers, RestsWith, SettlesOthers, beginning_by, day_due, day_has_passed, has_begun};
ghost use Rattle.agent_turns.specs.Neighbours.{thing_of};

use crate::apart::may_wait;
use crate::change::AgentChange;
use crate::neighbours::{Happened, Neighbours};
use agent_standing::Agent;
use base_clock::{Reading, rest_until, shorter};
use std::alloc::{AllocError, Global};
use watch_machine::Millis;

/// A day, in milliseconds: after so long the Watch looks everything up by itself.
pub const DAY: u64 = 86_400_000;

/// Neighbours, and one more, who asks that everything is looked up anew before a day is over, where no entry may be due then.
#[derive(Debug, Drop)]
pub struct EarlyDay<N> {
    /// The others.
    pub others: N,
    /// By how much earlier, in milliseconds: 0 for never.
    pub earlier: Millis,
    /// The last beginning, by the clock that never steps, in milliseconds; `None` where none was heard of since it was asked for one.
    pub begun: Option<Millis>,
    /// Whether the change that was given last is its own.
    pub is_own: bool,
}

impl<N> EarlyDay<N> {
    /// These neighbours, who have heard of no beginning yet.
    pub fn new(others: N, earlier: Millis) -> EarlyDay<N>
        ensures { result ≡ record { others = others; earlier = earlier; begun = None; is_own = false } }
    {
        EarlyDay {
            others,
            earlier,
            begun: None,
            is_own: false,
        }
    }

    /// The time may have been handed in to the agent, and everything be looked up anew from then on.
    fn hear_begun(&mut self, agent: &Agent, happened: &Happened<'_>)
        ensures { self.new ≡ record self.old { begun = beginning_by (thing_of happened.now) agent.now.machine self.old.begun } }
    {
        if has_begun(happened) {
            let clocks = agent.watch().clocks();
            self.begun = Some(clocks.at.saturating_sub(u64::from(clocks.phase)));
        }
    }

    /// Asks that everything is looked up anew, where it is time to.
    fn ask_anew(&mut self, alloc: Global, agent: &Agent, now: Reading) -> Option<AgentChange>
        ensures { (due : Result Bool AllocError) × (IfOk due (λ is. BeginningIsDue agent.now now self.old is) × AsksBy due self.old result self.new) }
    {
        match self.is_due(alloc, agent, now) {
            Ok(true) => {
                self.begun = None;
                self.is_own = true;
                Some(AgentChange::Begin)
            }
            Ok(false) | Err(AllocError) => None,
        }
    }

    /// Whether it is time to. The only error is lack of memory.
    fn is_due(&self, alloc: Global, agent: &Agent, now: Reading) -> Result<bool, AllocError>
        ensures { IfOk result (λ is. BeginningIsDue agent.now now self.now is) }
    {
        if has_come(self.earlier, self.begun, now.elapsed) {
            may_wait(alloc, agent, now.wall, now.elapsed)
        } else {
            Ok(false)
        }
    }
}

/// Whether everything is looked up anew from now on.
fn has_begun(happened: &Happened<'_>) -> bool
    ensures { result ≡ has_begun (thing_of happened.now) }
{
    match happened {
        Happened::Clocked { notes, .. } => notes.began.is_some(),
        Happened::Shorts(_)
        | Happened::Answered(_)
        | Happened::Ahead { .. }
        | Happened::StepsIn { .. }
        | Happened::Refused
        | Happened::Wanting => false,
    }
}

/// Whether a day less so many milliseconds has passed since the last beginning.
fn has_come(earlier: Millis, begun: Option<Millis>, now: Millis) -> bool
    ensures { result ≡ day_has_passed earlier begun now }
{
    match begun {
        None => false,
        Some(begun) => earlier > 0 && DAY.saturating_sub(earlier) <= now.saturating_sub(begun),
    }
}

/// From when on it has.
fn day_due(earlier: Millis, begun: Option<Millis>) -> Option<Millis>
    ensures { result ≡ day_due earlier begun }
{
    let begun = begun?;
    if earlier > 0 {
        Some(begun.saturating_add(DAY.saturating_sub(earlier)))
    } else {
        None
    }
}

impl<N: Neighbours> EarlyDay<N> {
    /// The others give a change, or everything is to be looked up anew.
    fn give(&mut self, alloc: Global, agent: &Agent, now: Reading) -> Option<AgentChange>
        ensures { GivesOthers N.does agent.now now result self.old self.new ⊎ AsksAnew N.does agent.now now result self.old self.new }
    {
        if let Some(change) = self.others.change(alloc, agent, now) {
            self.is_own = false;
            return Some(change);
        }
        self.ask_anew(alloc, agent, now)
    }

    /// The others are told of their own change whether it was made.
    fn tell(&mut self, alloc: Global, agent: &Agent, is_made: bool)
        ensures settles { SettlesOthers N.does self.old.is_own agent.now is_made self.old.others self.new.others }
        ensures rest { self.new ≡ record self.old { others = self.new.others } }
    {
        if !self.is_own {
            self.others.settle(alloc, agent, is_made);
        }
    }

    /// As long as the others may be left alone, and no longer than until it is time to ask.
    fn rest_with(&self, now: u64) -> Option<u64>
        ensures { RestsWith N.does now result self.now }
    {
        shorter(
            self.others.rest(now),
            rest_until(day_due(self.earlier, self.begun), now),
        )
    }
}

impl<N: Neighbours> Neighbours for EarlyDay<N> {
    ghost use Rattle.agent_turns.specs.Days.{PassesToOthers};

    // Which changes its own were is not known.
    ghost given = { λ _. None };

    ghost does = { λ call old new. PassesToOthers N.does call old new };

    fn hear(&mut self, alloc: Global, agent: &Agent, happened: &Happened<'_>) {
        self.hear_begun(agent, happened);
        self.others.hear(alloc, agent, happened);
    }

    fn go_on(&mut self, alloc: Global, agent: &Agent, now: Reading) -> bool {
        self.others.go_on(alloc, agent, now)
    }

    fn change(&mut self, alloc: Global, agent: &Agent, now: Reading) -> Option<AgentChange> {
        self.give(alloc, agent, now)
    }

    fn settle(&mut self, alloc: Global, agent: &Agent, is_made: bool) {
        self.tell(alloc, agent, is_made);
    }

    fn rest(&self, now: u64) -> Option<u64> {
        self.rest_with(now)
    }
}
