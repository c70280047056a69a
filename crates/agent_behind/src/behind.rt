//! Neighbours of an agent that stands behind another.
ghost use Rattle.std.specs.Prelude.{◌≡◌, ◌⊎◌, ℕ, None, Option, option_map};
ghost use Rattle.agent_behind.specs.declared.behind.Giver.TheVariants.{Others};
ghost use Rattle.agent_behind.specs.Behinds.{HearsBy, LookoutGives, OneGives, OneGoesAhead, OthersGive, SettlesBy, StepsBy, beside_another, giver_ahead, giver_of, giver_of_known, lead_ahead, left_alone, renews, requests_at, rest_ahead};
ghost use Rattle.base_clock.specs.Rests.{shorter};
ghost use Rattle.agent_turns.specs.Neighbours.{Rest, thing_of};
ghost use Rattle.agent_turns.specs.Outlook.{IsToldNext};
ghost use Rattle.watch_machine.specs.Refusal.{is_same};
ghost use Rattle.watch_machine.specs.declared.event.Operation.TheVariants.{Renew};

use crate::lookout::Lookout;
use agent_standing::Agent;
use agent_turns::{AgentChange, Happened, Neighbours};
use base_clock::{Reading, shorter};
use std::alloc::Global;
use vault_lanes::Lanes;
use watch_machine::{Millis, Operation, Watch, WatchRequest};

/// Whose a change is.
#[derive(Clone, Copy, Debug, PartialEq, Eq)]
pub enum Giver {
    /// That of the others; the same inventory is served after it.
    Others,
    /// That of the others: another inventory.
    OthersServe,
    /// That of the lookout: this end of an entry, in seconds of the clock that never steps.
    Lookout { entry: u32, end: u64 },
}

/// Neighbours, and one more, who looks each entry up before its time, for an agent that stands behind another. Without a lookout it is the
/// neighbours alone.
#[derive(Drop)]
pub struct Behind<N, L: Lanes> {
    /// The others.
    pub others: N,
    /// Who looks ahead, where the agent stands behind another.
    pub lookout: Option<Lookout<L>>,
    /// Whose the change is that was given last.
    pub giver: Giver,
}

impl<N, L: Lanes> Behind<N, L> {
    /// These neighbours, and that lookout.
    pub fn new(others: N, lookout: Option<Lookout<L>>) -> Behind<N, L>
        ensures { result ≡ record { others = others; lookout = lookout; giver = Others } }
    {
        Behind {
            others,
            lookout,
            giver: Giver::Others,
        }
    }

    /// The lookout goes on, where there is one. Whether an answer waits to be handed in.
    #[tactic(auto, using(crate::proofs::Passing::none_goes))]
    fn go_ahead(&mut self, alloc: Global, agent: &Agent, now: Reading) -> bool
        ensures goes { OneGoesAhead agent.now now self.old.lookout result self.new.lookout }
        ensures rest { self.new ≡ record self.old { lookout = self.new.lookout } }
    {
        match &mut self.lookout {
            None => false,
            Some(lookout) => lookout.go_on(alloc, agent, now),
        }
    }

    /// The lookout gives a change, where there is one.
    #[tactic(auto, using(crate::proofs::Passing::none_gives))]
    fn give(&mut self, alloc: Global, agent: &Agent) -> Option<AgentChange>
        ensures gives { OneGives agent.now self.old.lookout result self.new.lookout }
        ensures rest { self.new ≡ record self.old { lookout = self.new.lookout } }
    {
        match &mut self.lookout {
            None => None,
            Some(lookout) => lookout.give(alloc, agent),
        }
    }

    /// The lookout stands beside another inventory, where that is served from now on.
    fn stand_beside_another(&mut self, is_made: bool)
        ensures { self.new ≡ record self.old { lookout = beside_another is_made self.old.lookout } }
    {
        if is_made {
            self.leave();
        }
    }

    /// The lookout stands beside nothing, until its scout is made anew.
    fn leave(&mut self)
        ensures { self.new ≡ record self.old { lookout = option_map left_alone self.old.lookout } }
    {
        match &mut self.lookout {
            None => {}
            Some(lookout) => lookout.leave(),
        }
    }

    /// How long before its time the lookout looks an entry up, where there is one.
    fn lead(&self, watch: &Watch) -> Option<Millis>
        ensures { result ≡ lead_ahead watch.now self.now.lookout }
    {
        match &self.lookout {
            None => None,
            Some(lookout) => Some(lookout.lead(watch)),
        }
    }

    /// For how long the lookout may be left alone.
    fn rest_ahead(&self, now: u64) -> Option<u64>
        ensures { result ≡ rest_ahead L.due_by now self.now.lookout }
    {
        match &self.lookout {
            None => None,
            Some(lookout) => lookout.rest(now),
        }
    }
}

/// Whose a change is that the others give.
fn giver_of(change: &AgentChange) -> Giver
    ensures { result ≡ giver_of change.now }
{
    match change {
        AgentChange::Need { .. }
        | AgentChange::Begin
        | AgentChange::Known { .. }
        | AgentChange::Kept => Giver::Others,
        AgentChange::Serve(_) => Giver::OthersServe,
    }
}

/// Whose a change is that the lookout gives.
fn giver_ahead(change: &Option<AgentChange>) -> Giver
    ensures { result ≡ giver_ahead change.now }
{
    match change {
        None => Giver::Others,
        Some(change) => giver_of_known(change),
    }
}

fn giver_of_known(change: &AgentChange) -> Giver
    ensures { result ≡ giver_of_known change.now }
{
    match change {
        AgentChange::Known { entry, end, .. } => Giver::Lookout {
            entry: *entry,
            end: *end,
        },
        AgentChange::Need { .. } | AgentChange::Begin | AgentChange::Serve(_) | AgentChange::Kept =>
            Giver::Others,
    }
}

/// The requests that go out, where the time was handed in.
fn requests_in<'a>(happened: &Happened<'a>) -> Option<&'a [WatchRequest]>
    ensures { option_map (λ r. r.now) result ≡ requests_at (thing_of happened.now) }
{
    match happened {
        Happened::Clocked { requests, .. } => Some(*requests),
        Happened::Shorts(_) => None,
        Happened::Answered(_) => None,
        Happened::Ahead { .. } => None,
        Happened::StepsIn { .. } => None,
        Happened::Refused => None,
        Happened::Wanting => None,
    }
}

/// Whether one of these requests is a renewal.
fn renews(requests: &[WatchRequest]) -> bool
    ensures { result ≡ renews requests.now }
{
    requests.iter().any(|request| is_renewal(request.operation))
}

fn is_renewal(operation: Operation) -> bool
    ensures { result ≡ is_same operation Renew }
{
    match operation {
        Operation::Look => false,
        Operation::Renew => true,
    }
}

impl<N: Neighbours, L: Lanes> Behind<N, L> {
    /// The others give a change, or else the lookout may.
    fn give_first(&mut self, alloc: Global, agent: &Agent, now: Reading) -> Option<AgentChange>
        ensures { OthersGive N.does agent.now now result self.old self.new ⊎ LookoutGives N.does agent.now now result self.old self.new }
    {
        if let Some(change) = self.others.change(alloc, agent, now) {
            self.giver = giver_of(&change);
            return Some(change);
        }
        let change = self.give(alloc, agent);
        self.giver = giver_ahead(&change);
        change
    }

    /// The others hear of what has happened; where the agent stands behind another, they hear that it steps in.
    #[tactic(auto, using(crate::proofs::Passing::hears_by))]
    fn tell_heard(&mut self, alloc: Global, agent: &Agent, happened: &Happened<'_>)
        requires next { IsToldNext agent.now.machine happened.now }
        ensures { HearsBy N.does agent.now (thing_of happened.now) self.old self.new }
    {
        self.others.hear(alloc, agent, happened);
        self.tell_steps(alloc, agent, requests_in(happened));
    }

    /// They hear of the renewals among these requests, where the agent stands behind another.
    #[tactic(auto, using(crate::proofs::Passing::steps_taken, crate::proofs::Passing::none_renewed, crate::proofs::Passing::none_ahead, crate::proofs::Passing::none_out))]
    fn tell_steps(&mut self, alloc: Global, agent: &Agent, requests: Option<&[WatchRequest]>)
        ensures steps { StepsBy N.does agent.now (option_map (λ r. r.now) requests.entry) (lead_ahead agent.now.machine self.old.lookout) self.old.others self.new.others }
        ensures rest { self.new ≡ record self.old { others = self.new.others } }
    {
        let Some(requests) = requests else {
            return;
        };
        let Some(lead) = self.lead(agent.watch()) else {
            return;
        };
        if renews(requests) {
            self.others
                .hear(alloc, agent, &Happened::StepsIn { lead, requests });
        }
    }

    /// The others are told of their own change whether it was made, and of an end that the lookout gave.
    fn tell(&mut self, alloc: Global, agent: &Agent, is_made: bool)
        ensures { SettlesBy N.does self.old.giver agent.now is_made self.old self.new }
    {
        match self.giver {
            Giver::Others => self.others.settle(alloc, agent, is_made),
            Giver::OthersServe => {
                self.others.settle(alloc, agent, is_made);
                self.stand_beside_another(is_made);
            }
            Giver::Lookout { entry, end } => {
                self.others
                    .hear(alloc, agent, &Happened::Ahead { entry, end });
            }
        }
    }

    /// As long as the others and the lookout may be left alone.
    fn rest_with(&self, now: u64) -> Option<u64>
        ensures { (theirs : Option ℕ) × (N.does (Rest now theirs) self.now.others self.now.others × (result ≡ shorter theirs (rest_ahead L.due_by now self.now.lookout))) }
    {
        shorter(self.others.rest(now), self.rest_ahead(now))
    }
}

impl<N: Neighbours, L: Lanes> Neighbours for Behind<N, L> {
    ghost use Rattle.agent_behind.specs.declared.behind.Giver.TheVariants.{Others};
    ghost use Rattle.agent_behind.specs.Behinds.{PassesBehind};

    // Which changes its own were is not known.
    ghost given = { λ _. None };

    ghost does = { λ call old new. PassesBehind L.due_by N.does call old new };

    fn hear(&mut self, alloc: Global, agent: &Agent, happened: &Happened<'_>) {
        self.tell_heard(alloc, agent, happened);
    }

    #[tactic(auto, using(crate::proofs::Passing::goes_on_by))]
    fn go_on(&mut self, alloc: Global, agent: &Agent, now: Reading) -> bool {
        let is_busy = self.others.go_on(alloc, agent, now);
        let is_waiting = self.go_ahead(alloc, agent, now);
        is_busy || is_waiting
    }

    fn change(&mut self, alloc: Global, agent: &Agent, now: Reading) -> Option<AgentChange> {
        self.give_first(alloc, agent, now)
    }

    fn settle(&mut self, alloc: Global, agent: &Agent, is_made: bool) {
        self.tell(alloc, agent, is_made);
    }

    fn rest(&self, now: u64) -> Option<u64> {
        self.rest_with(now)
    }
}
