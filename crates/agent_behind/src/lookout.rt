//! The lookout: a scout, and the lanes over which it looks.
ghost use Rattle.std.specs.Prelude.{◌≡◌, ◌<◌, ◌⊎◌, [], IfSome, None, Some, length, not, true};
ghost use Rattle.agent_behind.specs.Lookouts.{AnswersComeOff, GivesAhead, GoesAhead, HaveComeOff, IsHandedIn, IsMade, IsReplyTo, LooksOut, NoneComesOff, StandsBeside, change_of, due_after, is_beside, is_of_served, lead_by, none_waits};
ghost use Rattle.base_clock.specs.Rests.{rest_until};

use crate::looking::look_from;
use agent_standing::Agent;
use agent_turns::{AgentAt, AgentChange};
use base_clock::{Reading, rest_until};
use plan_forest::Forest;
use plan_spread::margin_in_front;
use std::alloc::{AllocError, Global};
use std::marker::Model;
use vault_asking::said_of_entry;
use vault_lanes::{Answered, Lanes};
use watch_machine::{Millis, Operation, Watch, WatchEvent, WatchReply};
use watch_scout::Scout;

/// A scout, and the lanes over which it looks.
///
/// Its lanes hold credentials and show nothing of themselves: it has no `Debug`.
#[derive(Drop)]
pub struct Lookout<L: Lanes> {
    // by which the agent's margin is that of one behind another
    number: u64,
    lanes: L,
    // none where it is to be made, beside what is served
    scout: Option<Scout>,
    // answers that are there, and are not handed in yet
    heard: Vec<Answered>,
    // the moment of the clock that never steps at which a look is next due
    due: Millis,
}

impl<L: Lanes> Model for Lookout<L> {
    ghost use Rattle.vault_asking.specs.Sending.{lanes_of};
    ghost use Rattle.agent_behind.specs.Lookouts.{Ahead};

    ghost Value = { Ahead L };

    ghost view = { λ l. record { number = l.number; width = L.width l.lanes; port = L.host_port l.lanes; lanes = lanes_of (L.behind l.lanes) (L.out l.lanes) (L.seconds l.lanes); own = l.lanes; scout = l.scout; heard = l.heard.items; due = l.due } };
}

impl<L: Lanes> Lookout<L> {
    /// A lookout of the agent whose name has that number, over these lanes. It takes no memory; its scout is made in a turn, beside what is
    /// served then.
    pub fn new(alloc: Global, number: u64, lanes: L) -> Lookout<L>
        ensures number { result.number ≡ number }
        ensures own { result.own ≡ lanes }
        ensures scout { result.scout ≡ None }
        ensures heard { result.heard ≡ [] }
    {
        Lookout {
            number,
            lanes,
            scout: None,
            heard: Vec::new(alloc),
            due: 0,
        }
    }

    /// Goes on as far as it can without waiting: answers come off their lanes, and lookups go out. Whether an answer waits to be handed in.
    pub(crate) fn go_on(&mut self, alloc: Global, agent: &Agent, now: Reading) -> bool
        ensures { GoesAhead agent.now now self.old result self.new }
    {
        self.stand_beside(alloc, agent.watch().forest());
        self.hear(alloc, now.elapsed);
        self.look(alloc, agent, now);
        self.set_due(agent.watch(), now.elapsed);
        self.is_waiting()
    }

    /// How long before its time an entry is looked up, in milliseconds. Without a scout none is.
    pub(crate) fn lead(&self, watch: &Watch) -> Millis
        ensures { result ≡ lead_by watch.now self.now.scout }
    {
        match &self.scout {
            None => 0,
            Some(scout) => scout.lead(watch),
        }
    }

    /// Sets the moment at which a look is next due.
    fn set_due(&mut self, watch: &Watch, now: Millis)
        requires { IfSome self.old.scout (λ s. length s.seen ≡ length watch.now.forest.entries) }
        ensures { self.new ≡ record self.old { due = due_after watch.now now self.old.scout } }
    {
        self.due = due_after(&self.scout, watch, now);
    }

    /// Whether an answer waits to be handed in.
    fn is_waiting(&self) -> bool
        ensures { result ≡ not (none_waits self.now) }
    {
        !self.heard.is_empty()
    }

    /// Has a scout beside these entries: the one that there is, where it was made beside as many, or a new one, for which all that is out
    /// and all that was heard is given up. Where memory is wanting there is none.
    #[tactic(auto, using(crate::proofs::Stages::beside_as_many, crate::proofs::Stages::stands_there, crate::proofs::Stages::stands_anew))]
    fn stand_beside(&mut self, alloc: Global, forest: &Forest)
        ensures stands { StandsBeside forest.now self.old self.new }
        ensures beside { IfSome self.new.scout (λ s. length s.seen ≡ length forest.now.entries) }
    {
        if is_beside(&self.scout, forest) {
            return;
        }
        self.lanes.forget();
        self.heard.clear();
        self.scout = new_scout(alloc, forest, self.number, &self.lanes);
    }

    /// Answers come off their lanes, unless one waits to be handed in. Where memory is wanting they stay there.
    #[tactic(auto, using(crate::proofs::Stages::comes_off, crate::proofs::Stages::stays_off))]
    fn hear(&mut self, alloc: Global, now: Millis)
        ensures { AnswersComeOff now self.old self.new }
    {
        if self.heard.is_empty() {
            self.take_off(alloc, now);
        }
    }

    /// Those that are there come off their lanes. Where memory is wanting they stay there.
    fn take_off(&mut self, alloc: Global, now: Millis)
        ensures off { HaveComeOff now self.old self.new ⊎ NoneComesOff self.old self.new }
        ensures scout { self.new.scout ≡ self.old.scout }
    {
        match self.lanes.go_on(alloc, now) {
            Ok(answers) => self.heard = answers,
            Err(AllocError) => {}
        }
    }

    /// Lookups go out, as many at most as lanes are free.
    #[tactic(auto, using(crate::proofs::Stages::looks_some, crate::proofs::Stages::looks_none))]
    fn look(&mut self, alloc: Global, agent: &Agent, now: Reading)
        requires beside { IfSome self.old.scout (λ s. length s.seen ≡ length agent.now.machine.forest.entries) }
        ensures looks { LooksOut agent.now now self.old self.new }
        ensures beside { IfSome self.new.scout (λ s. length s.seen ≡ length agent.now.machine.forest.entries) }
    {
        let free = self.lanes.free();
        let at = AgentAt { agent, now };
        match &mut self.scout {
            None => {}
            Some(scout) => look_from(alloc, scout, &mut self.lanes, at, 0, free),
        }
    }

    /// The last of the answers that are there is handed in, where there is one. The change by which the agent is told of it, if it is to
    /// be.
    #[tactic(auto, using(crate::proofs::Stages::gives_none, crate::proofs::Stages::hands_none, crate::proofs::Stages::hands_some))]
    pub(crate) fn give(&mut self, alloc: Global, agent: &Agent) -> Option<AgentChange>
        ensures { GivesAhead agent.now self.old result self.new }
    {
        let answered = self.heard.pop()?;
        match &mut self.scout {
            None => None,
            Some(scout) => change_of(hand_in(alloc, scout, agent, &answered)),
        }
    }

    /// Another inventory is served: its scout is to be made anew.
    pub(crate) fn leave(&mut self)
        ensures { self.new ≡ record self.old { scout = None } }
    {
        self.scout = None;
    }

    /// For how long it may be left alone, in milliseconds: until its lanes have to be looked at, or its next look is due.
    pub(crate) fn rest(&self, now: Millis) -> Option<u64>
        ensures { result ≡ rest_until (Some (L.due_by now self.now.due self.now.own)) now }
    {
        rest_until(Some(self.lanes.due(now, self.due)), now)
    }
}

/// Whether there is a scout, made beside as many entries.
fn is_beside(scout: &Option<Scout>, forest: &Forest) -> bool
    ensures { result ≡ is_beside forest.now scout.now }
{
    match scout {
        None => false,
        Some(scout) => scout.is_beside(forest),
    }
}

/// A new scout beside these entries, for an agent whose name has that number, with these lanes, of which none is taken; none where memory is
/// wanting for it.
fn new_scout<L: Lanes>(alloc: Global, forest: &Forest, number: u64, lanes: &L) -> Option<Scout>
    requires free { L.out lanes.now ≡ [] }
    ensures made { IsMade forest.now number (L.width lanes.now) result }
    ensures beside { IfSome result (λ s. length s.seen ≡ length forest.now.entries) }
{
    let margin = margin_in_front(forest.margin(), number);
    match Scout::new(alloc, forest, margin, lanes.free()) {
        Ok(scout) => Some(scout),
        Err(AllocError) => None,
    }
}

/// The moment of the clock that never steps at which a look is next due, in milliseconds; without a scout it is now.
fn due_after(scout: &Option<Scout>, watch: &Watch, now: Millis) -> Millis
    requires { IfSome scout.now (λ s. length s.seen ≡ length watch.now.forest.entries) }
    ensures { result ≡ due_after watch.now now scout.now }
{
    match scout {
        None => now,
        Some(scout) => {
            let phase = u64::from(watch.clocks().phase);
            scout.next(watch, u64::MAX).saturating_sub(phase)
        }
    }
}

/// An answer is handed to the scout: the event that the agent is to be told, if there is one.
#[tactic(auto, using(crate::proofs::Handed::dropped, crate::proofs::Handed::handed))]
fn hand_in(
    alloc: Global,
    scout: &mut Scout,
    agent: &Agent,
    answered: &Answered,
) -> Option<WatchEvent>
    ensures { IsHandedIn agent.now answered.now scout.old result scout.new }
{
    if !is_of_served(agent, scout, answered.index) {
        return None;
    }
    let reply = reply_in(alloc, agent, answered);
    scout.answer(agent.watch(), answered.index, reply)
}

/// Whether it is of an entry that is served, and the scout was made beside as many.
fn is_of_served(agent: &Agent, scout: &Scout, entry: u32) -> bool
    ensures value { result ≡ is_of_served agent.now scout.now entry }
    ensures within { result ≡ true → entry < length agent.now.machine.forest.entries }
    ensures beside { result ≡ true → length scout.now.seen ≡ length agent.now.machine.forest.entries }
{
    let forest = agent.watch().forest();
    entry < forest.len() && scout.is_beside(forest)
}

/// What the answer to the lookup of an entry says. Where memory is wanting to read it, it counts as lost.
fn reply_in(alloc: Global, agent: &Agent, answered: &Answered) -> WatchReply
    requires { answered.now.index < length agent.now.machine.forest.entries }
    ensures { IsReplyTo agent.now answered.now result }
{
    let inventory = agent.inventory();
    let (entry, answer) = (answered.index, &answered.answer);
    match said_of_entry(alloc, inventory, Operation::Look, entry, answer) {
        Ok(said) => said.reply,
        Err(AllocError) => WatchReply::Lost,
    }
}

/// The change by which the agent is told of an event, where it is an end that is known.
fn change_of(event: Option<WatchEvent>) -> Option<AgentChange>
    ensures { result ≡ change_of event }
{
    match event? {
        WatchEvent::Known {
            entry,
            end,
            renewable,
        } => Some(AgentChange::Known {
            entry,
            end,
            renewable,
        }),
        WatchEvent::Clock { .. }
        | WatchEvent::Looked { .. }
        | WatchEvent::Renewed { .. }
        | WatchEvent::Need { .. }
        | WatchEvent::Begin => None,
    }
}
