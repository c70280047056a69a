//! The onlookers of an agent.
ghost use Rattle.std.specs.Prelude.{◌≡◌, ◌&&◌, ◌||◌, is_some, nat_le};
ghost use Rattle.agent_answers.specs.Onlooking.{OneIsSent, OnlookingGoesOn, is_answered_next, is_asked, nobody, onlookers_due, rest_with};
ghost use Rattle.agent_pages.specs.Naming.{beside};

use crate::answering::sent_to;
use crate::heads::Heads;
use crate::rest::Rest;
use crate::went::Went;
use agent_pages::{HEAD_MAX, Surroundings};
use agent_standing::Agent;
use base_clients::{Clients, Door, GuestLimits, Talk};
use base_clock::shorter;
use state_changes::Row;
use std::alloc::{AllocError, Global};

/// The most onlookers at a time, where the descriptors suffice.
pub const MOST_ONLOOKERS: usize = 16;

/// The onlookers of an agent, and the door by which they come in.
#[derive(Debug, Drop)]
pub struct Onlookers<T, D> {
    pub clients: Clients<T, Heads>,
    pub door: D,
    /// When the next of them may be answered.
    pub rest: Rest,
}

impl<T: Talk, D: Door<T>> Onlookers<T, D> {
    /// A door with nobody inside, and with room for so many onlookers at a time. It takes no memory.
    pub fn new(alloc: Global, door: D, guests: usize) -> Onlookers<T, D>
        ensures { result ≡ nobody guests door }
    {
        let limits = GuestLimits {
            guests,
            bytes: HEAD_MAX,
        };
        Onlookers {
            clients: Clients::new(alloc, limits, Heads),
            door,
            rest: Rest::none(),
        }
    }

    /// Goes on with each onlooker by one call of its connection at most, and answers the first of those whose question is whole,
    /// from the agent as it is now. `around` is what the agent does not know of itself, `named` are the entries that its inventory names,
    /// and `now` is a moment in milliseconds of a clock that never steps. After an answer the others wait for nine times as long as it
    /// took, and for half a second at most.
    ///
    /// Where memory is wanting for an answer, that onlooker is sent nothing and its connection is closed.
    pub fn go_on(
        &mut self,
        alloc: Global,
        agent: &Agent,
        around: Surroundings,
        named: &[Row],
        now: u64,
    ) -> Went
        ensures { OnlookingGoesOn T.remaining T.written T.calls D.log agent.now (beside around named.now) now result self.old self.new }
    {
        let is_turned = self.clients.turn(alloc, &mut self.door, now);
        self.rest.go_on(now);
        let is_answered = self.answer_one(alloc, agent, around, named, now);
        Went {
            is_busy: self.clients.is_busy() || self.is_answered_next(now),
            is_enough: both(is_turned, is_answered),
        }
    }

    /// Answers the first of those whose question is whole, where there is one and the rest after the last answer is over. Whether
    /// memory sufficed.
    fn answer_one(
        &mut self,
        alloc: Global,
        agent: &Agent,
        around: Surroundings,
        named: &[Row],
        now: u64,
    ) -> bool
        ensures one { OneIsSent (nat_le self.old.rest.until now) agent.now (beside around named.now) now result self.old.clients self.new.clients }
        ensures rest { self.new.rest ≡ rest_with (nat_le self.old.rest.until now && is_asked self.old.clients) now self.old.rest }
        ensures door { self.new.door ≡ self.old.door }
    {
        if !self.rest.is_over(now) {
            return true;
        }
        let Some(bytes) = self.clients.first_request() else {
            return true;
        };
        self.rest.page_begins(now);
        match sent_to(alloc, agent, around, named, bytes) {
            Ok(sent) => {
                let _is_there = self.clients.answer_first(sent, now);
                true
            }
            Err(AllocError) => {
                let _is_there = self.clients.answer_first(Vec::new(alloc), now);
                false
            }
        }
    }

    /// When something is due of itself: the first of the onlookers is sent away, or the rest is over after which one is answered that has
    /// asked. `None` where nothing is.
    pub fn due(&self) -> Option<u64>
        ensures { result ≡ onlookers_due self.now }
    {
        let answered = if self.is_asked() {
            Some(self.rest.until)
        } else {
            None
        };
        shorter(answered, self.clients.due())
    }

    /// Whether one has asked and is answered by the next call.
    fn is_answered_next(&self, now: u64) -> bool
        ensures { result ≡ is_answered_next now self.now }
    {
        self.rest.is_over(now) && self.is_asked()
    }

    /// Whether one has asked and is not answered yet.
    fn is_asked(&self) -> bool
        ensures { result ≡ is_asked self.now.clients }
    {
        self.clients.first_request().is_some()
    }
}

/// Whether memory sufficed twice.
fn both(first: bool, second: bool) -> bool
    ensures { result ≡ (first && second) }
{
    first && second
}
