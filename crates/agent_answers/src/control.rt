//! The clients of an agent's control socket.
ghost use Rattle.std.specs.Prelude.{◌≡◌, ◌&&◌, IfOk, None};
ghost use Rattle.agent_pages.specs.Naming.{beside};
ghost use Rattle.agent_answers.specs.Controlling.{AnswersAside, AnswersAsked, ControlGoesOn, FollowsAsked, GivesAsked, IsShownText, OneIsReplied, can_be_asked, nobody_asks, refused_text};

use crate::asked::ClientOrder;
use crate::lines::RequestLines;
use crate::wanted::{ClientRefusal, Wanted, wanted_of};
use crate::went::Went;
use agent_control::LINE_MAX;
use agent_pages::{Page, Surroundings, board_of, told_of};
use agent_standing::Agent;
use base_clients::{Clients, Door, GuestLimits, Talk};
use base_clock::Reading;
use state_changes::Row;
use std::alloc::{AllocError, Global};
use std::mem;

/// The most clients at a time, where the descriptors suffice.
pub const MOST_CLIENTS: usize = 32;

/// The clients of an agent's control socket, and the door by which they come in.
#[derive(Debug, Drop)]
pub struct Control<T, D> {
    pub clients: Clients<T, RequestLines>,
    pub door: D,
    /// The number of the client whose request was taken last, as long as it is not answered.
    pub asking: Option<u64>,
}

impl<T: Talk, D: Door<T>> Control<T, D> {
    /// A door with nobody inside, and with room for so many clients at a time. It takes no memory.
    pub fn new(alloc: Global, door: D, guests: usize) -> Control<T, D>
        ensures { result ≡ nobody_asks guests door }
    {
        let limits = GuestLimits {
            guests,
            bytes: LINE_MAX,
        };
        Control {
            clients: Clients::new(alloc, limits, RequestLines),
            door,
            asking: None,
        }
    }

    /// Goes on with each client by one call of its connection at most, and answers the first of those whose line has ended,
    /// where it asks for nothing to be done. `around` is what the agent does not know of itself, and `named` are the entries that its
    /// inventory names.
    ///
    /// Where memory is wanting for an answer, that client is sent nothing and its connection is closed.
    pub fn go_on(
        &mut self,
        alloc: Global,
        agent: &Agent,
        around: Surroundings,
        named: &[Row],
        now: Reading,
    ) -> Went
        ensures { ControlGoesOn T.remaining T.written T.calls D.log agent.now (beside around named.now) now result self.old self.new }
    {
        let is_turned = self.clients.turn(alloc, &mut self.door, now.elapsed);
        let is_answered = reply_to_one(alloc, &mut self.clients, agent, around, named, now);
        Went {
            is_busy: self.clients.is_busy() || self.can_be_asked(),
            is_enough: both(is_turned, is_answered),
        }
    }

    /// Whether a request is there that may be taken.
    fn can_be_asked(&self) -> bool
        ensures { result ≡ can_be_asked self.now }
    {
        self.asking.is_none() && self.clients.first_request().is_some()
    }

    /// What the first of those asks for whose line has ended, where it asks for something to be done and the last one is
    /// answered. It waits then until that is answered too. The only error is out of memory: it is left for another call then.
    pub fn asked(&mut self, alloc: Global, now: Reading) -> Result<Option<ClientOrder>, AllocError>
        ensures { GivesAsked now self.old result self.new }
    {
        if self.asking.is_some() {
            return Ok(None);
        }
        let Some(bytes) = self.clients.first_request() else {
            return Ok(None);
        };
        let Wanted::Do(asked) = wanted_of(alloc, now.wall / 1000, bytes)? else {
            return Ok(None);
        };
        let Some(request) = self.clients.take_request() else {
            return Ok(None);
        };
        self.asking = Some(request.id);
        Ok(Some(asked))
    }

    /// Sends the client whose request was taken last this answer, and closes its connection after it; an empty answer closes it
    /// at once. Where none was taken, or it was answered, nothing is done. `now` is in milliseconds of the clock that never steps.
    pub fn answer(&mut self, answer: Vec<u8>, now: u64)
        ensures { AnswersAsked answer.items now self.old self.new }
    {
        let Some(id) = mem::replace(&mut self.asking, None) else {
            return;
        };
        let _is_there = self.clients.answer(id, answer, now);
    }

    /// The client whose request was taken last is answered later, and those of others are taken before: the number under which it is
    /// answered ([`Control::answer_aside`]); `None` where none was taken, or it was answered.
    pub fn set_aside(&mut self) -> Option<u64>
        ensures number { result ≡ self.old.asking }
        ensures rest { self.new ≡ record self.old { asking = None } }
    {
        let number = self.asking;
        self.asking = None;
        number
    }

    /// Sends the client that was set aside under this number this answer, and closes its connection after it; an empty answer closes
    /// it at once. Where it has gone, nothing is done. `now` is in milliseconds of the clock that never steps.
    pub fn answer_aside(&mut self, number: u64, answer: Vec<u8>, now: u64)
        ensures { AnswersAside number answer.items now self.old self.new }
    {
        let _is_there = self.clients.answer(number, answer, now);
    }

    /// Sends the client whose request was taken last the first of an answer that goes on, and says under which number it is given
    /// more (`Clients::feed`); `None` where none was taken, or it was answered.
    pub fn follow(&mut self, answer: Vec<u8>) -> Option<u64>
        ensures { FollowsAsked answer.items result self.old self.new }
    {
        let id = mem::replace(&mut self.asking, None)?;
        if self.clients.follow(id, answer) {
            Some(id)
        } else {
            None
        }
    }
}

/// Answers the first of those whose line has ended, where there is one and it asks for nothing to be done. Whether memory sufficed.
fn reply_to_one<T: Talk>(
    alloc: Global,
    clients: &mut Clients<T, RequestLines>,
    agent: &Agent,
    around: Surroundings,
    named: &[Row],
    now: Reading,
) -> bool
    ensures { OneIsReplied agent.now (beside around named.now) now result clients.old clients.new }
{
    let Some(bytes) = clients.first_request() else {
        return true;
    };
    let Ok(wanted) = wanted_of(alloc, now.wall / 1000, bytes) else {
        let _is_there = clients.answer_first(Vec::new(alloc), now.elapsed);
        return false;
    };
    match wanted {
        Wanted::Do(_) => true,
        Wanted::Show(page) => match shown(alloc, agent, around, named, page) {
            Ok(reply) => {
                let _is_there = clients.answer_first(reply, now.elapsed);
                true
            }
            Err(AllocError) => {
                let _is_there = clients.answer_first(Vec::new(alloc), now.elapsed);
                false
            }
        },
        Wanted::Refused(why) => match refused(alloc, why) {
            Ok(reply) => {
                let _is_there = clients.answer_first(reply, now.elapsed);
                true
            }
            Err(AllocError) => {
                let _is_there = clients.answer_first(Vec::new(alloc), now.elapsed);
                false
            }
        },
    }
}

/// `ok`, and what a client is told. The only error is out of memory.
fn shown(
    alloc: Global,
    agent: &Agent,
    around: Surroundings,
    named: &[Row],
    page: Page,
) -> Result<Vec<u8>, AllocError>
    ensures { IfOk result (λ text. IsShownText agent.now (beside around named.now) page text.items) }
{
    let board = board_of(alloc, agent, around, named)?;
    let told = told_of(alloc, &board, page)?;
    let mut text = Vec::from_slice(alloc, b"ok\n")?;
    text.extend_from_slice(&told)?;
    Ok(text)
}

/// Why it is refused. The only error is out of memory.
#[tactic(auto, unfolding(crate::specs::Controlling::refused_text))]
fn refused(alloc: Global, why: ClientRefusal) -> Result<Vec<u8>, AllocError>
    ensures { IfOk result (λ text. text.items ≡ refused_text why) }
{
    let mut text = Vec::from_slice(alloc, b"error: ")?;
    text.extend_from_slice(why.text().as_bytes())?;
    text.push(b'\n')?;
    Ok(text)
}

/// Whether memory sufficed twice.
fn both(first: bool, second: bool) -> bool
    ensures { result ≡ (first && second) }
{
    first && second
}
