//! The table of guests.
ghost use Rattle.std.specs.Prelude.{◌≡◌, ◌<◌, ◌&&◌, [], IfSome, filter, length, not, option_map};
ghost use Rattle.std.specs.List.{list_any, position};
ghost use Rattle.base_clients.specs.Guests.{can_go_on, is_stage_asked, is_stage_over};
ghost use Rattle.base_clients.specs.Tables.{AnswersFirst, AnswersGuest, EachGoesOn, Feeds, GuestFollows, LetsIn, LetsOneIn, TakesRequest, Turns, first_asked, first_by, follows_as, waits_as};

use crate::door::Door;
use crate::fed::Fed;
use crate::framing::Framing;
use crate::guest::Guest;
use crate::letting::{first_by, idle_since, make_place};
use crate::limits::{GuestLimits, MOST_AT_ONCE, MOST_PIECE};
use crate::talk::Talk;
use base_moment::Text;
use std::alloc::{AllocError, Global};
use std::marker::Model;

/// A request of a guest.
#[derive(Debug, Drop)]
pub struct GuestRequest {
    /// The number under which it is answered.
    pub id: u64,
    /// What the guest has sent: to its end where it has one, and otherwise up to where it was too long or no more came.
    pub bytes: Text,
}

/// Whether one more came in.
#[derive(Clone, Copy, Debug, PartialEq, Eq)]
pub(crate) enum Came {
    One,
    /// The door was asked, and nobody is there.
    Nobody,
    /// The door was not asked: there are as many guests as may be, and nobody who would make room.
    NoPlace,
}

/// The guests of a listener.
#[derive(Debug, Drop)]
pub struct Clients<T, F> {
    limits: GuestLimits,
    framing: F,
    /// The first to come first.
    guests: Vec<Guest<T>>,
    next: u64,
}

impl<T, F> Model for Clients<T, F> {
    ghost use Rattle.base_clients.specs.Tables.{GuestTable};

    ghost Value = { GuestTable T F };

    ghost view = { λ c. record { guests = c.guests.items; next = c.next; limits = c.limits; framing = c.framing } };
}

impl<T: Talk, F: Framing + Drop> Clients<T, F> {
    /// A table with nobody in it. It takes no memory.
    pub fn new(alloc: Global, limits: GuestLimits, framing: F) -> Clients<T, F>
        ensures { result ≡ record { guests = []; next = 0; limits = limits; framing = framing } }
    {
        Clients {
            limits,
            framing,
            guests: Vec::new(alloc),
            next: 0,
        }
    }

    /// A turn at this moment: each guest goes on by one call of its connection at most, those that are over leave, and some are
    /// let in. It says whether memory sufficed: where it did not, a guest was lost or nobody more was let in.
    pub fn turn<D: Door<T>>(&mut self, alloc: Global, door: &mut D, now: u64) -> bool
        ensures { Turns T.remaining T.written T.calls F.tells now result self.old self.new (D.log door.old) (D.log door.new) }
    {
        let mut room = [0; MOST_PIECE];
        let most = self.limits.bytes;
        let is_enough = go_on_all(&mut self.guests, &mut room, &self.framing, most, now);
        drop_over(&mut self.guests);
        let has_let = self.let_in(alloc, door, now);
        both(is_enough, has_let)
    }

    /// Lets in those that are there, as many as a turn may. It says whether memory sufficed.
    fn let_in<D: Door<T>>(&mut self, alloc: Global, door: &mut D, now: u64) -> bool
        ensures { LetsIn now result self.old self.new (D.log door.old) (D.log door.new) }
    {
        let mut asks = 0;
        while asks < MOST_AT_ONCE {
            match self.let_one_in(alloc, door, now) {
                Ok(Came::One) => asks += 1,
                Ok(Came::Nobody) => return true,
                Ok(Came::NoPlace) => return true,
                Err(AllocError) => return false,
            }
        }
        true
    }

    /// Lets one in, where one is there and there is a place. The only error is out of memory: the door is not asked then.
    fn let_one_in<D: Door<T>>(
        &mut self,
        alloc: Global,
        door: &mut D,
        now: u64,
    ) -> Result<Came, AllocError>
        ensures { LetsOneIn result now self.old self.new (D.log door.old) (D.log door.new) }
    {
        if self.guests.len() >= self.limits.guests && idle_since(&self.guests).is_none() {
            return Ok(Came::NoPlace);
        }
        self.guests.reserve(1)?;
        let Some(talk) = door.accept() else {
            return Ok(Came::Nobody);
        };
        make_place(&mut self.guests, self.limits.guests);
        self.guests
            .push_reserved(Guest::new(alloc, self.next, talk, now));
        self.next = self.next.saturating_add(1);
        Ok(Came::One)
    }

    /// The first request that nobody has taken yet, if there is one. Its guest waits for an answer then.
    pub fn take_request(&mut self) -> Option<GuestRequest>
        ensures { TakesRequest self.old result self.new }
    {
        match place_asked(&self.guests) {
            Some(place) => self.guests[place].take_request(),
            None => None,
        }
    }

    /// The first request that nobody has taken yet, if there is one. It is left there.
    pub fn first_request(&self) -> Option<&[u8]>
        ensures { option_map (λ bytes. bytes.now) result ≡ first_asked self.now }
    {
        match place_asked(&self.guests) {
            Some(place) => self.guests[place].stage.asked_bytes(),
            None => None,
        }
    }

    /// Gives the guest of the first request that nobody has taken yet its answer at once. It says whether there is one. It
    /// takes no memory.
    pub fn answer_first(&mut self, answer: Vec<u8>, now: u64) -> bool
        ensures { AnswersFirst now answer.items result self.old self.new }
    {
        match place_asked(&self.guests) {
            Some(place) => {
                self.guests[place].set_answer(answer, now);
                true
            }
            None => false,
        }
    }

    /// Gives the guest that waits under that number its answer: it is written, and then its connection is closed. It says
    /// whether there is one. It takes no memory.
    pub fn answer(&mut self, id: u64, answer: Vec<u8>, now: u64) -> bool
        ensures { AnswersGuest id now answer.items result self.old self.new }
    {
        match place_of(&self.guests, id) {
            Some(place) => {
                self.guests[place].set_answer(answer, now);
                true
            }
            None => false,
        }
    }

    /// Gives the guest that waits under that number the first of an answer that goes on: [`Clients::feed`] gives it more, as it
    /// comes, and it has all the time to read it. It says whether there is one. It takes no memory.
    pub fn follow(&mut self, id: u64, answer: Vec<u8>) -> bool
        ensures { GuestFollows id answer.items result self.old self.new }
    {
        match place_of(&self.guests, id) {
            Some(place) => {
                self.guests[place].set_following(answer);
                true
            }
            None => false,
        }
    }

    /// Gives the guest whose answer goes on under that number of these bytes what one call writes, where all that it was given
    /// before is written. The only error is out of memory: it is given nothing then.
    pub fn feed(&mut self, id: u64, bytes: &[u8]) -> Result<Fed, AllocError>
        ensures { Feeds id bytes.now result self.old self.new }
    {
        match place_following(&self.guests, id) {
            Some(place) => self.guests[place].feed(bytes),
            None => Ok(Fed::Gone),
        }
    }

    /// Whether a turn could go on at once: a guest is to be read or written to whose last call did not come to that it would
    /// have to wait. Where none could, the next turn is due once a guest or the door is told of, or time has passed.
    pub fn is_busy(&self) -> bool
        ensures { result ≡ list_any can_go_on self.now.guests }
    {
        self.guests.iter().any(|guest| guest.can_go_on())
    }

    /// The moment by which the first of the guests has to have sent its request or read its answer, `None` where none has to: at the next
    /// turn from then on it is sent away.
    pub fn due(&self) -> Option<u64>
        ensures { result ≡ first_by self.now.guests }
    {
        first_by(&self.guests)
    }
}

/// The place of the first whose request nobody has taken yet.
fn place_asked<T>(guests: &[Guest<T>]) -> Option<usize>
    ensures place { result ≡ position (λ g. is_stage_asked g.stage) guests.now }
    ensures within { IfSome result (λ i. i < length guests.now) }
{
    guests.iter().position(|guest| guest.stage.is_asked())
}

/// The place of the guest that waits under that number.
fn place_of<T>(guests: &[Guest<T>], id: u64) -> Option<usize>
    ensures place { result ≡ position (waits_as id) guests.now }
    ensures within { IfSome result (λ i. i < length guests.now) }
{
    guests
        .iter()
        .position(|guest| guest.stage.is_waiting() && guest.id == id)
}

/// The place of the guest whose answer goes on under that number.
fn place_following<T>(guests: &[Guest<T>], id: u64) -> Option<usize>
    ensures place { result ≡ position (follows_as id) guests.now }
    ensures within { IfSome result (λ i. i < length guests.now) }
{
    guests
        .iter()
        .position(|guest| guest.stage.is_following() && guest.id == id)
}

/// Each goes on by one call of its connection at most. It says whether memory sufficed.
fn go_on_all<T: Talk, F: Framing>(
    guests: &mut [Guest<T>],
    room: &mut [u8],
    framing: &F,
    most: usize,
    now: u64,
) -> bool
    requires room { length room.old ≡ 4096 }
    ensures many { length guests.new ≡ length guests.old }
    ensures on { EachGoesOn T.remaining T.written T.calls (F.tells framing.now) most now result guests.old guests.new }
{
    let mut is_enough = true;
    for guest in guests.iter_mut() {
        let went = guest.go_on(room, framing, most, now);
        is_enough = both(is_enough, went.is_ok());
    }
    is_enough
}

/// Those that are over leave.
fn drop_over<T: Drop>(guests: &mut Vec<Guest<T>>)
    ensures { guests.new.items ≡ filter (λ g. not (is_stage_over g.stage)) guests.old.items }
{
    guests.retain(|guest| !guest.stage.is_over());
}

/// Whether memory sufficed twice.
fn both(first: bool, second: bool) -> bool
    ensures { result ≡ (first && second) }
{
    first && second
}
