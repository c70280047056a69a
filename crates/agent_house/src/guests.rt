//! What each neighbour is given of a turn.
ghost use Rattle.std.specs.Prelude.{◌≡◌, ◌+◌, ◌≤◌, ◌&&◌, ◌||◌};
ghost use Rattle.agent_pages.specs.Naming.{beside};
ghost use Rattle.base_log.specs.declared.writing.TheConstants.{MOST_TRIES};
ghost use Rattle.agent_log.specs.Feeding.{FollowersGoOn};
ghost use Rattle.agent_words.specs.Moments.{second_of};
ghost use Rattle.agent_log.specs.LogDesk.{ReaderIsGiven};
ghost use Rattle.agent_house.specs.Retries.{folder_in};
ghost use Rattle.agent_house.specs.Houses.{Attends, ClientsGoOn, OnlookersGoOn, around_of, idle, named_in};

use crate::house::House;
use crate::keep_news::folder_of;
use crate::next_time::next_wake_of;
use agent_answers::{Control, Onlookers, Went};
use agent_ledger::Keeping;
use agent_pages::Surroundings;
use agent_standing::Agent;
use base_clients::{Door, Talk};
use base_clock::Reading;
use base_log::LogSink;
use state_changes::Row;
use std::alloc::Global;

impl<S: LogSink, T: Talk, D: Door<T>, K: Keeping, E> House<S, T, D, K, E> {
    /// Gives the log's reader what it takes, and those who follow the log what waits for them; then goes on with each onlooker and each
    /// client by one call of its connection at most, and answers one of each. The agent is read alone. Where memory was wanting for an
    /// onlooker or a client, that is said. Whether more could be done at once.
    pub fn attend(&mut self, alloc: Global, agent: &Agent, now: Reading) -> bool
        ensures { Attends S.written S.failures S.tries S.tried T.remaining T.written T.calls D.log K.rows K.keeps agent.now now result self.old self.new }
    {
        let is_more = self.give(alloc, now);
        self.feed(alloc, now);
        let around = self.around(now);
        let named = named_in(&self.state);
        let shown = show(alloc, &mut self.onlookers, agent, around, named, now);
        let answered = answer(alloc, &mut self.control, agent, around, named, now);
        self.desk
            .hear_want(alloc, agent, both(shown.is_enough, answered.is_enough));
        any_of(is_more, shown.is_busy, answered.is_busy)
    }
}

impl<S: LogSink, T, D, K, E> House<S, T, D, K, E> {
    /// Gives the log's reader what it takes without waiting. Where it took something, lines that were dropped are told of, if there
    /// is room for that. Whether more could be given at once.
    pub fn give(&mut self, alloc: Global, now: Reading) -> bool
        ensures given { ReaderIsGiven self.old.desk.form (second_of now.wall) self.old.desk.room.log self.new.desk.room.log (S.written self.old.sink) (S.written self.new.sink) (S.failures self.old.sink) (S.failures self.new.sink) (S.tried self.old.sink) (S.tried self.new.sink) result }
        ensures tries { S.tries self.new.sink ≤ S.tries self.old.sink + MOST_TRIES }
        ensures rest { self.new ≡ record self.old { desk = record self.old.desk { room = record self.old.desk.room { log = self.new.desk.room.log } }; sink = self.new.sink } }
    {
        self.desk.give(alloc, &mut self.sink, now)
    }
}

impl<S, T: Talk, D: Door<T>, K, E> House<S, T, D, K, E> {
    /// Gives the connection of each of those who follow the log what one call of it writes of the lines that wait. No call is made.
    pub(crate) fn feed(&mut self, alloc: Global, now: Reading)
        ensures fed { FollowersGoOn self.old.desk.form (second_of now.wall) self.old.desk.room self.new.desk.room self.old.control self.new.control }
        ensures rest { self.new ≡ record self.old { desk = record self.old.desk { room = self.new.desk.room }; control = self.new.control } }
    {
        if let Some(control) = &mut self.control {
            self.desk.feed(alloc, &mut control.clients, now);
        }
    }
}

impl<S, T, D, K: Keeping, E> House<S, T, D, K, E> {
    /// What is around the agent at a moment.
    fn around(&self, now: Reading) -> Surroundings
        ensures { result ≡ around_of self.now.next self.now.file (folder_in K.keeps self.now.state) self.now.standby self.now.desk.room.log.dropped now.wall }
    {
        Surroundings {
            wall: now.wall / 1000,
            next_wake: next_wake_of(self.next),
            file: self.file,
            state_folder: folder_of(&self.state),
            standby: self.standby,
            dropped_lines: self.desk.room().dropped(),
            dropped_alerts: 0,
        }
    }
}

// The entries that the inventory names: those after every change, or, where none is kept yet, those that the start has read.
fn named_in<K: Keeping>(state: &Option<K>) -> &[Row]
    ensures { result.now ≡ named_in K.rows state.now }
{
    match state {
        None => &[],
        Some(state) => state.rows(),
    }
}

// Goes on with the onlookers, where there is a socket for them.
fn show<T: Talk, D: Door<T>>(
    alloc: Global,
    onlookers: &mut Option<Onlookers<T, D>>,
    agent: &Agent,
    around: Surroundings,
    named: &[Row],
    now: Reading,
) -> Went
    ensures { OnlookersGoOn T.remaining T.written T.calls D.log agent.now (beside around named.now) now result onlookers.old onlookers.new }
{
    match onlookers {
        None => idle(),
        Some(onlookers) => onlookers.go_on(alloc, agent, around, named, now.elapsed),
    }
}

// Goes on with the clients, where there is a control socket.
fn answer<T: Talk, D: Door<T>>(
    alloc: Global,
    control: &mut Option<Control<T, D>>,
    agent: &Agent,
    around: Surroundings,
    named: &[Row],
    now: Reading,
) -> Went
    ensures { ClientsGoOn T.remaining T.written T.calls D.log agent.now (beside around named.now) now result control.old control.new }
{
    match control {
        None => idle(),
        Some(control) => control.go_on(alloc, agent, around, named, now),
    }
}

// Nothing was to be done.
fn idle() -> Went
    ensures { result ≡ idle }
{
    Went {
        is_busy: false,
        is_enough: true,
    }
}

// Whether one of them could go on at once.
fn any_of(is_more: bool, is_shown: bool, is_answered: bool) -> bool
    ensures { result ≡ (is_more || (is_shown || is_answered)) }
{
    is_more || is_shown || is_answered
}

// Whether memory sufficed twice.
fn both(first: bool, second: bool) -> bool
    ensures { result ≡ (first && second) }
{
    first && second
}
