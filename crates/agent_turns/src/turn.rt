//! One turn: the time is handed in, a change is taken, and one wait follows.
ghost use Rattle.std.specs.Prelude.{◌≡◌, ◌||◌, [], Some, is_ok};
ghost use Rattle.base_clock.specs.Seen.{AllMade};
ghost use Rattle.agent_turns.specs.Changes.{AllGiven, given_by};
ghost use Rattle.agent_turns.specs.Held.{IsInStep, serving_side};
ghost use Rattle.agent_turns.specs.Calls.{InStage, calls_in, calls_of_answering, calls_of_reading, heard_of_want};
ghost use Rattle.agent_turns.specs.Neighbours.{AllCalled, WithCalls};
ghost use Rattle.agent_turns.specs.Stages.{Commands, HandsInAnswers, LeftOverGoesFirst, OnHeld, TakesAnswers, TakesUp, Then, of_answers, of_coming, of_commands, of_left, of_stages};
ghost use Rattle.agent_turns.specs.Turns.{IsServingTurn, ServingTurn, calls_of_turn, longest_wait, turn_wait_by, wait_at};

use crate::neighbours::{Happened, Neighbours};
use crate::serving::Serving;
use base_clock::{Clock, Reading, no_longer};
use std::alloc::{AllocError, Global};
use vault_asking::SeenLanes;
use vault_lanes::Lanes;

/// The longest wait is no shorter, in milliseconds.
pub(crate) const A_SECOND: u64 = 1000;

/// The longest wait is no longer, in milliseconds.
const HALF_A_MINUTE: u64 = 30_000;

/// The wait where memory is wanting or no clock is read.
const SHORT_WAIT: u64 = 100;

/// What a turn came to, but for its wait.
#[derive(Clone, Copy, Debug)]
struct TurnSoFar {
    /// What it read.
    reading: Reading,
    /// Whether memory sufficed to hand the time in.
    is_whole: bool,
    /// Whether a change was made.
    is_changed: bool,
    /// Whether a neighbour can go on at once.
    is_busy: bool,
    /// The moment by which a lane has to be looked at, in milliseconds.
    due: u64,
    /// For how long the neighbours may then be left alone, in milliseconds, where that is said.
    rest: Option<u64>,
}

impl Serving {
    /// One turn.
    pub(crate) fn turn<C: Clock, L: Lanes, N: Neighbours>(
        &mut self,
        alloc: Global,
        clock: &mut C,
        lanes: &mut L,
        neighbours: &mut N,
    )
        requires in_step { IsInStep (L.width lanes.old) (L.out lanes.old) self.old }
        ensures turn { (t : ServingTurn) × (WithCalls N.does (IsServingTurn (L.host_port lanes.old) (serving_side self.old (⟦<L as SeenLanes>⟧.seen lanes.old)) t (serving_side self.new (⟦<L as SeenLanes>⟧.seen lanes.new))) (calls_in (L.host_port lanes.old) (serving_side self.old (⟦<L as SeenLanes>⟧.seen lanes.old)) t (serving_side self.new (⟦<L as SeenLanes>⟧.seen lanes.new))) neighbours.old neighbours.new × (AllMade (calls_of_turn t) (C.seen clock.old) (C.seen clock.new) × AllGiven (given_by t.made) (N.given neighbours.old) (N.given neighbours.new))) }
        ensures in_step { IsInStep (L.width lanes.new) (L.out lanes.new) self.new }
        ensures width { L.width lanes.new ≡ L.width lanes.old }
        ensures port { L.host_port lanes.new ≡ L.host_port lanes.old }
    {
        match clock.read() {
            Ok(reading) => {
                let millis = self.turn_at(alloc, reading, lanes, neighbours);
                clock.wait(millis);
            }
            Err(_) => clock.wait(SHORT_WAIT),
        }
    }

    /// The same at these readings, but for the wait. How long is to be waited, in milliseconds.
    fn turn_at<L: Lanes, N: Neighbours>(
        &mut self,
        alloc: Global,
        reading: Reading,
        lanes: &mut L,
        neighbours: &mut N,
    ) -> u64
        requires in_step { IsInStep (L.width lanes.old) (L.out lanes.old) self.old }
        ensures turn { (t : ServingTurn) × ((t.reading ≡ Some reading) × ((t.millis ≡ result) × (WithCalls N.does (IsServingTurn (L.host_port lanes.old) (serving_side self.old (⟦<L as SeenLanes>⟧.seen lanes.old)) t (serving_side self.new (⟦<L as SeenLanes>⟧.seen lanes.new))) (calls_in (L.host_port lanes.old) (serving_side self.old (⟦<L as SeenLanes>⟧.seen lanes.old)) t (serving_side self.new (⟦<L as SeenLanes>⟧.seen lanes.new))) neighbours.old neighbours.new × AllGiven (given_by t.made) (N.given neighbours.old) (N.given neighbours.new)))) }
        ensures in_step { IsInStep (L.width lanes.new) (L.out lanes.new) self.new }
        ensures width { L.width lanes.new ≡ L.width lanes.old }
        ensures port { L.host_port lanes.new ≡ L.host_port lanes.old }
    {
        let is_whole = self.hand_in(alloc, reading, lanes, neighbours).is_ok();
        self.tell_want(alloc, is_whole, neighbours);
        let is_busy = neighbours.go_on(alloc, &self.agent, reading);
        let is_changed = self.make_change(alloc, reading, lanes, neighbours);
        let due = lanes.due(reading.elapsed, self.until);
        let rest = neighbours.rest(reading.elapsed);
        self.wait_of(TurnSoFar {
            reading,
            is_whole,
            is_changed,
            is_busy,
            due,
            rest,
        })
    }

    /// Tells the neighbours that memory was wanting, where it was.
    fn tell_want<N: Neighbours>(&self, alloc: Global, is_whole: bool, neighbours: &mut N)
        ensures given { N.given neighbours.new ≡ N.given neighbours.old }
        ensures heard { AllCalled N.does (heard_of_want is_whole self.now.agent) neighbours.old neighbours.new }
    {
        if !is_whole {
            neighbours.hear(alloc, &self.agent, &Happened::Wanting);
        }
    }

    /// Hands in what has come and the time, and sends what is commanded. The only error is out of memory: what is left over is
    /// held until the next turn.
    fn hand_in<L: Lanes, N: Neighbours>(
        &mut self,
        alloc: Global,
        reading: Reading,
        lanes: &mut L,
        neighbours: &mut N,
    ) -> Result<(), AllocError>
        requires in_step { IsInStep (L.width lanes.old) (L.out lanes.old) self.old }
        ensures goes { InStage N.does (LeftOverGoesFirst (L.host_port lanes.old) reading) (of_stages (L.host_port lanes.old) reading calls_of_answering (calls_of_reading reading)) (serving_side self.old (⟦<L as SeenLanes>⟧.seen lanes.old)) (is_ok result) (serving_side self.new (⟦<L as SeenLanes>⟧.seen lanes.new)) neighbours.old neighbours.new }
        ensures width { L.width lanes.new ≡ L.width lanes.old }
        ensures port { L.host_port lanes.new ≡ L.host_port lanes.old }
        ensures given { N.given neighbours.new ≡ N.given neighbours.old }
    {
        self.send_all(alloc, lanes)?;
        self.hand_in_left(alloc, reading, lanes, neighbours)
    }

    /// The same where nothing is left to be sent.
    fn hand_in_left<L: Lanes, N: Neighbours>(
        &mut self,
        alloc: Global,
        reading: Reading,
        lanes: &mut L,
        neighbours: &mut N,
    ) -> Result<(), AllocError>
        requires in_step { IsInStep (L.width lanes.old) (L.out lanes.old) self.old }
        requires sent { self.old.unsent ≡ [] }
        ensures goes { InStage N.does (Then (OnHeld TakesAnswers) (TakesUp (L.host_port lanes.old) reading)) (of_left (L.host_port lanes.old) reading calls_of_answering (calls_of_reading reading)) (serving_side self.old (⟦<L as SeenLanes>⟧.seen lanes.old)) (is_ok result) (serving_side self.new (⟦<L as SeenLanes>⟧.seen lanes.new)) neighbours.old neighbours.new }
        ensures width { L.width lanes.new ≡ L.width lanes.old }
        ensures port { L.host_port lanes.new ≡ L.host_port lanes.old }
        ensures given { N.given neighbours.new ≡ N.given neighbours.old }
    {
        self.take_all(alloc, neighbours)?;
        self.take_up(alloc, reading, lanes, neighbours)
    }

    /// The same where nothing is left to be handed in either.
    fn take_up<L: Lanes, N: Neighbours>(
        &mut self,
        alloc: Global,
        reading: Reading,
        lanes: &mut L,
        neighbours: &mut N,
    ) -> Result<(), AllocError>
        requires in_step { IsInStep (L.width lanes.old) (L.out lanes.old) self.old }
        requires sent { self.old.unsent ≡ [] }
        requires taken { self.old.pending ≡ [] }
        ensures goes { InStage N.does (TakesUp (L.host_port lanes.old) reading) (of_coming (L.host_port lanes.old) reading calls_of_answering (calls_of_reading reading)) (serving_side self.old (⟦<L as SeenLanes>⟧.seen lanes.old)) (is_ok result) (serving_side self.new (⟦<L as SeenLanes>⟧.seen lanes.new)) neighbours.old neighbours.new }
        ensures width { L.width lanes.new ≡ L.width lanes.old }
        ensures port { L.host_port lanes.new ≡ L.host_port lanes.old }
        ensures given { N.given neighbours.new ≡ N.given neighbours.old }
    {
        self.come(alloc, lanes, reading.elapsed)?;
        self.hand_in_new(alloc, reading, lanes, neighbours)
    }

    /// Hands in the answers that came, and the time, and sends what is commanded.
    fn hand_in_new<L: Lanes, N: Neighbours>(
        &mut self,
        alloc: Global,
        reading: Reading,
        lanes: &mut L,
        neighbours: &mut N,
    ) -> Result<(), AllocError>
        requires in_step { IsInStep (L.width lanes.old) (L.out lanes.old) self.old }
        requires sent { self.old.unsent ≡ [] }
        ensures goes { InStage N.does (HandsInAnswers (L.host_port lanes.old) reading) (of_answers (L.host_port lanes.old) reading calls_of_answering (calls_of_reading reading)) (serving_side self.old (⟦<L as SeenLanes>⟧.seen lanes.old)) (is_ok result) (serving_side self.new (⟦<L as SeenLanes>⟧.seen lanes.new)) neighbours.old neighbours.new }
        ensures width { L.width lanes.new ≡ L.width lanes.old }
        ensures port { L.host_port lanes.new ≡ L.host_port lanes.old }
        ensures given { N.given neighbours.new ≡ N.given neighbours.old }
    {
        self.take_all(alloc, neighbours)?;
        self.command(alloc, reading, lanes, neighbours)
    }

    /// Hands in the time, and sends what is commanded.
    fn command<L: Lanes, N: Neighbours>(
        &mut self,
        alloc: Global,
        reading: Reading,
        lanes: &mut L,
        neighbours: &mut N,
    ) -> Result<(), AllocError>
        requires in_step { IsInStep (L.width lanes.old) (L.out lanes.old) self.old }
        requires sent { self.old.unsent ≡ [] }
        ensures goes { InStage N.does (Commands (L.host_port lanes.old) reading) (of_commands (L.host_port lanes.old) reading calls_of_answering (calls_of_reading reading)) (serving_side self.old (⟦<L as SeenLanes>⟧.seen lanes.old)) (is_ok result) (serving_side self.new (⟦<L as SeenLanes>⟧.seen lanes.new)) neighbours.old neighbours.new }
        ensures width { L.width lanes.new ≡ L.width lanes.old }
        ensures port { L.host_port lanes.new ≡ L.host_port lanes.old }
        ensures given { N.given neighbours.new ≡ N.given neighbours.old }
    {
        self.read(alloc, reading, neighbours)?;
        self.send_all(alloc, lanes)
    }

    /// For how long is waited: not at all where a change was made, or a neighbour can go on. (A change that lacked memory is tried again
    /// after a wait, and not in a loop without one.)
    fn wait_of(&self, turn: TurnSoFar) -> u64
        ensures { result ≡ turn_wait_by (turn.is_changed || turn.is_busy) turn.is_whole self.now turn.due turn.rest (Some turn.reading) }
    {
        if turn.is_changed || turn.is_busy {
            0
        } else if turn.is_whole {
            self.wait_at(turn.due, turn.rest, turn.reading.elapsed)
        } else {
            SHORT_WAIT
        }
    }

    /// Until the Watch's moment, or until a lane has to be looked at, or for as long as the neighbours may be left alone, or the longest
    /// wait.
    fn wait_at(&self, due: u64, rest: Option<u64>, now: u64) -> u64
        ensures { result ≡ wait_at self.now due rest now }
    {
        let longest = longest_wait(self.agent.inventory().forest().margin());
        no_longer(longest, rest).min(self.until.min(due).saturating_sub(now))
    }
}

/// With this margin, the longest wait of a turn in milliseconds. A longer one would see a suspension too late, since it counts none.
fn longest_wait(margin: u32) -> u64
    ensures { result ≡ longest_wait margin }
{
    let part = u64::from(margin) * 1000 / 16;
    A_SECOND.max(HALF_A_MINUTE.min(part))
}
