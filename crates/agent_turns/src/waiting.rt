//! A start that waits, so that agents which start together do not all ask at once.
ghost use Rattle.std.specs.Prelude.{◌≡◌, ◌||◌, Bool, List, not};
ghost use Rattle.base_clock.specs.Seen.{AllMade};
ghost use Rattle.agent_turns.specs.Apart.{IsWaitedApart, Waited, all_called, all_clocked, all_given, is_change_kept, is_change_served, pause_by, told_by};
ghost use Rattle.agent_turns.specs.Changes.{AllGiven, ChangeIsMade};
ghost use Rattle.agent_turns.specs.Held.{IsInStep, serving_side};
ghost use Rattle.agent_turns.specs.Neighbours.{AllCalled, Settle};
ghost use Rattle.agent_turns.specs.code.Pauses.{Pauses};

use crate::change::AgentChange;
use crate::neighbours::Neighbours;
use crate::serving::Serving;
use crate::turn::A_SECOND;
use base_clock::{Clock, Reading};
use std::alloc::Global;
use vault_asking::SeenLanes;
use vault_lanes::Lanes;
use watch_machine::WatchEvent;

/// The pauses of a wait at most: as many as can be counted.
pub const MOST_PAUSES: u64 = 18_446_744_073_709_551_615;

/// A wait before the first turn.
#[derive(Debug, Drop)]
pub struct Wait {
    /// Until when, in milliseconds of the clock that never steps.
    pub until: u64,
    /// What the neighbours see of the agent meanwhile: it serves the same inventory and knows the same ends, and the time is handed in
    /// to it, unless memory is wanting for that. What it commands goes out nowhere.
    pub shown: Serving,
}

impl Serving {
    /// Waits before the first turn, by [`MOST_PAUSES`] pauses at most. Nothing is asked meanwhile. In each pause the neighbours go on and
    /// are asked for one change, and a wait of a second at most follows.
    ///
    /// It ends at once where a change is made that counts now, and where the clocks cannot be read. A change for which memory is wanting
    /// does not end it: it is asked for again after a wait.
    pub fn wait_apart<C: Clock, L: Lanes, N: Neighbours>(
        &mut self,
        alloc: Global,
        wait: &mut Wait,
        clock: &mut C,
        lanes: &mut L,
        neighbours: &mut N,
    )
        requires in_step { IsInStep (L.width lanes.old) (L.out lanes.old) self.old }
        ensures waited { (w : Waited) × (IsWaitedApart wait.old.until MOST_PAUSES wait.old.shown.agent (serving_side self.old (⟦<L as SeenLanes>⟧.seen lanes.old)) w (serving_side self.new (⟦<L as SeenLanes>⟧.seen lanes.new)) × (AllMade (all_clocked w) (C.seen clock.old) (C.seen clock.new) × (AllGiven (all_given w) (N.given neighbours.old) (N.given neighbours.new) × AllCalled N.does (all_called self.old.agent self.new.agent w) neighbours.old neighbours.new))) }
        ensures in_step { IsInStep (L.width lanes.new) (L.out lanes.new) self.new }
        ensures width { L.width lanes.new ≡ L.width lanes.old }
        ensures port { L.host_port lanes.new ≡ L.host_port lanes.old }
    {
        for _ in 0..MOST_PAUSES {
            let reading = clock.read().ok();
            let Some(millis) = self.pause(alloc, wait, reading, lanes, neighbours) else {
                return;
            };
            clock.wait(millis);
        }
    }

    /// One pause, but for its reading and its wait: for how long is to be waited, in milliseconds, or `None` where the wait ends.
    fn pause<L: Lanes, N: Neighbours>(
        &mut self,
        alloc: Global,
        wait: &mut Wait,
        reading: Option<Reading>,
        lanes: &mut L,
        neighbours: &mut N,
    ) -> Option<u64>
        ensures pauses { Pauses N.does wait.old.until reading result wait.old.shown.agent wait.new.shown.agent (serving_side self.old (⟦<L as SeenLanes>⟧.seen lanes.old)) (serving_side self.new (⟦<L as SeenLanes>⟧.seen lanes.new)) (N.given neighbours.old) (N.given neighbours.new) neighbours.old neighbours.new }
        ensures until { wait.new.until ≡ wait.old.until }
        ensures width { L.width lanes.new ≡ L.width lanes.old }
        ensures port { L.host_port lanes.new ≡ L.host_port lanes.old }
    {
        let reading = reading?;
        if reading.elapsed >= wait.until {
            return None;
        }
        let Reading { wall, elapsed } = reading;
        wait.shown.take(alloc, WatchEvent::Clock { wall, elapsed });
        let is_busy = neighbours.go_on(alloc, &wait.shown.agent, reading);
        let Some(change) = neighbours.change(alloc, &wait.shown.agent, reading) else {
            return Some(pause_by(false, is_busy, wait.until, reading));
        };
        let is_kept = is_kept(&change);
        let is_made = self.make_shown(alloc, &wait.shown, lanes, neighbours, change);
        if goes_on(is_kept, is_made) {
            Some(pause_by(is_made, is_busy, wait.until, reading))
        } else {
            None
        }
    }

    /// Makes a change, and tells whether it was made.
    fn make_shown<L: Lanes, N: Neighbours>(
        &mut self,
        alloc: Global,
        shown: &Serving,
        lanes: &mut L,
        neighbours: &mut N,
        change: AgentChange,
    ) -> bool
        ensures made { ChangeIsMade change result (serving_side self.old (⟦<L as SeenLanes>⟧.seen lanes.old)) (serving_side self.new (⟦<L as SeenLanes>⟧.seen lanes.new)) }
        ensures settled { N.does (Settle (told_by shown.now.agent self.new.agent change) result) neighbours.old neighbours.new }
        ensures given { N.given neighbours.new ≡ N.given neighbours.old }
        ensures width { L.width lanes.new ≡ L.width lanes.old }
        ensures port { L.host_port lanes.new ≡ L.host_port lanes.old }
    {
        let is_served = is_served(&change);
        let is_made = self.make(alloc, lanes, change);
        let agent = if is_served { &self.agent } else { &shown.agent };
        neighbours.settle(alloc, agent, is_made);
        is_made
    }
}

/// Whether nothing is made of a change now.
fn is_kept(change: &AgentChange) -> bool
    ensures { result ≡ is_change_kept change.now }
{
    match change {
        AgentChange::Need { .. }
        | AgentChange::Begin
        | AgentChange::Known { .. }
        | AgentChange::Serve(_) => false,
        AgentChange::Kept => true,
    }
}

/// Whether another inventory is to be served.
fn is_served(change: &AgentChange) -> bool
    ensures { result ≡ is_change_served change.now }
{
    match change {
        AgentChange::Need { .. }
        | AgentChange::Begin
        | AgentChange::Known { .. }
        | AgentChange::Kept => false,
        AgentChange::Serve(_) => true,
    }
}

/// Whether the wait goes on after a change: where nothing is made of it now, or memory is wanting for it.
fn goes_on(is_kept: bool, is_made: bool) -> bool
    ensures { result ≡ (is_kept || not is_made) }
{
    is_kept || !is_made
}

/// For how long is waited: not at all where a change was made, or a neighbour can go on. (A change that lacked memory is tried again
/// after a wait, as in a turn.)
fn pause_by(is_made: bool, is_busy: bool, until: u64, reading: Reading) -> u64
    ensures { result ≡ pause_by (is_made || is_busy) until reading }
{
    if is_made || is_busy {
        0
    } else {
        A_SECOND.min(until.saturating_sub(reading.elapsed))
    }
}
