//! For how long a house may be left alone.
ghost use Rattle.std.specs.Prelude.{◌≡◌};
ghost use Rattle.agent_house.specs.Rests.{KeeperRests, Rests, clients_rest, ends_rest, onlookers_rest};

use crate::house::House;
use agent_answers::{Control, Onlookers};
use agent_ends::EndsFile;
use agent_ledger::Keeping;
use base_clients::{Door, Talk};
use base_clock::{rest_until, shorter};

impl<S, T: Talk, D: Door<T>, K: Keeping, E> House<S, T, D, K, E> {
    /// For how long the house may be left alone, where nothing tells of one of its neighbours before, in milliseconds: until the first of
    /// its guests is sent away, an onlooker is answered, a change is due, or the ends are to be kept, and for a second at most while
    /// something goes on turn by turn. `None` where as long as may be. `now` is the moment of the clock that never steps at which it was
    /// called.
    pub fn rest_for(&self, now: u64) -> Option<u64>
        ensures { Rests K.does now result self.now }
    {
        let guests = shorter(
            clients_rest(now, &self.control),
            onlookers_rest(now, &self.onlookers),
        );
        let disks = shorter(keeper_rest(now, &self.state), ends_rest(now, &self.ends));
        shorter(shorter(self.desk.rest(), guests), disks)
    }
}

fn clients_rest<T: Talk, D: Door<T>>(now: u64, control: &Option<Control<T, D>>) -> Option<u64>
    ensures { result ≡ clients_rest now control.now }
{
    match control {
        None => None,
        Some(control) => rest_until(control.clients.due(), now),
    }
}

fn onlookers_rest<T: Talk, D: Door<T>>(now: u64, onlookers: &Option<Onlookers<T, D>>) -> Option<u64>
    ensures { result ≡ onlookers_rest now onlookers.now }
{
    match onlookers {
        None => None,
        Some(onlookers) => rest_until(onlookers.due(), now),
    }
}

fn ends_rest<E>(now: u64, ends: &Option<EndsFile<E>>) -> Option<u64>
    ensures { result ≡ ends_rest now ends.now }
{
    match ends {
        None => None,
        Some(ends) if ends.is_stale => rest_until(Some(ends.next), now),
        Some(_) => None,
    }
}

fn keeper_rest<K: Keeping>(now: u64, state: &Option<K>) -> Option<u64>
    ensures { KeeperRests K.does now result state.now }
{
    match state {
        None => None,
        Some(state) => state.rest(now),
    }
}
