//! An agent from its start to its last turn.
ghost use Rattle.std.specs.Prelude.{◌≡◌, [], OnErr, OnOk};
ghost use Rattle.agent_run.specs.Run.{AreAskersFor, AreOwnLanes, IsRun, ReadsFirst, timeout_of, width_of};

use crate::begun::{Beginning, Begun, Parts, begin};
use crate::doors::Doors;
use crate::running::run_from;
use agent_behind::Behind;
use agent_house::House;
use agent_ledger::{Late, Ledger, Opening};
use agent_turns::{EarlyDay, Neighbours};
use base_clients::{Door, Talk};
use base_clock::{Clock, Reading};
use base_disk::Disk;
use base_files::Inputs;
use base_log::LogSink;
use state_secrets::SecretFiles;
use std::alloc::{AllocError, Global};
use vault_asking::SeenLanes;
use vault_lanes::Lanes;

/// Serves what is served from the start on, as the words of the command line ask, over these lanes, and opens its state folder later, where
/// it has one that cannot be used: an agent is put together, waits for its part of a spread where it may, and makes 2^64 - 1 turns. The
/// only error is lack of memory before that: then nothing was sent.
#[tactic(auto, using(crate::proofs::Putting::runs_so))]
pub fn run_over<'a, D, I, L, S, T, O, E, P, C, G>(
    alloc: Global,
    beginning: Beginning<'_, Ledger<'a, D, I, L>, G>,
    parts: Parts<S, E, L>,
    doors: P,
    clock: &mut C,
    lanes: &mut L,
) -> Result<(), AllocError>
where
    D: Disk + Drop,
    I: Inputs + SecretFiles + Drop,
    L: Lanes + Drop,
    S: LogSink + Drop,
    T: Talk,
    O: Door<T> + Drop,
    E: Disk + Drop,
    P: Doors<T, O> + Inputs + SecretFiles + Drop,
    C: Clock,
    G: Opening<Ledger<'a, D, I, L>> + Drop,
    requires free { L.out lanes.old ≡ [] }
    requires seconds { L.seconds lanes.old ≡ timeout_of beginning.words.now.patience }
    requires width { L.width lanes.old ≡ width_of beginning.words.now.width }
    requires lane_free { L.out parts.lane ≡ [] }
    requires lane_seconds { L.seconds parts.lane ≡ timeout_of beginning.words.now.patience }
    requires lane_width { L.width parts.lane ≡ 1 }
    requires askers { AreAskersFor (L.out) (L.seconds) (L.width) beginning.words.now parts.askers.items }
    requires ahead { AreOwnLanes (L.out) (L.seconds) (L.width) beginning.words.now parts.ahead }
    ensures runs { OnOk result (IsRun (⟦<EarlyDay<Behind<House<S, T, O, Late<'a, D, I, L, G>, E>, L>> as Neighbours>⟧.does) (⟦<EarlyDay<Behind<House<S, T, O, Late<'a, D, I, L, G>, E>, L>> as Neighbours>⟧.given) P.calls P.asked E.is_known E.state C.seen ⟦<L as SeenLanes>⟧.seen L.host_port L.width beginning.entry.words.now beginning.entry.start beginning.entry.later parts doors clock.old lanes.old clock.new lanes.new) }
    ensures nothing { OnErr result (⟦<L as SeenLanes>⟧.seen lanes.new ≡ ⟦<L as SeenLanes>⟧.seen lanes.old) }
{
    let mut doors = doors;
    let now = read_first(clock);
    let Begun {
        serving,
        neighbours,
        wait,
    } = begin(alloc, now, beginning, parts, &mut doors, lanes)?;
    // What opens doors has done so: it holds nothing of the system's any more.
    drop(doors);
    let mut neighbours = neighbours;
    run_from(alloc, wait, serving, clock, lanes, &mut neighbours);
    Ok(())
}

/// What the clocks read first; 0 where they cannot be read.
#[tactic(auto, using(crate::proofs::Putting::reads_some, crate::proofs::Putting::reads_none))]
fn read_first<C: Clock>(clock: &mut C) -> Reading
    ensures { ReadsFirst C.seen result clock.old clock.new }
{
    match clock.read() {
        Ok(reading) => reading,
        Err(_) => Reading {
            wall: 0,
            elapsed: 0,
        },
    }
}
