//! An agent over the clock, the lanes, the log, the doors and the disks of the system.
ghost use Rattle.std.specs.Prelude.{◌≡◌, ◌≢◌, [], IfOk, OnErr, OnOk, is_some, max, min, option_map, string_bytes};
ghost use Rattle.leasekeep.specs.Ends.{EndsServe};
ghost use Rattle.vault_exchange.specs.Sockets.{port_of};
ghost use Rattle.agent_run.specs.Run.{AreAskersFor, AreOwnLanes, HasRun, IsDemanded, IsOwnLane, ends_path, timeout_of, width_of};

use crate::system_doors::{SystemDoors, registry_of};
use agent_behind::Behind;
use agent_house::{Demands, House};
use agent_ledger::Late;
use agent_run::{Beginning, Doors, EndsPlace, Parts, askers_by, most_out, run_over};
use agent_start::{Folder, SystemFolder, later_folder, make_start};
use agent_system::{Sources, SystemFile, SystemSecrets, folder_of};
use agent_turns::{EarlyDay, Neighbours};
use base_clients::{SocketDoor, SocketTalk};
use base_clock::SystemClock;
use base_device::{Sink, Watched};
use base_disk::{Disk, SystemDisk};
use base_files::Inputs;
use base_log::StandardOutput;
use program_commands::{EndsRoom, ServeWords};
use program_report::{Exit, PROGRAM, Stop};
use state_secrets::SecretFiles;
use std::alloc::{AllocError, Global};
use std::fs::File;
use std::net::Net;
use std::rt::{Clock, Files};
use vault_asking::SeenLanes;
use vault_lanes::{Lanes, LanesOver, SocketLanes};

/// What an agent of the system is put together from.
type SystemParts<'a, R> = Parts<StandardOutput, SystemDisk<'a, R>, SocketLanes<'a, R>>;

/// Its neighbours.
pub(crate) type SystemDay<'a, R> = DayOver<'a, R, SocketLanes<'a, R>>;

/// Those of an agent over lanes of any kind.
type DayOver<'a, R, L> = EarlyDay<Behind<HouseOver<'a, R, L>, L>>;

type HouseOver<'a, R, L> = House<
    StandardOutput,
    SocketTalk,
    SocketDoor,
    SystemLate<'a, R, L>,
    SystemDisk<'a, R>,
>;

type SystemLate<'a, R, L> = Late<
    'a,
    SystemDisk<'a, R>,
    SystemSecrets<'a, R>,
    L,
    SystemFolder<'a, R>,
>;

/// What `serve` is asked.
#[derive(Clone, Copy)]
struct Asked<'w, 'a> {
    /// The words of the command line.
    words: &'w ServeWords<'a>,
    /// What they demand of the inventory.
    demands: Demands,
}

/// The lanes of an agent to the broker, and the clock that waits for them.
#[derive(Drop)]
struct TimedLanes<C, L> {
    clock: C,
    lanes: L,
}

/// Serves what the words ask, as it is demanded: the exit of the agent, once it was told why it does not start. Its clock and its lanes
/// are made before it reads what it serves, which is so large that few steps hold it.
pub fn run<'a, R, E>(
    rt: &'a R,
    served: &ServeWords<'a>,
    demands: Demands,
    log: StandardOutput,
    errors: &mut E,
) -> Exit
where
    R: Files<File = File> + AllocGlobal + Net + Clock,
    E: Sink,
    requires demanded { IsDemanded served.now demands }
    ensures told { EndsServe result (⟦<E as Watched>⟧.change errors.old errors.new) }
    ensures runs { result ≡ Exit.Done → HasRun (⟦<SystemDay<'a, R> as Neighbours>⟧.does) (⟦<SystemDay<'a, R> as Neighbours>⟧.given) ⟦<SystemDoors<'a, R> as SecretFiles>⟧.calls ⟦<SystemDoors<'a, R> as Doors<SocketTalk, SocketDoor>>⟧.asked ⟦<SystemDisk<'a, R> as Disk>⟧.is_known ⟦<SystemDisk<'a, R> as Disk>⟧.state ⟦<SystemClock<'a, R> as base_clock::Clock>⟧.seen ⟦<SocketLanes<'a, R> as SeenLanes>⟧.seen ⟦<SocketLanes<'a, R> as Lanes>⟧.host_port ⟦<SocketLanes<'a, R> as Lanes>⟧.width ⟦<SystemFile<'a, R> as Inputs>⟧.bytes_at ⟦<SystemSecrets<'a, R> as Inputs>⟧.bytes_at served.now log }
{
    let Ok(clock) = SystemClock::new(rt.alloc(), rt) else {
        return ended(Err(AllocError), errors);
    };
    let lanes = own_lanes(rt, served, &clock);
    let Ok(parts) = parts_of(rt, served, log, &clock) else {
        return ended(Err(AllocError), errors);
    };
    let doors = SystemDoors::by(rt, &clock);
    let asked = Asked {
        words: served,
        demands,
    };
    let mut timed = TimedLanes { clock, lanes };
    run_among(rt, asked, parts, doors, &mut timed, errors)
}

/// The same by any clock, over any lanes and through any doors. (If all types of the system came together in this one function, its proof
/// would be past the prover's limit of steps.)
fn run_among<'a, R, L, P, C, E>(
    rt: &'a R,
    asked: Asked<'_, 'a>,
    parts: Parts<StandardOutput, SystemDisk<'a, R>, L>,
    doors: P,
    timed: &mut TimedLanes<C, L>,
    errors: &mut E,
) -> Exit
where
    R: Files<File = File> + AllocGlobal + Net + Clock,
    L: Lanes + Drop,
    P: Doors<SocketTalk, SocketDoor> + Inputs + SecretFiles + Drop,
    C: base_clock::Clock,
    E: Sink,
    requires demanded { IsDemanded asked.words.now asked.demands }
    requires free { L.out timed.old.lanes ≡ [] }
    requires port { L.host_port timed.old.lanes ≡ port_of asked.words.now.place }
    requires seconds { L.seconds timed.old.lanes ≡ timeout_of asked.words.now.patience }
    requires width { L.width timed.old.lanes ≡ width_of asked.words.now.width }
    requires lane_free { L.out parts.lane ≡ [] }
    requires lane_seconds { L.seconds parts.lane ≡ timeout_of asked.words.now.patience }
    requires lane_width { L.width parts.lane ≡ 1 }
    requires askers { AreAskersFor (L.out) (L.seconds) (L.width) asked.words.now parts.askers.items }
    requires ahead { AreOwnLanes (L.out) (L.seconds) (L.width) asked.words.now parts.ahead }
    requires ends { option_map string_bytes parts.ends.path ≡ ends_path asked.words.now.room }
    ensures told { EndsServe result (⟦<E as Watched>⟧.change errors.old errors.new) }
    ensures runs { result ≡ Exit.Done → HasRun (⟦<DayOver<'a, R, L> as Neighbours>⟧.does) (⟦<DayOver<'a, R, L> as Neighbours>⟧.given) P.calls P.asked ⟦<SystemDisk<'a, R> as Disk>⟧.is_known ⟦<SystemDisk<'a, R> as Disk>⟧.state C.seen ⟦<L as SeenLanes>⟧.seen L.host_port L.width ⟦<SystemFile<'a, R> as Inputs>⟧.bytes_at ⟦<SystemSecrets<'a, R> as Inputs>⟧.bytes_at asked.entry.words.now parts.entry.log }
    ensures sent { result ≢ Exit.Done → ⟦<L as SeenLanes>⟧.seen timed.new.lanes ≡ ⟦<L as SeenLanes>⟧.seen timed.old.lanes }
{
    let Asked {
        words: served,
        demands,
    } = asked;
    let kept = state_folder(rt.alloc(), served);
    let folder = kept.as_ref();
    let mut sources = sources_of(rt, served.file);
    match make_start(rt, folder, demands, &mut sources, errors) {
        Ok(start) => {
            let later = later_folder(rt, folder, demands, &start.ledger);
            let beginning = Beginning {
                words: served,
                start,
                later,
            };
            let ran = run_over(
                rt.alloc(),
                beginning,
                parts,
                doors,
                &mut timed.clock,
                &mut timed.lanes,
            );
            ended(ran, errors)
        }
        Err(exit) => exit,
    }
}

/// What is read at a start without a ledger: of the system.
fn sources_of<'a, R: Files<File = File> + AllocGlobal>(
    rt: &'a R,
    file: &'a str,
) -> Sources<'a, SystemFile<'a, R>, SystemSecrets<'a, R>>
    ensures { result.file.now ≡ file.now }
{
    Sources {
        file,
        files: SystemFile::new(rt),
        secrets: SystemSecrets::new(rt),
    }
}

/// The state folder, where there is one.
fn state_folder<'a>(alloc: Global, served: &ServeWords<'a>) -> Option<Folder<'a>>
    ensures { is_some result ≡ is_some served.now.state }
{
    match served.state {
        None => None,
        Some(folder) => Some(Folder::of(alloc, served.file, folder)),
    }
}

/// The exit of an agent that has ended, once lack of memory is told.
fn ended<E: Sink>(ran: Result<(), AllocError>, errors: &mut E) -> Exit
    ensures told { EndsServe result (⟦<E as Watched>⟧.change errors.old errors.new) }
    ensures done { OnOk ran (result ≡ Exit.Done) }
    ensures not_done { OnErr ran (result ≡ Exit.Memory) }
{
    match ran {
        Ok(()) => Exit::Done,
        Err(AllocError) => Stop::Memory.report(PROGRAM, errors),
    }
}

/// What an agent is put together from. The only error is lack of memory.
fn parts_of<'a, R>(
    rt: &'a R,
    served: &ServeWords<'a>,
    log: StandardOutput,
    clock: &SystemClock<'_, R>,
) -> Result<SystemParts<'a, R>, AllocError>
where
    R: Files<File = File> + AllocGlobal + Net + Clock,
    ensures free { IfOk result (λ parts. ⟦<SocketLanes<'a, R> as Lanes>⟧.out parts.lane ≡ []) }
    ensures seconds { IfOk result (λ parts. ⟦<SocketLanes<'a, R> as Lanes>⟧.seconds parts.lane ≡ timeout_of served.now.patience) }
    ensures width { IfOk result (λ parts. ⟦<SocketLanes<'a, R> as Lanes>⟧.width parts.lane ≡ 1) }
    ensures askers { IfOk result (λ parts. AreAskersFor (⟦<SocketLanes<'a, R> as Lanes>⟧.out) (⟦<SocketLanes<'a, R> as Lanes>⟧.seconds) (⟦<SocketLanes<'a, R> as Lanes>⟧.width) served.now parts.askers.items) }
    ensures ahead { IfOk result (λ parts. AreOwnLanes (⟦<SocketLanes<'a, R> as Lanes>⟧.out) (⟦<SocketLanes<'a, R> as Lanes>⟧.seconds) (⟦<SocketLanes<'a, R> as Lanes>⟧.width) served.now parts.ahead) }
    ensures log { IfOk result (λ parts. parts.log ≡ log) }
    ensures ends { IfOk result (λ parts. option_map string_bytes parts.ends.path ≡ ends_path served.now.room) }
{
    Ok(Parts {
        log,
        ends: EndsPlace {
            path: ends_path(rt.alloc(), served.room)?,
            disk: SystemDisk::new(rt),
        },
        lane: own_lane(rt, served, clock),
        askers: askers_by(rt.alloc(), served, || Ok(own_lane(rt, served, clock)))?,
        ahead: own_lanes(rt, served, clock),
    })
}

/// A lane of its own for whoever looks a credential up.
fn own_lane<'a, R>(
    rt: &'a R,
    served: &ServeWords<'a>,
    clock: &SystemClock<'_, R>,
) -> SocketLanes<'a, R>
where
    R: Files<File = File> + AllocGlobal + Net + Clock,
    ensures { IsOwnLane (⟦<SocketLanes<'a, R> as Lanes>⟧.out) (⟦<SocketLanes<'a, R> as Lanes>⟧.seconds) (⟦<SocketLanes<'a, R> as Lanes>⟧.width) served.now result }
{
    lanes_of(rt, served, clock, 1)
}

/// Where the file of the ends is, if there is room for one. The only error is lack of memory.
fn ends_path(alloc: Global, room: Option<EndsRoom<'_>>) -> Result<Option<String>, AllocError>
    ensures { IfOk result (λ path. option_map string_bytes path ≡ ends_path room.entry) }
{
    match room {
        None => Ok(None),
        Some(EndsRoom::Folder(folder)) => Ok(Some(format!(in alloc; "{folder}/ends")?)),
        Some(EndsRoom::Beside(path)) => {
            let folder = folder_of(path);
            Ok(Some(format!(in alloc; "{folder}ends")?))
        }
    }
}

/// As many lanes to the broker as the words ask for, which this clock waits for.
#[tactic(auto, using(crate::proofs::Widths::least_twice))]
fn own_lanes<'a, R>(
    rt: &'a R,
    served: &ServeWords<'a>,
    clock: &SystemClock<'_, R>,
) -> SocketLanes<'a, R>
where
    R: Files<File = File> + AllocGlobal + Net + Clock,
    ensures none { ⟦<SocketLanes<'a, R> as Lanes>⟧.out result ≡ [] }
    ensures port { ⟦<SocketLanes<'a, R> as Lanes>⟧.host_port result ≡ port_of served.now.place }
    ensures width { ⟦<SocketLanes<'a, R> as Lanes>⟧.width result ≡ width_of served.now.width }
    ensures seconds { ⟦<SocketLanes<'a, R> as Lanes>⟧.seconds result ≡ timeout_of served.now.patience }
{
    lanes_of(rt, served, clock, most_out(served))
}

/// So many lanes to the broker, which this clock waits for.
fn lanes_of<'a, R>(
    rt: &'a R,
    served: &ServeWords<'a>,
    clock: &SystemClock<'_, R>,
    width: u32,
) -> SocketLanes<'a, R>
where
    R: Files<File = File> + AllocGlobal + Net + Clock,
    ensures none { ⟦<SocketLanes<'a, R> as Lanes>⟧.out result ≡ [] }
    ensures port { ⟦<SocketLanes<'a, R> as Lanes>⟧.host_port result ≡ port_of served.now.place }
    ensures width { ⟦<SocketLanes<'a, R> as Lanes>⟧.width result ≡ max 1 (min width 32) }
    ensures seconds { ⟦<SocketLanes<'a, R> as Lanes>⟧.seconds result ≡ timeout_of served.now.patience }
{
    let seconds = served.patience.min(60) as u32;
    let registry = registry_of(clock);
    LanesOver::over_registry(rt.alloc(), rt, served.place, seconds, width, registry)
}
