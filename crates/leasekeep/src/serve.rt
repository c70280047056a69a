//! `serve`: an agent from its start on.
ghost use Rattle.std.specs.Prelude.{◌≡◌, IfOk, option_copied};
ghost use Rattle.leasekeep.specs.Ends.{EndsServe};
ghost use Rattle.agent_run.specs.Run.{HasRunSo, demands_of};
ghost use Rattle.agent_system.specs.Numbers.{IsNumber};

use crate::running::{SystemDay, run};
use crate::system_doors::SystemDoors;
use agent_house::Demands;
use agent_run::Doors;
use agent_system::{SystemFile, SystemSecrets, own_number};
use agent_turns::Neighbours;
use base_clients::{SocketDoor, SocketTalk};
use base_clock::SystemClock;
use base_device::{Sink, Watched};
use base_disk::{Disk, SystemDisk};
use base_files::Inputs;
use base_log::StandardOutput;
use plan_forest::MARGIN_MAX;
use plan_spread::part_by;
use program_commands::ServeWords;
use program_report::{Exit, PROGRAM, Stop};
use program_words::SystemFiles;
use state_secrets::SecretFiles;
use std::alloc::AllocError;
use std::fs::File;
use std::io::Stdout;
use std::net::Net;
use std::rt::{Clock, Files};
use vault_asking::SeenLanes;
use vault_lanes::{Lanes, SocketLanes};

/// Serves an inventory, with the log on standard output. It ends where the start is refused, which it tells; else after 2^64 - 1
/// turns.
#[tactic(auto, using(agent_run::proofs::Having::is_demanded, agent_run::proofs::Having::has_run_so))]
pub fn serve<'a, R, E>(rt: &'a R, served: &ServeWords<'a>, output: Stdout, errors: &mut E) -> Exit
where
    R: Files<File = File> + AllocGlobal + Net + Clock,
    E: Sink,
    ensures told { EndsServe result (⟦<E as Watched>⟧.change errors.old errors.new) }
    ensures runs { result ≡ Exit.Done → HasRunSo (⟦<SystemDay<'a, R> as Neighbours>⟧.does) (⟦<SystemDay<'a, R> as Neighbours>⟧.given) ⟦<SystemDoors<'a, R> as SecretFiles>⟧.calls ⟦<SystemDoors<'a, R> as Doors<SocketTalk, SocketDoor>>⟧.asked ⟦<SystemDisk<'a, R> as Disk>⟧.is_known ⟦<SystemDisk<'a, R> as Disk>⟧.state ⟦<SystemClock<'a, R> as base_clock::Clock>⟧.seen ⟦<SocketLanes<'a, R> as SeenLanes>⟧.seen ⟦<SocketLanes<'a, R> as Lanes>⟧.host_port ⟦<SocketLanes<'a, R> as Lanes>⟧.width ⟦<SystemFile<'a, R> as Inputs>⟧.bytes_at ⟦<SystemSecrets<'a, R> as Inputs>⟧.bytes_at served.now }
{
    // Before any file is opened, which would else take the number of a standard output that is closed.
    let log = StandardOutput::new(rt, output);
    let Ok(number) = number_of(rt, served) else {
        return Stop::Memory.report(PROGRAM, errors);
    };
    run(rt, served, demands_of(served, number), log, errors)
}

/// What is demanded of an inventory that is served by an agent whose name has that number.
fn demands_of(served: &ServeWords<'_>, number: u64) -> Demands
    ensures { result ≡ demands_of served.now number }
{
    let spread = served.spread.min(u64::from(MARGIN_MAX)) as u32;
    Demands {
        timeout: served.patience.min(60) as u32,
        names_are_secrets: served.names_are_secrets,
        earlier: part_by(number, spread),
        behind: if served.behind { Some(number) } else { None },
    }
}

/// The number of this agent's name. The only error is lack of memory.
fn number_of<R: Files<File = File> + AllocGlobal>(
    rt: &R,
    served: &ServeWords<'_>,
) -> Result<u64, AllocError>
    ensures { IfOk result (IsNumber (option_copied served.now.name) served.now.file.now) }
{
    let mut files = SystemFiles::new(rt);
    own_number(rt.alloc(), &mut files, served.name, served.file)
}
