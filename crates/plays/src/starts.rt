//! How the agent of a play is started: as `leasekeep serve` starts one, over what the disks hold.
ghost use Rattle.std.specs.Prelude.{◌≡◌, [], IfOk, max, min};

use crate::folder::{MemoryFolder, later_of};
use crate::guests::{Peer, PeerDoor, PeerDoors};
use crate::play::Play;
use crate::running::MemoryLanes;
use agent_behind::Behind;
use agent_house::{Asker, Demands, House, Ledger};
use agent_ledger::Late;
use agent_run::{Beginning, EndsPlace, Parts};
use agent_start::{OpenedFolder, Start, start_with};
use agent_system::Inventories;
use agent_turns::EarlyDay;
use agent_words::wide;
use base_clients::Entrance;
use base_clock::{Clock as _, Reading};
use base_device::Place;
use base_disk::{Failing, MemoryDisk};
use base_log::MemoryLogSink;
use broker_table::Table;
use play_cases::{BOOT, CaseFault, Drawer, ENDS, FILE, Setting, put};
use program_commands::{ServeWords, Socket};
use state_keeping::{OpenedState, Paths, State};
use std::alloc::{AllocError, Global};
use std::mem;
use vault_inventory::{Inventory, read};
use vault_lanes::NumberedLaneFault;
use vault_proving::Proving;

pub type MemoryLedger<'a> = Ledger<'a, MemoryDisk, Drawer, MemoryLanes>;

/// The same, which may come later.
pub type MemoryLate<'a> = Late<'a, MemoryDisk, Drawer, MemoryLanes, MemoryFolder<'a>>;

pub type MemoryHouse<'a> = House<MemoryLogSink, Peer<'a>, PeerDoor<'a>, MemoryLate<'a>, MemoryDisk>;

/// The neighbours of an agent of a play.
pub type MemoryDay<'a> = EarlyDay<Behind<MemoryHouse<'a>, MemoryLanes>>;

/// What an agent of a play is put together from.
pub type MemoryParts = Parts<MemoryLogSink, MemoryDisk, MemoryLanes>;

/// So many lanes to a broker that knows the inventory of this text.
pub fn lanes_of(
    alloc: Global,
    setting: &Setting,
    known: &[u8],
    width: u32,
    refused: CaseFault,
) -> Result<MemoryLanes, CaseFault>
    ensures none { IfOk result (λ lanes. lanes.out ≡ []) }
    ensures wide { IfOk result (λ lanes. lanes.width ≡ max 1 (min width 32)) }
{
    let table = table_of(alloc, known, refused)?;
    Ok(MemoryLanes::new(alloc, table, setting.timeout, width))
}

/// The table of a broker that knows the inventory of this text.
fn table_of(alloc: Global, text: &[u8], refused: CaseFault) -> Result<Table, CaseFault> {
    let known = read_or(alloc, text, refused)?;
    Ok(Table::load(alloc, &known)?)
}

/// The inventory of this text.
fn read_or(alloc: Global, text: &[u8], refused: CaseFault) -> Result<Inventory, CaseFault> {
    read(alloc, text).map_err(|_| refused)
}

impl<'a> Play<'a> {
    /// The agent is started; its log has the same reader as before.
    pub fn start(&mut self, setting: &mut Setting, refused: CaseFault) -> Result<(), CaseFault> {
        let alloc = self.alloc;
        let now = self.clock.read().unwrap_or(Reading {
            wall: 0,
            elapsed: 0,
        });
        let start = started(alloc, self.paths, setting, refused)?;
        let later = later_of(alloc, self.paths, setting)?;
        let parts = self.parts(setting, refused)?;
        let served = served_of(setting);
        let beginning = Beginning {
            words: &served,
            start,
            later,
        };
        let house = self.running.start(alloc, now, beginning, parts)?;
        put(&mut self.house, house);
        if !setting.looks_up {
            self.look_nothing_up();
        }
        Ok(())
    }

    /// The agent is ended and started again, over the same disks, of which no call fails from now on.
    pub fn restart(&mut self, setting: &mut Setting, refused: CaseFault) -> Result<(), CaseFault> {
        let Some(Late::Open(ledger)) = &mut self.house.others.others.state else {
            return Err(refused);
        };
        leave(self.alloc, self.paths, ledger, setting, refused)?;
        setting.later = None;
        if let Some(ends) = &self.house.others.others.ends {
            setting.ends.keep(self.alloc, &ends.disk, &[ENDS, BOOT])?;
        }
        self.start(setting, refused)
    }

    // What the agent is put together from.
    fn parts(&mut self, setting: &mut Setting, refused: CaseFault) -> Result<MemoryParts, CaseFault>
        ensures free { IfOk result (λ parts. parts.lane.out ≡ []) }
        ensures one { IfOk result (λ parts. parts.lane.width ≡ 1) }
    {
        let alloc = self.alloc;
        let ends = ends_path(alloc, setting.ends.failing)?;
        let lane = lane_of(alloc, setting, refused)?;
        let askers = askers_of(alloc, setting, refused)?;
        let ahead = lanes_ahead(alloc, setting, refused)?;
        let nobody = MemoryLogSink::new(alloc, Vec::new(alloc));
        Ok(Parts {
            log: mem::replace(&mut self.house.others.others.sink, nobody),
            ends: EndsPlace {
                path: ends,
                disk: ends_disk(alloc, setting),
            },
            lane,
            askers,
            ahead,
        })
    }

    // Credentials are taken as they are.
    fn look_nothing_up(&mut self) {
        match &mut self.house.others.others.state {
            None => {}
            Some(Late::Open(ledger)) => {
                put(&mut ledger.proving, None);
                put(&mut ledger.askers, Vec::new(self.alloc));
            }
            Some(Late::NotYet(shut)) => {
                put(&mut shut.proving, None);
                put(&mut shut.askers, Vec::new(self.alloc));
            }
        }
    }
}

/// What is served from the start on.
fn started<'a>(
    alloc: Global,
    paths: &'a Paths,
    setting: &mut Setting,
    refused: CaseFault,
) -> Result<Start<MemoryLedger<'a>>, CaseFault> {
    let mut start = match setting.state.failing {
        Some(failing) if setting.later.is_none() => {
            of_state(alloc, paths, setting, failing, refused)?
        }
        Some(_) | None => of_file(alloc, setting, refused)?,
    };
    start.part = setting.part;
    Ok(start)
}

/// The file alone is served.
fn of_file<'a>(
    alloc: Global,
    setting: &Setting,
    refused: CaseFault,
) -> Result<Start<MemoryLedger<'a>>, CaseFault> {
    let Ok(text) = std::str::from_utf8(&setting.file) else {
        return Err(refused);
    };
    let written = read_or(alloc, text.as_bytes(), refused)?;
    Ok(Start {
        part: 0,
        behind: setting.behind,
        inventories: Inventories {
            served: wide(alloc, demands_of(setting), text, written)?,
            again: None,
            named: None,
        },
        ledger: None,
        is_good: true,
        said: Vec::new(alloc),
    })
}

/// The file is served with the changes that are kept.
fn of_state<'a>(
    alloc: Global,
    paths: &'a Paths,
    setting: &mut Setting,
    failing: Failing,
    refused: CaseFault,
) -> Result<Start<MemoryLedger<'a>>, CaseFault> {
    let opened = OpenedFolder {
        state: opened(alloc, paths, setting, failing, refused)?,
        said: Vec::new(alloc),
    };
    let drawer = mem::replace(&mut setting.drawer, Drawer::new(alloc));
    let demands = demands_of(setting);
    Ok(start_with(alloc, paths, demands, drawer, opened)?)
}

/// The state that is kept.
fn opened<'a>(
    alloc: Global,
    paths: &'a Paths,
    setting: &mut Setting,
    failing: Failing,
    refused: CaseFault,
) -> Result<OpenedState<'a, MemoryDisk>, CaseFault> {
    let copy = setting.state.bytes_at(alloc, paths.copy())?;
    let disk = setting.state.disk(alloc, failing);
    match State::open(alloc, disk, paths, Some(&setting.file), copy.as_deref()) {
        Ok(opened) => Ok(opened),
        Err(_) => Err(refused),
    }
}

/// What is demanded of an inventory.
pub fn demands_of(setting: &Setting) -> Demands {
    Demands {
        timeout: setting.timeout,
        names_are_secrets: false,
        earlier: 0,
        behind: setting.behind,
    }
}

/// What the words of a command line would ask.
fn served_of(setting: &Setting) -> ServeWords<'static> {
    let socket = Socket {
        word: "",
        entrance: Entrance::Path(""),
    };
    ServeWords {
        file: FILE,
        place: Place::Port(8200),
        patience: u64::from(setting.timeout),
        width: u64::from(setting.width),
        names_are_secrets: false,
        form: setting.form,
        control: Some(socket),
        listen: Some(socket),
        room: None,
        name: None,
        state: None,
        spread: 0,
        behind: setting.behind.is_some(),
    }
}

/// The lane over which credentials are looked up.
fn lane_of(alloc: Global, setting: &Setting, refused: CaseFault) -> Result<MemoryLanes, CaseFault>
    ensures free { IfOk result (λ lane. lane.out ≡ []) }
    ensures one { IfOk result (λ lane. lane.width ≡ 1) }
{
    let mut lane = lanes_of(alloc, setting, &setting.broker, 1, refused)?;
    if let Some(NumberedLaneFault { number, fault }) = setting.lookup_fault {
        lane.set_fault(number, fault)?;
    }
    Ok(lane)
}

/// The lanes over which entries are looked up ahead.
fn lanes_ahead(
    alloc: Global,
    setting: &Setting,
    refused: CaseFault,
) -> Result<MemoryLanes, CaseFault> {
    let mut lanes = lanes_of(alloc, setting, &setting.ahead, setting.width, refused)?;
    if let Some(NumberedLaneFault { number, fault }) = setting.ahead_fault {
        lanes.set_fault(number, fault)?;
    }
    Ok(lanes)
}

/// As many who look up what files hold as requests may be out at once.
fn askers_of(
    alloc: Global,
    setting: &Setting,
    refused: CaseFault,
) -> Result<Vec<Asker<MemoryLanes>>, CaseFault> {
    let mut askers = Vec::new(alloc);
    for _ in 0..setting.width {
        let lane = lane_of(alloc, setting, refused)?;
        askers.push(Asker::new(Proving::new(lane)))?;
    }
    Ok(askers)
}

/// The path of the file of the ends, where they are kept.
fn ends_path(alloc: Global, failing: Option<Failing>) -> Result<Option<String>, AllocError> {
    match failing {
        None => Ok(None),
        Some(_) => Ok(Some(String::from_str(alloc, ENDS)?)),
    }
}

/// The disk of the ends.
fn ends_disk(alloc: Global, setting: &mut Setting) -> MemoryDisk {
    let failing = setting.ends.failing.unwrap_or(Failing::Never);
    setting.ends.disk(alloc, failing)
}

/// What a ledger leaves for the next start.
fn leave(
    alloc: Global,
    paths: &Paths,
    ledger: &mut MemoryLedger<'_>,
    setting: &mut Setting,
    refused: CaseFault,
) -> Result<(), CaseFault> {
    setting.drawer = mem::replace(&mut ledger.inputs, Drawer::new(alloc));
    keep_state(alloc, paths, ledger.state.disk(), setting, refused)
}

/// What stands on the disk of a state folder.
fn keep_state(
    alloc: Global,
    paths: &Paths,
    disk: &MemoryDisk,
    setting: &mut Setting,
    refused: CaseFault,
) -> Result<(), CaseFault> {
    let places = [FILE, paths.journal(), paths.copy(), paths.aside()];
    setting.state.keep(alloc, disk, &places)?;
    let Some(file) = setting.state.bytes_at(alloc, FILE)? else {
        return Err(refused);
    };
    setting.file = file;
    Ok(())
}
