//! The state folder of `serve`: what is served by it, and what is said of it.
ghost use Rattle.std.specs.Prelude.{◌≡◌, ◌++◌, IfErr, IfOk, None, OnOk, is_none, is_some, true};
ghost use Rattle.agent_system.specs.Refusals.{RefusesStart};
ghost use Rattle.agent_system.specs.Whole.{folder_of};
ghost use Rattle.agent_start.specs.Starts.{Begins, IsFreshLedger, IsLedgerAtStart, IsOfFolder, IsServedBy, IsStart};
ghost use Rattle.agent_start.specs.Telling.{SaysAtStart, SaysFilled, SaysStart, after_opened, damage_words, files_line, said_of_copy, said_of_damage, said_of_file, said_of_files};
ghost use Rattle.agent_start.specs.declared.folder.NotBegun.TheVariants as nots;

use crate::found::{Found, find};
use crate::start::{Start, SystemLedger};
use agent_ledger::Ledger;
use agent_system::{Inventories, SystemSecrets, folder_of, push, push_each, set_aside};
use agent_words::{About, Demands, SaidLine, after, disk_words};
use base_device::{Sink, Watched};
use base_disk::{Disk, DiskFault, SystemDisk};
use base_files::Inputs;
use base_log::Level;
use base_moment::Text;
use base_words::push_number;
use program_report::{Exit, PROGRAM, Stop, tell};
use state_changes::JournalNote;
use state_keeping::{OpenFault, OpenedState, Paths, PathsFault, State, Unopened};
use state_secrets::Looking;
use std::alloc::{AllocError, Global};
use std::fs::File;
use std::rt::Files;
use vault_lanes::Lanes;

/// A state folder, with the paths of the files in it, or why it has none.
#[derive(Debug, Drop)]
pub struct Folder<'a> {
    pub(crate) name: &'a str,
    paths: Result<Paths, PathsFault>,
}

impl<'a> Folder<'a> {
    /// The folder of that name, for the inventory at `file`.
    pub fn of(alloc: Global, file: &str, name: &'a str) -> Folder<'a> {
        Folder {
            name,
            paths: Paths::of(alloc, file, name),
        }
    }

    /// Its name, with the paths of the files in it.
    pub(crate) fn paths(&self, alloc: Global) -> Result<FolderPaths<'_>, NotBegun>
        ensures { IfErr result IsOfFolder }
    {
        let name = self.name;
        match &self.paths {
            Ok(paths) => Ok(FolderPaths { name, paths }),
            Err(PathsFault::InFolder) => {
                Err(unused(alloc, name, "FILE is one of its own files")?)
            }
            Err(PathsFault::OutOfMemory) => Err(NotBegun::Memory),
        }
    }
}

/// The name of a state folder, and the paths of the files in it.
#[derive(Clone, Copy)]
pub struct FolderPaths<'a> {
    pub name: &'a str,
    pub paths: &'a Paths,
}

/// The state of a folder that was opened, and what is said of what was found there.
#[derive(Drop)]
pub struct OpenedFolder<'a, D: Disk> {
    pub state: OpenedState<'a, D>,
    pub said: Vec<SaidLine>,
}

/// Why nothing is served with a state folder.
#[derive(Debug, Drop)]
pub(crate) enum NotBegun {
    /// There is none: the file is served without it.
    NoFolder,
    /// The folder cannot be used: the file is served without it, and this is said.
    Unused(SaidLine),
    /// Another agent holds the folder.
    Held,
    /// Neither the file nor its copy may be served.
    Refused,
    /// Memory was refused.
    Memory,
}

impl From<AllocError> for NotBegun {
    ghost from_gives = { λ _ e. e ≡ nots.Memory };

    fn from(_e: AllocError) -> NotBegun {
        NotBegun::Memory
    }
}

/// What is served with a folder: the file with every change that it has, or the last good copy with them. The folder is made where there
/// is none.
pub(crate) fn begin<'a, R: Files<File = File> + AllocGlobal, L: Lanes + Drop>(
    rt: &'a R,
    folder: Option<&'a Folder<'_>>,
    demands: Demands,
) -> Result<Start<SystemLedger<'a, R, L>>, NotBegun>
    ensures { Begins demands (is_some folder.entry) result }
{
    let Some(folder) = folder else {
        return Err(NotBegun::NoFolder);
    };
    begin_in(rt, folder, demands)
}

/// The same with this folder.
fn begin_in<'a, R: Files<File = File> + AllocGlobal, L: Lanes + Drop>(
    rt: &'a R,
    folder: &'a Folder<'_>,
    demands: Demands,
) -> Result<Start<SystemLedger<'a, R, L>>, NotBegun>
    ensures { Begins demands true result }
{
    let alloc = rt.alloc();
    let folder = folder.paths(alloc)?;
    let opened = open_in(rt, folder, demands)?;
    let files = SystemSecrets::new(rt);
    Ok(start_with(alloc, folder.paths, demands, files, opened)?)
}

/// The state of the folder, and what is said of what was found there. What was opened is closed again where it cannot be used.
pub(crate) fn open_in<'a, R: Files<File = File> + AllocGlobal>(
    rt: &'a R,
    folder: FolderPaths<'a>,
    demands: Demands,
) -> Result<OpenedFolder<'a, SystemDisk<'a, R>>, NotBegun>
    ensures { IfErr result IsOfFolder }
{
    let alloc = rt.alloc();
    let mut disk = SystemDisk::new(rt);
    let found = find_held(alloc, &mut disk, folder, demands)?;
    let state = open(alloc, disk, folder, &found)?;
    Ok(OpenedFolder {
        state,
        said: found.said,
    })
}

/// What is found in the folder, which is held from then on; what cannot be read in its journal is kept aside. The folder is made where
/// there is none.
fn find_held<R: Files<File = File> + AllocGlobal>(
    alloc: Global,
    disk: &mut SystemDisk<'_, R>,
    folder: FolderPaths<'_>,
    demands: Demands,
) -> Result<Found, NotBegun>
    ensures { IfErr result IsOfFolder }
{
    make_folder(alloc, disk, folder.name)?;
    hold(alloc, disk, folder)?;
    let mut found = find(alloc, disk, folder, demands)?;
    keep_unread(alloc, disk, folder, &mut found.said)?;
    Ok(found)
}

/// Makes the folder, where there is none.
fn make_folder<R: Files<File = File> + AllocGlobal>(
    alloc: Global,
    disk: &mut SystemDisk<'_, R>,
    folder: &str,
) -> Result<(), NotBegun>
    ensures { IfErr result IsOfFolder }
{
    match disk.make_folder(folder) {
        Ok(_) => Ok(()),
        Err(fault) => Err(unused_by(alloc, folder, fault)?),
    }
}

/// Holds the folder until the process ends, before any file in it is read: what another agent writes there would be missed.
fn hold<D: Disk>(alloc: Global, disk: &mut D, folder: FolderPaths<'_>) -> Result<(), NotBegun>
    ensures { IfErr result IsOfFolder }
{
    match disk.lock(folder.paths.lock()) {
        Ok(Some(_)) => Ok(()),
        Ok(None) => Err(NotBegun::Held),
        Err(fault) => Err(unused_by(alloc, folder.name, fault)?),
    }
}

/// Keeps what cannot be read in the journal in the file aside, and says so. Where it cannot be kept the folder cannot be used, since a
/// change would be written over it.
fn keep_unread<D: Disk>(
    alloc: Global,
    disk: &mut D,
    folder: FolderPaths<'_>,
    said: &mut Vec<SaidLine>,
) -> Result<(), NotBegun>
    ensures { IfErr result IsOfFolder }
{
    let FolderPaths { name, paths } = folder;
    match set_aside(alloc, disk, paths.journal(), paths.aside(), said) {
        Ok(()) => Ok(()),
        Err(fault) => Err(unused_by(alloc, name, fault)?),
    }
}

/// The state of the folder with what was found, from its start on.
fn open<'a, R: Files<File = File> + AllocGlobal>(
    alloc: Global,
    disk: SystemDisk<'a, R>,
    folder: FolderPaths<'a>,
    found: &Found,
) -> Result<OpenedState<'a, SystemDisk<'a, R>>, NotBegun>
    ensures { IfErr result IsOfFolder }
{
    let FolderPaths { name, paths } = folder;
    match State::open(
        alloc,
        disk,
        paths,
        bytes_of(&found.file),
        bytes_of(&found.copy),
    ) {
        Ok(opened) => Ok(opened),
        Err(Unopened { why, disk: _ }) => match why {
            OpenFault::Held => Err(NotBegun::Held),
            OpenFault::File(_) => Err(NotBegun::Refused),
            OpenFault::Disk(fault) => Err(unused_by(alloc, name, fault)?),
            OpenFault::OutOfMemory => Err(NotBegun::Memory),
        },
    }
}

fn bytes_of(text: &Option<Text>) -> Option<&[u8]> {
    match text {
        None => None,
        Some(text) => Some(text.list()),
    }
}

/// What is served by a state that was opened, after what was said before. The only error is lack of memory.
#[tactic(auto, using(crate::proofs::Begun::with_ledger, crate::proofs::Telling::says_start))]
pub fn start_with<'a, D: Disk + Drop, I: Inputs + Drop, L: Lanes + Drop>(
    alloc: Global,
    paths: &'a Paths,
    demands: Demands,
    files: I,
    opened: OpenedFolder<'a, D>,
) -> Result<Start<Ledger<'a, D, I, L>>, AllocError>
    ensures start { IfOk result (IsStart demands true) }
    ensures there { IfOk result (λ s. is_some s.ledger ≡ true) }
    ensures good { IfOk result (λ s. s.is_good ≡ is_none opened.entry.state.fault) }
    ensures says { IfOk result (SaysStart (I.bytes_at files) paths.now opened.entry.state opened.entry.said.items) }
{
    let OpenedFolder { state: found, said } = opened;
    let mut said = said;
    say_opened(alloc, paths, &found, &mut said)?;
    let OpenedState {
        lock: _,
        state,
        notes,
        fault,
        ..
    } = found;
    let mut ledger = ledger_of(alloc, paths, demands, files, state);
    let inventories = filled(alloc, &mut ledger, &notes, &mut said)?;
    Ok(Start {
        part: demands.earlier,
        behind: demands.behind,
        inventories,
        ledger: Some(ledger),
        is_good: fault.is_none(),
        said,
    })
}

/// A ledger over a state, which has looked at no file of a credential yet.
pub(crate) fn ledger_of<'a, D: Disk, I: Inputs, L: Lanes>(
    alloc: Global,
    paths: &'a Paths,
    demands: Demands,
    files: I,
    state: State<'a, D>,
) -> Ledger<'a, D, I, L>
    ensures fresh { IsFreshLedger result }
    ensures state { result.state ≡ state.entry }
    ensures demands { result.demands ≡ demands }
    ensures folder { result.folder.now ≡ folder_of paths.now.file }
    ensures files { I.bytes_at result.inputs ≡ I.bytes_at files }
{
    Ledger {
        state,
        demands,
        folder: folder_of(paths.file()),
        inputs: files,
        looking: Looking::new(alloc),
        proving: None,
        askers: Vec::new(alloc),
    }
}

/// What is served by a ledger, once it has what the files of credentials hold; what is to be said of that and of its changes is said. The
/// only error is lack of memory.
#[tactic(auto, using(crate::proofs::Begun::at_start, crate::proofs::Telling::says_at_start))]
fn filled<D: Disk, I: Inputs, L: Lanes>(
    alloc: Global,
    ledger: &mut Ledger<'_, D, I, L>,
    notes: &[JournalNote],
    said: &mut Vec<SaidLine>,
) -> Result<Inventories, AllocError>
    requires fresh { IsFreshLedger ledger.old }
    ensures at_start { OnOk result (IsLedgerAtStart ledger.old.demands ledger.new) }
    ensures served { IfOk result (λ i. IsServedBy ledger.new i.served) }
    ensures alone { IfOk result (λ i. ledger.old.demands.earlier ≡ 0 → i.again ≡ None) }
    ensures says { OnOk result (SaysAtStart (I.bytes_at ledger.old.inputs) ledger.old.folder.now notes.now ledger.old.state ledger.new.state said.old.items said.new.items) }
{
    fill_and_say(alloc, 0, ledger, notes, said)?;
    // What files hold at the start is served from the start on.
    ledger.state.mark_served();
    inventories_of(alloc, ledger)
}

/// A ledger has what the files of credentials hold, at a moment of the clock that never steps, in milliseconds; what is to be said of its
/// changes and of that is said. The only error is lack of memory.
#[tactic(auto, using(crate::proofs::Telling::says_filled))]
pub(crate) fn fill_and_say<D: Disk, I: Inputs, L: Lanes>(
    alloc: Global,
    now: u64,
    ledger: &mut Ledger<'_, D, I, L>,
    notes: &[JournalNote],
    said: &mut Vec<SaidLine>,
) -> Result<(), AllocError>
    ensures says { OnOk result (SaysFilled (I.bytes_at ledger.old.inputs) ledger.old.folder.now now notes.now ledger.old.state ledger.new.state said.old.items said.new.items) }
    ensures rest { OnOk result (ledger.new ≡ record ledger.old { state = ledger.new.state; inputs = ledger.new.inputs }) }
{
    let lines = ledger.note_lines(alloc, notes)?;
    push_each(said, Level::Note, About::Journal, lines)?;
    let filled = ledger.fill(alloc, now);
    say_files(alloc, filled, said)?;
    Ok(())
}

/// Says what is to be said of what the files of credentials hold, which was to be taken at once. The only error is lack of memory.
fn say_files(
    alloc: Global,
    filled: Result<Option<Text>, AllocError>,
    said: &mut Vec<SaidLine>,
) -> Result<(), AllocError>
    ensures { OnOk result (said.new.items ≡ said.old.items ++ said_of_files (files_line filled)) }
{
    match files_line(alloc, filled)? {
        None => Ok(()),
        Some(line) => push(said, Level::Alert, About::SecretFile, line),
    }
}

/// What is said of what the files of credentials hold, which was to be taken at once. Where nothing of it was, it is served without, and the
/// looks at files take each by itself. The only error is lack of memory.
fn files_line(
    alloc: Global,
    filled: Result<Option<Text>, AllocError>,
) -> Result<Option<Text>, AllocError>
    ensures { IfOk result (λ line. line ≡ files_line filled) }
{
    match filled {
        Ok(line) => Ok(line),
        Err(AllocError) => Ok(Some(Text::of(
            alloc,
            b"what the files of credentials hold could not be taken together: each is taken by itself",
        )?)),
    }
}

/// What is served by a ledger. The only error is lack of memory.
fn inventories_of<D: Disk, I: Inputs, L: Lanes>(
    alloc: Global,
    ledger: &Ledger<'_, D, I, L>,
) -> Result<Inventories, AllocError>
    ensures served { IfOk result (λ i. IsServedBy ledger.now i.served) }
    ensures alone { IfOk result (λ i. ledger.now.demands.earlier ≡ 0 → i.again ≡ None) }
{
    let served = ledger.inventory(alloc)?;
    let again = if ledger.demands.earlier == 0 {
        None
    } else {
        ledger.inventory(alloc).ok()
    };
    Ok(Inventories {
        served,
        again,
        named: None,
    })
}

/// Says what is to be said of a state that was opened. The only error is lack of memory.
pub(crate) fn say_opened<D: Disk>(
    alloc: Global,
    paths: &Paths,
    opened: &OpenedState<'_, D>,
    said: &mut Vec<SaidLine>,
) -> Result<(), AllocError>
    ensures { OnOk result (said.new.items ≡ after_opened paths.now opened.now said.old.items) }
{
    let is_good = opened.fault.is_none();
    say_file(alloc, is_good, said)?;
    say_copy(alloc, opened.copy, is_good, said)?;
    say_damaged(alloc, paths.aside(), opened.damaged, opened.aside, said)?;
    Ok(())
}

/// Says that the file is not served, where it is not. The only error is lack of memory.
fn say_file(alloc: Global, is_good: bool, said: &mut Vec<SaidLine>) -> Result<(), AllocError>
    ensures { OnOk result (said.new.items ≡ said.old.items ++ said_of_file is_good) }
{
    if is_good {
        return Ok(());
    }
    let text = Text::of(alloc, b"is not served: the last good copy is")?;
    push(said, Level::Alert, About::File, text)
}

/// Says why the copy of the file could not be kept; or synced, where it is served and the file is not. The only error is lack of memory.
fn say_copy(
    alloc: Global,
    unkept: Option<DiskFault>,
    is_good: bool,
    said: &mut Vec<SaidLine>,
) -> Result<(), AllocError>
    ensures { OnOk result (said.new.items ≡ said.old.items ++ said_of_copy unkept is_good) }
{
    let Some(fault) = unkept else {
        return Ok(());
    };
    if is_good {
        let words = disk_words(fault);
        let text = after(alloc, b"of the file could not be kept: ", words)?;
        push(said, Level::Warning, About::Copy, text)
    } else {
        let words = disk_words(fault);
        let text = after(
            alloc,
            b"could not be synced, and no change is taken: ",
            words,
        )?;
        push(said, Level::Alert, About::Copy, text)
    }
}

/// Says how many lines of the journal are no records, and where they are. The only error is lack of memory.
fn say_damaged(
    alloc: Global,
    aside: &str,
    damaged: usize,
    unkept: Option<DiskFault>,
    said: &mut Vec<SaidLine>,
) -> Result<(), AllocError>
    ensures { OnOk result (said.new.items ≡ said.old.items ++ said_of_damage aside.now damaged unkept) }
{
    if damaged == 0 {
        return Ok(());
    }
    let text = damage_words(alloc, aside, damaged, unkept)?;
    push(said, Level::Alert, About::Journal, Text::from_vec(text))
}

fn damage_words(
    alloc: Global,
    aside: &str,
    damaged: usize,
    unkept: Option<DiskFault>,
) -> Result<Vec<u8>, AllocError>
    ensures { IfOk result (λ text. text.items ≡ damage_words aside.now damaged unkept) }
{
    let mut text = Vec::new(alloc);
    push_number(alloc, damaged as u64, &mut text)?;
    match unkept {
        None => {
            text.extend_from_slice(b" records cannot be read: they go to ")?;
            text.extend_from_slice(aside.as_bytes())?;
            Ok(text)
        }
        Some(_) => {
            text.extend_from_slice(b" records cannot be read, and stay where they are")?;
            Ok(text)
        }
    }
}

fn unused_by(alloc: Global, folder: &str, fault: DiskFault) -> Result<NotBegun, AllocError>
    ensures { IfOk result IsOfFolder }
{
    let why = match fault {
        DiskFault::OutOfMemory => return Ok(NotBegun::Memory),
        _ => disk_words(fault),
    };
    let why = std::str::from_utf8(why).unwrap_or("the disk failed");
    unused(alloc, folder, why)
}

/// That the folder cannot be used.
fn unused(alloc: Global, folder: &str, why: &str) -> Result<NotBegun, AllocError>
    ensures { IfOk result IsOfFolder }
{
    let text = format!(in alloc;
        "{folder} cannot be used ({why}): until it can be, no change is kept, and files of credentials are not read again"
    )?;
    Ok(NotBegun::Unused(SaidLine {
        level: Level::Alert,
        about: About::Folder,
        text: Text::from_vec(text.into_bytes()),
    }))
}

/// Tells that another agent holds the folder.
pub(crate) fn refuse_held<E: Sink>(alloc: Global, folder: &str, errors: &mut E) -> Exit
    ensures { RefusesStart result (⟦<E as Watched>⟧.change errors.old errors.new) }
{
    refuse(
        alloc,
        folder,
        "another agent serves with this folder; end that one, or name another",
        errors,
    )
}

/// Tells that the file cannot be served with the changes of the folder.
pub(crate) fn refuse_changes<E: Sink>(alloc: Global, folder: &str, errors: &mut E) -> Exit
    ensures { RefusesStart result (⟦<E as Watched>⟧.change errors.old errors.new) }
{
    refuse(
        alloc,
        folder,
        "with its changes the inventory would be none; name another folder, or mend FILE",
        errors,
    )
}

fn refuse<E: Sink>(alloc: Global, folder: &str, why: &str, errors: &mut E) -> Exit
    ensures { RefusesStart result (⟦<E as Watched>⟧.change errors.old errors.new) }
{
    match format!(in alloc; "{PROGRAM}: {folder}: {why}\n") {
        Ok(line) => {
            tell(errors, line.as_bytes());
            Exit::Inventory
        }
        Err(_) => Stop::Memory.report(PROGRAM, errors),
    }
}
