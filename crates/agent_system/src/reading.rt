//! What is served of the file alone, and why a start is refused.
ghost use Rattle.std.specs.Prelude.{◌≡◌, [], IfOk, None, Ok};
ghost use Rattle.base_files.specs.Files.{FileIsRead};
ghost use Rattle.vault_inventory.specs.declared.limits.TheConstants.{MOST_INVENTORY};
ghost use Rattle.agent_words.specs.Reading.{IsWellWritten};
ghost use Rattle.agent_system.specs.Refusals.{GivesOrRefuses, IsToldOf, RefusesIf, RefusesStart};
ghost use Rattle.agent_system.specs.Whole.{IsServedFile, IsServedWhole, folder_of};

use crate::served_file::{ServedFile, folder_of};
use agent_words::{
    Demands, StartFault, faults_as_written, faults_to_serve, line_of_fault, read_to_serve,
};
use base_device::{Sink, Watched};
use base_files::Inputs;
use base_moment::Text;
use program_report::{Exit, PROGRAM, Stop, tell};
use state_changes::Rows;
use std::alloc::{AllocError, Global};
use vault_inventory::{Inventory, MOST_INVENTORY, read_served};

/// What is served at first.
#[derive(Drop)]
pub struct Inventories {
    pub served: Inventory,
    /// The same once more, where the start may wait for its part of a spread: it is shown meanwhile.
    pub again: Option<Inventory>,
    /// The entries that the file names, where nothing keeps changes and some of them may wait for their files.
    pub named: Option<Rows>,
}

/// What a start without a ledger reads.
#[derive(Drop)]
pub struct Sources<'a, F, I> {
    /// The path of the inventory.
    pub file: &'a str,
    /// The inventory.
    pub files: F,
    /// The files of credentials that it names.
    pub secrets: I,
}

/// What is served of the file, with what the files hold that it names; or the exit, once it was told why the start is refused.
///
/// `Device`: the file cannot be read, or has more than 1 MiB. `Inventory`: it is none, cannot be served as it is demanded, or others may
/// read or write it. `Memory`: memory was refused.
#[tactic(auto, using(crate::proofs::Whole::file_served))]
pub fn read_inventory<F, I, E>(
    alloc: Global,
    demands: Demands,
    sources: &mut Sources<'_, F, I>,
    errors: &mut E,
) -> Result<Inventories, Exit>
where
    F: ServedFile,
    I: Inputs,
    E: Sink,
    ensures told { GivesOrRefuses result (⟦<E as Watched>⟧.change errors.old errors.new) }
    ensures alone { IfOk result (λ i. demands.earlier ≡ 0 → i.again ≡ None) }
    ensures served { IfOk result (IsServedFile (F.bytes_at sources.old.files) (I.bytes_at sources.old.secrets) sources.old.file.now demands) }
{
    let bytes = read_bytes(alloc, sources.file, &mut sources.files, errors)?;
    serve_bytes(alloc, &bytes, demands, sources, errors)
}

/// Refuses a file that cannot be read, or that may not be served for what it writes, whatever the files hold that it names: the exit, once
/// it was told why. `None` where it may be served so.
pub fn refuse_written<F, I, E>(
    alloc: Global,
    demands: Demands,
    sources: &mut Sources<'_, F, I>,
    errors: &mut E,
) -> Option<Exit>
where
    F: ServedFile,
    E: Sink,
    ensures { RefusesIf result (⟦<E as Watched>⟧.change errors.old errors.new) }
{
    match read_bytes(alloc, sources.file, &mut sources.files, errors) {
        Ok(bytes) => refuse_bytes(alloc, &bytes, demands, sources, errors),
        Err(exit) => Some(exit),
    }
}

/// Refuses a file with these bytes that may not be served for what it writes, whatever the files hold that it names: the exit, once it was
/// told why. `None` where it may be served so.
#[tactic(auto, using(crate::proofs::Whole::well_written))]
pub fn refuse_bytes<F, I, E>(
    alloc: Global,
    bytes: &Text,
    demands: Demands,
    sources: &Sources<'_, F, I>,
    errors: &mut E,
) -> Option<Exit>
where
    F: ServedFile,
    E: Sink,
    ensures told { RefusesIf result (⟦<E as Watched>⟧.change errors.old errors.new) }
    ensures well { result ≡ None → IsWellWritten demands bytes.now }
{
    match faults_as_written(alloc, bytes.list(), demands) {
        Ok(faults) => refuse_faults(alloc, bytes, demands, &faults, sources, errors),
        Err(AllocError) => Some(Stop::Memory.report(PROGRAM, errors)),
    }
}

/// Refuses a file with these bytes for these faults of what it writes, where there are any.
#[tactic(auto, using(crate::proofs::Refusals::refused_inventory))]
fn refuse_faults<F, I, E>(
    alloc: Global,
    bytes: &Text,
    demands: Demands,
    faults: &[StartFault],
    sources: &Sources<'_, F, I>,
    errors: &mut E,
) -> Option<Exit>
where
    F: ServedFile,
    E: Sink,
    ensures told { RefusesIf result (⟦<E as Watched>⟧.change errors.old errors.new) }
    ensures none { result ≡ None → faults.now ≡ [] }
{
    if faults.is_empty() {
        return None;
    }
    if let StartFault::Inventory(fault) = faults[0] {
        let stop = Stop::from(fault);
        return Some(refuse_file(&sources.files, stop, sources.file, errors));
    }
    let lines = lines_of(alloc, demands, bytes, faults);
    Some(refuse(lines, errors))
}

/// The bytes of the file; or the exit, once it was told why it cannot be read.
///
/// `Device`: it cannot be read, or has more than 1 MiB. `Inventory`: it is no regular file, or others may read or write it. `Memory`:
/// memory was refused.
#[tactic(auto, using(crate::proofs::Refusals::refused_input))]
pub fn read_bytes<F, E>(
    alloc: Global,
    file: &str,
    files: &mut F,
    errors: &mut E,
) -> Result<Text, Exit>
where
    F: ServedFile,
    E: Sink,
    ensures told { GivesOrRefuses result (⟦<E as Watched>⟧.change errors.old errors.new) }
    ensures read { IfOk result (λ bytes. FileIsRead (F.bytes_at files.old file.now) MOST_INVENTORY (Ok bytes)) }
{
    if let Some(exit) = refuse_mode(alloc, file, files, errors) {
        return Err(exit);
    }
    match files.read(alloc, file, MOST_INVENTORY) {
        Ok(bytes) => Ok(bytes),
        Err(fault) => Err(refuse_file(files, Stop::from(fault), file, errors)),
    }
}

/// What is served of these bytes of the file, with what the files hold that they name; or the exit, once it was told why the start is
/// refused.
///
/// `Inventory`: they are no inventory, or cannot be served as it is demanded. `Memory`: memory was refused.
#[tactic(auto, using(crate::proofs::Refusals::refused_inventory, crate::proofs::Whole::served_whole))]
pub fn serve_bytes<F, I, E>(
    alloc: Global,
    bytes: &Text,
    demands: Demands,
    sources: &mut Sources<'_, F, I>,
    errors: &mut E,
) -> Result<Inventories, Exit>
where
    F: ServedFile,
    I: Inputs,
    E: Sink,
    ensures told { GivesOrRefuses result (⟦<E as Watched>⟧.change errors.old errors.new) }
    ensures alone { IfOk result (λ i. demands.earlier ≡ 0 → i.again ≡ None) }
    ensures served { IfOk result (IsServedWhole (I.bytes_at sources.old.secrets) (folder_of sources.old.file.now) bytes.now demands) }
{
    let file = sources.file;
    let folder = folder_of(file);
    match read_to_serve(alloc, bytes.list(), demands, folder, &mut sources.secrets) {
        Ok(served) => Ok(Inventories {
            served,
            again: read_again(alloc, bytes, demands, folder, &mut sources.secrets),
            named: None,
        }),
        Err(StartFault::Inventory(fault)) => {
            Err(refuse_file(&sources.files, Stop::from(fault), file, errors))
        }
        Err(_) => {
            let lines = refusal(alloc, bytes, demands, folder, &mut sources.secrets);
            Err(refuse(lines, errors))
        }
    }
}

/// Tells that the file is not served, and, but where memory is wanting, what helps people besides.
fn refuse_file<F: ServedFile, E: Sink>(files: &F, stop: Stop, file: &str, errors: &mut E) -> Exit
    ensures { IsToldOf stop result (⟦<E as Watched>⟧.change errors.old errors.new) }
{
    let exit = stop.report(PROGRAM, errors);
    if exit != Exit::Memory {
        files.advise(exit, file, errors);
    }
    exit
}

/// What is served of these bytes, once more; `None` where a start does not wait, or memory is wanting.
fn read_again<I: Inputs>(
    alloc: Global,
    bytes: &Text,
    demands: Demands,
    folder: &str,
    files: &mut I,
) -> Option<Inventory>
    ensures { demands.earlier ≡ 0 → result ≡ None }
{
    if demands.earlier == 0 {
        return None;
    }
    read_to_serve(alloc, bytes.list(), demands, folder, files).ok()
}

/// Refuses a file that is no regular one, or that others may read or write. One that is not there is read, which tells why.
fn refuse_mode<F: ServedFile, E: Sink>(
    alloc: Global,
    file: &str,
    files: &F,
    errors: &mut E,
) -> Option<Exit>
    ensures { RefusesIf result (⟦<E as Watched>⟧.change errors.old errors.new) }
{
    match files.mode_fault(alloc, file) {
        Ok(None) => None,
        Ok(Some(line)) => {
            tell(errors, line.as_bytes());
            Some(Exit::Inventory)
        }
        Err(AllocError) => Some(Stop::Memory.report(PROGRAM, errors)),
    }
}

/// Tells why the start is refused.
fn refuse<E: Sink>(lines: Result<Vec<u8>, AllocError>, errors: &mut E) -> Exit
    ensures { RefusesStart result (⟦<E as Watched>⟧.change errors.old errors.new) }
{
    match lines {
        Ok(lines) => {
            tell(errors, &lines);
            Exit::Inventory
        }
        Err(AllocError) => Stop::Memory.report(PROGRAM, errors),
    }
}

/// Why the start is refused, a line for each fault. The only error is lack of memory; that there is no fault means it, too.
fn refusal<I: Inputs>(
    alloc: Global,
    bytes: &Text,
    demands: Demands,
    folder: &str,
    files: &mut I,
) -> Result<Vec<u8>, AllocError> {
    let faults = faults_to_serve(alloc, bytes.list(), demands, folder, files)?;
    if faults.is_empty() {
        return Err(AllocError);
    }
    lines_of(alloc, demands, bytes, &faults)
}

/// A line for each of these faults of an inventory that can be read. The only error is lack of memory.
fn lines_of(
    alloc: Global,
    demands: Demands,
    bytes: &Text,
    faults: &[StartFault],
) -> Result<Vec<u8>, AllocError> {
    let Ok(read) = read_served(alloc, bytes.list()) else {
        return Err(AllocError);
    };
    let forest = read.inventory().forest();
    let mut lines = Vec::new(alloc);
    for fault in faults {
        lines.extend_from_slice(&line_of_fault(alloc, PROGRAM, demands, forest, *fault)?)?;
    }
    Ok(lines)
}
