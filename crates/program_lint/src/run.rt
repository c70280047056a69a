//! The command `lint`: a file is read, judged, and told of.
ghost use Rattle.std.specs.Prelude.{◌≡◌, is_some, true};
ghost use Rattle.program_lint.specs.Ends.{EndsBy, ends_by, is_faulty};

use crate::findings::{finding_of_file, push_findings};
use crate::judged::{Judged, Read, judge};
use crate::open_files::{is_for_others, open_files};
use agent_words::{Demands, StartFault};
use base_device::Sink;
use base_files::Inputs;
use base_moment::{LAST, Moment};
use program_report::{Exit, PROGRAM, Stop, send, tell};
use program_words::SystemFiles;
use state_file::ReadFault;
use std::alloc::{AllocError, Global};
use std::fs;
use std::io::ErrorKind;
use std::os::unix::fs::MetadataExt;
use std::rt::{Clock, Files};
use vault_inventory::MOST_INVENTORY;
use vault_lint::{Finding, Severity, push_json, push_line};

/// What the words of `lint` ask.
#[derive(Clone, Copy, Debug)]
pub struct Linted<'a> {
    /// The path of the inventory.
    pub file: &'a str,
    /// Whether the findings are written as an array of JSON.
    pub json: bool,
    /// What `serve` would demand of it.
    pub demands: Demands,
}

/// Writes every fault of the inventory in a file of the system and every doubt about it, and counts them on `errors`; paths of files of
/// credentials start at `folder`. It ends as [`lint_bytes`] does, and with 6 where the file is not read.
pub fn run_lint<R, I, W, E>(
    rt: &R,
    linted: Linted<'_>,
    folder: &str,
    inputs: &mut I,
    out: &mut W,
    errors: &mut E,
) -> Exit
where
    R: Files + AllocGlobal + Clock,
    I: Inputs,
    W: Sink,
    E: Sink,
{
    let Ok(refused) = refused_file(rt, linted.file) else {
        return Stop::Memory.report(PROGRAM, errors);
    };
    if let Some(ReadFault::NotRegular) = refused {
        return lint_unread(rt.alloc(), linted, out, errors);
    }
    let mut files = SystemFiles::new(rt);
    match files.read(rt.alloc(), linted.file, MOST_INVENTORY) {
        Ok(bytes) => {
            let Ok(open_files) = open_files(rt, bytes.list(), folder) else {
                return Stop::Memory.report(PROGRAM, errors);
            };
            let read = Read {
                refused,
                bytes: bytes.list(),
                folder,
                open_files: &open_files,
                at: now_of(rt),
            };
            lint_bytes(rt.alloc(), linted, &read, inputs, out, errors)
        }
        Err(fault) => {
            let exit = Stop::from(fault).report(PROGRAM, errors);
            files.advise(PROGRAM, exit, linted.file, errors);
            exit
        }
    }
}

// Why a file may not be served whatever it holds: it is no regular one, or others may read or write it. One that is not there is read,
// which tells why. The only error is lack of memory.
fn refused_file<R: Files + AllocGlobal>(
    rt: &R,
    file: &str,
) -> Result<Option<ReadFault>, AllocError> {
    match fs::metadata(rt, file) {
        Ok(found) if found.is_dir() => Ok(None),
        Ok(found) if !found.is_file() => Ok(Some(ReadFault::NotRegular)),
        Ok(found) if is_for_others(&found) => {
            Ok(Some(ReadFault::ForOthers(found.mode() & 0o7777)))
        }
        Err(error) if error.kind() == ErrorKind::OutOfMemory => Err(AllocError),
        _ => Ok(None),
    }
}

// Tells that a file is no regular one, and ends.
fn lint_unread<W: Sink, E: Sink>(
    alloc: Global,
    linted: Linted<'_>,
    out: &mut W,
    errors: &mut E,
) -> Exit {
    let mut findings = Vec::new(alloc);
    match push_refused(alloc, Some(ReadFault::NotRegular), &mut findings) {
        Ok(()) => write(alloc, linted, &findings, true, out, errors),
        Err(AllocError) => Stop::Memory.report(PROGRAM, errors),
    }
}

// The second that the system's clock shows; the first one, where it shows none.
fn now_of<R: Clock>(rt: &R) -> Moment {
    let seconds = match rt.since_1970() {
        Ok(since) => since.as_secs(),
        Err(_) => 0,
    };
    Moment::new(seconds.min(LAST)).unwrap()
}

/// Writes every fault of an inventory that was read and every doubt about it, and counts them on `errors`.
///
/// Exit 1: `serve` refuses it. Exit 0: `serve` takes it. Exit 6: a write failed. Exit 7: memory was refused.
#[tactic(auto, using(crate::proofs::Ended::ended, crate::proofs::Ended::memory_ends))]
pub fn lint_bytes<I: Inputs, W: Sink, E: Sink>(
    alloc: Global,
    linted: Linted<'_>,
    read: &Read<'_>,
    inputs: &mut I,
    out: &mut W,
    errors: &mut E,
) -> Exit
    ensures { EndsBy linted.entry.demands (I.bytes_at inputs.old) read.now.folder.now read.now.bytes.now (is_some read.now.refused) result }
{
    let demands = linted.demands;
    let Ok(judged) = judge(alloc, read, demands, inputs) else {
        return Stop::Memory.report(PROGRAM, errors);
    };
    let is_faulty = is_faulty(read.refused.is_some(), &judged.faults);
    match said_of(alloc, demands, read, &judged) {
        Ok(findings) => write(alloc, linted, &findings, is_faulty, out, errors),
        Err(AllocError) => Stop::Memory.report(PROGRAM, errors),
    }
}

// Whether an inventory is refused, whatever it holds or for a fault.
fn is_faulty(is_refused: bool, faults: &[StartFault]) -> bool
    ensures { result ≡ is_faulty is_refused faults.now }
{
    is_refused || !faults.is_empty()
}

// All that is said.
fn said_of(
    alloc: Global,
    demands: Demands,
    read: &Read<'_>,
    judged: &Judged,
) -> Result<Vec<Finding>, AllocError> {
    let mut findings = Vec::new(alloc);
    push_refused(alloc, read.refused, &mut findings)?;
    push_findings(alloc, read.bytes, demands, judged, &mut findings)?;
    Ok(findings)
}

fn push_refused(
    alloc: Global,
    refused: Option<ReadFault>,
    findings: &mut Vec<Finding>,
) -> Result<(), AllocError> {
    match refused {
        None => Ok(()),
        Some(fault) => {
            let finding = finding_of_file(alloc, fault)?;
            Ok(findings.push(finding)?)
        }
    }
}

// Writes findings, and gives the exit of an inventory that is faulty, or is not.
fn write<W: Sink, E: Sink>(
    alloc: Global,
    linted: Linted<'_>,
    findings: &[Finding],
    is_faulty: bool,
    out: &mut W,
    errors: &mut E,
) -> Exit
    ensures { ends_by is_faulty result ≡ true }
{
    let Ok(text) = text_of(alloc, linted, findings) else {
        return Stop::Memory.report(PROGRAM, errors);
    };
    let Ok(count) = count_of(alloc, linted.file, findings) else {
        return Stop::Memory.report(PROGRAM, errors);
    };
    if let Err(stop) = send(out, &text) {
        return stop.report(PROGRAM, errors);
    }
    tell(errors, count.as_bytes());
    if is_faulty {
        Exit::Inventory
    } else {
        Exit::Done
    }
}

// The text of findings. The only error is lack of memory.
fn text_of(alloc: Global, linted: Linted<'_>, findings: &[Finding]) -> Result<Vec<u8>, AllocError> {
    let mut text = Vec::new(alloc);
    if linted.json {
        push_json(alloc, findings, &mut text)?;
        return Ok(text);
    }
    for finding in findings {
        push_line(alloc, linted.file, finding, &mut text)?;
    }
    Ok(text)
}

// How many faults and how many doubts a file has. The only error is lack of memory.
fn count_of(alloc: Global, file: &str, findings: &[Finding]) -> Result<String, AllocError> {
    let mut faults: u64 = 0;
    let mut doubts: u64 = 0;
    for finding in findings {
        match finding.severity {
            Severity::Fault => faults = faults.saturating_add(1),
            Severity::Doubt => doubts = doubts.saturating_add(1),
        }
    }
    let fault = if faults == 1 { "fault" } else { "faults" };
    let doubt = if doubts == 1 { "doubt" } else { "doubts" };
    format!(in alloc; "{file}: {faults} {fault}, {doubts} {doubt}\n")
}
