//! Warnings of files for which the loop waits: a log that is a regular file, and the file of the ends, where they lie on a disk.
ghost use Rattle.std.specs.Prelude.{◌≡◌, ◌++◌, OnOk, Ok, option_map};
ghost use Rattle.agent_system.specs.Stalls.{WarnsBy, WarnsOfDisks, WarnsOfEnds, ends_warning, log_warning, warning_of};

use crate::mounts::is_in_memory;
use crate::said::push;
use agent_words::{About, SaidLine};
use base_log::Level;
use base_moment::Text;
use state_secrets::{FileStamp, SecretFiles};
use std::alloc::{AllocError, Global};

/// What standard output leads to (proc(5)).
const OUTPUT: &[u8] = b"/proc/self/fd/1";

/// Where Linux tells the mounts (proc_pid_mountinfo(5)).
const MOUNTS: &[u8] = b"/proc/self/mountinfo";

/// The bytes of that file at most: a line has some 100.
pub const MOST_MOUNTS: usize = 1_048_576;

/// Adds a warning where standard output is a regular file, and one where the ends are kept in a folder: each where that lies on a disk,
/// and not in memory. Where the system does not tell its mounts there is none. The only error is lack of memory.
pub fn warn_of_disks<I: SecretFiles>(
    alloc: Global,
    files: &mut I,
    ends: Option<&str>,
    said: &mut Vec<SaidLine>,
) -> Result<(), AllocError>
    ensures { OnOk result (WarnsOfDisks I.calls (option_map (λ folder. folder.now) ends.entry) files.old files.new said.old.items said.new.items) }
{
    match files.open(alloc, MOUNTS, MOST_MOUNTS) {
        Ok(mounts) => warn_by(alloc, mounts.list(), files, ends, said),
        Err(_) => Ok(()),
    }
}

// The same by these mounts.
fn warn_by<I: SecretFiles>(
    alloc: Global,
    mounts: &[u8],
    files: &mut I,
    ends: Option<&str>,
    said: &mut Vec<SaidLine>,
) -> Result<(), AllocError>
    ensures { OnOk result (WarnsBy I.calls (Ok mounts.now) (option_map (λ folder. folder.now) ends.entry) files.old files.new said.old.items said.new.items) }
{
    let output = files.stamp(OUTPUT);
    warn_of_log(alloc, mounts, output, said)?;
    warn_of_ends(alloc, mounts, files, ends, said)
}

// Warns of the folder of the ends, where there is one.
fn warn_of_ends<I: SecretFiles>(
    alloc: Global,
    mounts: &[u8],
    files: &mut I,
    ends: Option<&str>,
    said: &mut Vec<SaidLine>,
) -> Result<(), AllocError>
    ensures { OnOk result (WarnsOfEnds I.calls mounts.now (option_map (λ folder. folder.now) ends.entry) files.old files.new said.old.items said.new.items) }
{
    let Some(folder) = ends else {
        return Ok(());
    };
    let stamp = files.stamp(folder.as_bytes());
    warn_of_folder(alloc, mounts, stamp, said)
}

// Warns of a log with this stamp.
fn warn_of_log(
    alloc: Global,
    mounts: &[u8],
    stamp: Option<FileStamp>,
    said: &mut Vec<SaidLine>,
) -> Result<(), AllocError>
    ensures { OnOk result (said.new.items ≡ said.old.items ++ log_warning mounts.now stamp) }
{
    match stamp {
        Some(stamp) if stamp.is_regular && !is_in_memory(mounts, stamp.device) => warn(
            alloc,
            About::Log,
            b"is a regular file: nothing is renewed while its disk stalls",
            said,
        ),
        _ => Ok(()),
    }
}

// Warns of ends in a folder with this stamp.
fn warn_of_folder(
    alloc: Global,
    mounts: &[u8],
    stamp: Option<FileStamp>,
    said: &mut Vec<SaidLine>,
) -> Result<(), AllocError>
    ensures { OnOk result (said.new.items ≡ said.old.items ++ ends_warning mounts.now stamp) }
{
    match stamp {
        Some(stamp) if !is_in_memory(mounts, stamp.device) => warn(
            alloc,
            About::Ends,
            b"are kept on a disk: nothing is renewed while it stalls",
            said,
        ),
        _ => Ok(()),
    }
}

// Adds a warning.
fn warn(
    alloc: Global,
    about: About,
    text: &[u8],
    said: &mut Vec<SaidLine>,
) -> Result<(), AllocError>
    ensures { OnOk result (said.new.items ≡ said.old.items ++ warning_of about text.now) }
{
    push(said, Level::Warning, about, Text::of(alloc, text)?)
}
