//! Which entries have their credentials in files that others may read or write.
use state_secrets::placed;
use std::alloc::{AllocError, Global};
use std::fs::{self, Metadata};
use std::io::ErrorKind;
use std::os::unix::fs::MetadataExt;
use std::rt::Files;
use vault_inventory::{EntryNote, InvFault, read_served};

/// Of each entry of an inventory with these bytes whether others may read or write its file, which starts at `folder`; of none, where
/// the bytes are no inventory. The only error is lack of memory.
pub(crate) fn open_files<R: Files + AllocGlobal>(
    rt: &R,
    bytes: &[u8],
    folder: &str,
) -> Result<Vec<bool>, AllocError> {
    let alloc = rt.alloc();
    let mut open = Vec::new(alloc);
    match read_served(alloc, bytes) {
        Ok(served) => {
            for note in served.notes() {
                open.push(is_open(rt, alloc, folder, note)?)?;
            }
            Ok(open)
        }
        Err(InvFault::OutOfMemory) => Err(AllocError),
        Err(_) => Ok(open),
    }
}

fn is_open<R: Files + AllocGlobal>(
    rt: &R,
    alloc: Global,
    folder: &str,
    note: &EntryNote,
) -> Result<bool, AllocError> {
    let Some(path) = &note.file else {
        return Ok(false);
    };
    let path = placed(alloc, folder.as_bytes(), path.list())?;
    let Ok(path) = std::str::from_utf8(&path) else {
        return Ok(false);
    };
    match fs::metadata(rt, path) {
        Ok(found) => Ok(found.is_file() && is_for_others(&found)),
        Err(error) if error.kind() == ErrorKind::OutOfMemory => Err(AllocError),
        Err(_) => Ok(false),
    }
}

/// Whether others may read or write a file.
pub(crate) fn is_for_others(found: &Metadata) -> bool {
    found.mode() & 0o006 != 0
}
