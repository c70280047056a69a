//! Whether others than the agent's user and its group may reach what lies in the state folder.
use crate::folder::FolderPaths;
use agent_system::push;
use agent_words::{About, SaidLine};
use base_disk::{Disk, DiskFault};
use base_log::Level;
use base_moment::Text;
use std::alloc::{AllocError, Global};

/// The permission bits of others.
const OTHERS: u32 = 0o007;

/// Their bit to write.
const OTHERS_WRITE: u32 = 0o002;

/// Says of the folder, and of each file in it that holds secrets, that it is open to others, where it is. The only error is lack of
/// memory.
pub(crate) fn say_open<D: Disk>(
    alloc: Global,
    disk: &mut D,
    folder: FolderPaths<'_>,
    said: &mut Vec<SaidLine>,
) -> Result<(), AllocError> {
    let FolderPaths { name, paths } = folder;
    say_mode(alloc, disk, name, name, said)?;
    say_mode(alloc, disk, paths.journal(), name, said)?;
    say_mode(alloc, disk, paths.copy(), name, said)?;
    say_mode(alloc, disk, paths.aside(), name, said)
}

fn say_mode<D: Disk>(
    alloc: Global,
    disk: &mut D,
    path: &str,
    folder: &str,
    said: &mut Vec<SaidLine>,
) -> Result<(), AllocError> {
    let mode = mode_of(disk, path)?;
    if mode & OTHERS == 0 {
        return Ok(());
    }
    let text = format!(in alloc;
        "{path} is open to others (mode {mode:04o}): chmod -R go= {folder}"
    )?;
    push(
        said,
        Level::Alert,
        About::Folder,
        Text::from_vec(text.into_bytes()),
    )
}

/// Whether others may write what is at a path. The only error is lack of memory.
pub(crate) fn may_others_write<D: Disk>(disk: &mut D, path: &str) -> Result<bool, AllocError> {
    Ok(mode_of(disk, path)? & OTHERS_WRITE != 0)
}

/// The permission bits of what is at a path; none where nothing is, or they cannot be told. The only error is lack of memory.
fn mode_of<D: Disk>(disk: &mut D, path: &str) -> Result<u32, AllocError> {
    match disk.stamp(path) {
        Ok(Some(stamp)) => Ok(stamp.mode),
        Err(DiskFault::OutOfMemory) => Err(AllocError),
        Ok(None) | Err(_) => Ok(0),
    }
}
