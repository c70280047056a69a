//! What a start with a state folder finds of the file that is to be served, and of its last good copy.
use crate::folder::FolderPaths;
use crate::modes::{may_others_write, say_open};
use agent_system::push_each;
use agent_words::{About, Demands, SaidLine, unread_words, why_not_served};
use base_disk::{Disk, DiskFault};
use base_log::Level;
use base_moment::Text;
use state_file::ReadFault;
use state_keeping::read_file;
use std::alloc::{AllocError, Global};
use vault_inventory::MOST_INVENTORY;

/// What a start finds. It has no `Debug`: the bytes may hold secrets.
#[derive(Drop)]
pub(crate) struct Found {
    /// The file, where it may be served.
    pub(crate) file: Option<Text>,
    /// Its last good copy, where there is one that may be served.
    pub(crate) copy: Option<Text>,
    /// Why the file is not served.
    pub(crate) said: Vec<SaidLine>,
}

/// Why a file is not served.
#[derive(Drop)]
enum Unserved {
    /// For these reasons, a line each.
    Whys(Vec<Text>),
    /// Memory was refused: it may be served, or may not.
    Memory,
}

impl From<AllocError> for Unserved {
    fn from(_e: AllocError) -> Unserved {
        Unserved::Memory
    }
}

/// What the file and its copy are found to be by the paths of this folder, as they are written: what the files hold that they name is
/// waited for. The only error is lack of memory.
pub(crate) fn find<D: Disk>(
    alloc: Global,
    disk: &mut D,
    folder: FolderPaths<'_>,
    demands: Demands,
) -> Result<Found, AllocError> {
    let FolderPaths { name, paths } = folder;
    let mut said = Vec::new(alloc);
    say_open(alloc, disk, folder, &mut said)?;
    let file = find_file(alloc, disk, paths.file(), demands, &mut said)?;
    let copy = find_copy(alloc, disk, paths.copy(), name, demands)?;
    Ok(Found { file, copy, said })
}

/// The file at a path, where it may be served; otherwise it is said why not. The only error is lack of memory.
fn find_file<D: Disk>(
    alloc: Global,
    disk: &mut D,
    path: &str,
    demands: Demands,
    said: &mut Vec<SaidLine>,
) -> Result<Option<Text>, AllocError> {
    match judged(alloc, disk, path, demands) {
        Ok(bytes) => Ok(Some(bytes)),
        Err(Unserved::Whys(whys)) => {
            push_each(said, Level::Alert, About::File, whys)?;
            Ok(None)
        }
        Err(Unserved::Memory) => Err(AllocError),
    }
}

/// The file at a path, where it may be served; otherwise why not.
fn judged<D: Disk>(
    alloc: Global,
    disk: &mut D,
    path: &str,
    demands: Demands,
) -> Result<Text, Unserved> {
    let bytes = match read_file(alloc, disk, path) {
        Ok(read) => read.bytes,
        Err(ReadFault::OutOfMemory) => return Err(Unserved::Memory),
        Err(fault) => return Err(alone(alloc, unread_words(alloc, fault)?)?),
    };
    match why_not_served(alloc, bytes.list(), demands)? {
        None => Ok(bytes),
        Some(whys) => Err(Unserved::Whys(whys)),
    }
}

/// The one reason, in a line of its own.
fn alone(alloc: Global, why: Text) -> Result<Unserved, AllocError> {
    let mut whys = Vec::new(alloc);
    whys.push(why)?;
    Ok(Unserved::Whys(whys))
}

/// The last good copy at a path in this folder, where there is one that may be served: none that others may write. The only error is
/// lack of memory.
fn find_copy<D: Disk>(
    alloc: Global,
    disk: &mut D,
    path: &str,
    folder: &str,
    demands: Demands,
) -> Result<Option<Text>, AllocError> {
    if may_others_write(disk, folder)? || may_others_write(disk, path)? {
        return Ok(None);
    }
    let bytes = match disk.read(alloc, path, MOST_INVENTORY) {
        Ok(Some(bytes)) => bytes,
        Err(DiskFault::OutOfMemory) => return Err(AllocError),
        Ok(None) | Err(_) => return Ok(None),
    };
    match why_not_served(alloc, bytes.list(), demands)? {
        None => Ok(Some(bytes)),
        Some(_) => Ok(None),
    }
}
