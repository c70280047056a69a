//! How an agent ends before it is started again, and what its disk has then.
use base_disk::{MemoryDisk, Stored};
use std::alloc::{AllocError, Global};

/// How it ends.
#[derive(Clone, Copy)]
pub enum Ending {
    /// All that it has done is on the disk.
    AtRest,
    /// It is killed: all that it has done is seen, and of what is not synced the seed says what is on the disk.
    Killed(u64),
    /// The machine loses its power: of what is not synced the seed says what is left.
    Lost(u64),
}

impl Ending {
    /// What decides what is left, where power is lost.
    pub fn left(self) -> Option<u64> {
        match self {
            Ending::Lost(seed) => Some(seed),
            Ending::AtRest | Ending::Killed(_) => None,
        }
    }

    /// What decides what is on the disk, where that is not all that is seen.
    pub fn kept(self) -> Option<u64> {
        match self {
            Ending::Killed(seed) => Some(seed),
            Ending::AtRest | Ending::Lost(_) => None,
        }
    }
}

/// The files that stand on a disk at these paths: those that are seen, or those that a loss of power may leave by a seed.
pub fn files_of(
    alloc: Global,
    disk: &MemoryDisk,
    paths: &[&str],
    seed: Option<u64>,
) -> Result<Vec<Stored>, AllocError> {
    let mut files = Vec::new(alloc);
    for path in paths {
        let found = match seed {
            None => disk.file(alloc, path)?,
            Some(seed) => disk.left(alloc, path, seed)?,
        };
        if let Some(file) = found {
            let path = Vec::from_slice(alloc, path.as_bytes())?;
            files.push(Stored { path, file })?;
        }
    }
    Ok(files)
}
