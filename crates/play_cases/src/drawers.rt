//! Files of credentials in memory, of which the calls are counted.
ghost use Rattle.std.specs.Prelude.{◌≤◌, IfOk, length};

use base_device::InputFault;
use base_files::Inputs;
use base_moment::Text;
use state_secrets::{FileStamp, SecretFiles};
use std::alloc::{AllocError, Global};

/// A file of a credential.
#[derive(Drop)]
struct Kept {
    path: Vec<u8>,
    bytes: Vec<u8>,
    stamp: FileStamp,
}

/// What of a file's stamp changes as it is written.
#[derive(Clone, Copy)]
pub enum Stamping {
    /// When it was written, and how many bytes it has.
    Written,
    /// Its number on the disk: another file was moved there.
    Moved,
    /// The device: it is at the end of another link.
    Linked,
    /// Nothing.
    Stays,
    /// What stands there is no regular file.
    Pipe,
}

/// Files by their paths, and how often they were looked at and opened.
#[derive(Drop)]
pub struct Drawer {
    files: Vec<Kept>,
    /// How often files were put there.
    writes: u64,
    pub looks: u64,
    pub reads: u64,
}

impl Drawer {
    /// An empty one. It takes no memory.
    pub fn new(alloc: Global) -> Drawer {
        Drawer {
            files: Vec::new(alloc),
            writes: 0,
            looks: 0,
            reads: 0,
        }
    }

    /// The file at a path has these bytes from now on, and a stamp that changes so.
    pub fn put(
        &mut self,
        alloc: Global,
        path: &str,
        bytes: Vec<u8>,
        stamping: Stamping,
    ) -> Result<(), AllocError> {
        self.writes = self.writes.saturating_add(1);
        let size = bytes.len() as u64;
        let stamp = stamp_after(self.stamp_at(path.as_bytes()), self.writes, size, stamping);
        self.remove(path);
        self.files.push(Kept {
            path: Vec::from_slice(alloc, path.as_bytes())?,
            bytes,
            stamp,
        })?;
        Ok(())
    }

    /// No file is at that path any more.
    pub fn remove(&mut self, path: &str) {
        self.files
            .retain(|file| file.path.as_slice() != path.as_bytes());
    }

    fn at(&self, path: &[u8]) -> Option<&Kept> {
        for file in &self.files {
            if file.path.as_slice() == path {
                return Some(file);
            }
        }
        None
    }

    fn stamp_at(&self, path: &[u8]) -> Option<FileStamp> {
        match self.at(path) {
            None => None,
            Some(file) => Some(file.stamp),
        }
    }

    fn held(&self, alloc: Global, path: &[u8], max: usize) -> Result<Text, InputFault>
        ensures { IfOk result (λ text. length text ≤ max) }
    {
        let Some(file) = self.at(path) else {
            return Err(InputFault::ReadFailed);
        };
        if file.bytes.len() > max {
            return Err(InputFault::TooLong);
        }
        match Text::of(alloc, &file.bytes) {
            Ok(text) => Ok(text),
            Err(_) => Err(InputFault::OutOfMemory),
        }
    }
}

/// The stamp of a file that is written once more.
fn stamp_after(before: Option<FileStamp>, writes: u64, size: u64, stamping: Stamping) -> FileStamp {
    let stamp = before.unwrap_or(FileStamp {
        device: 1,
        inode: 1,
        written: writes,
        changed: writes,
        size,
        mode: 0o100_600,
        is_regular: true,
    });
    match stamping {
        Stamping::Stays => stamp,
        Stamping::Written => FileStamp {
            written: writes,
            changed: writes,
            size,
            is_regular: true,
            ..stamp
        },
        Stamping::Moved => FileStamp {
            inode: stamp.inode.saturating_add(1),
            changed: writes,
            ..stamp
        },
        Stamping::Linked => FileStamp {
            device: stamp.device.saturating_add(1),
            ..stamp
        },
        Stamping::Pipe => FileStamp {
            written: writes,
            changed: writes,
            is_regular: false,
            ..stamp
        },
    }
}

impl Inputs for Drawer {
    ghost use Rattle.std.specs.Prelude.{None};

    ghost bytes_at = { λ _ _. None };

    fn read(&mut self, alloc: Global, path: &str, max: usize) -> Result<Text, InputFault> {
        self.held(alloc, path.as_bytes(), max)
    }
}

impl SecretFiles for Drawer {
    ghost use Rattle.std.specs.Prelude.{None};

    ghost calls = { λ _. None };

    fn stamp(&mut self, path: &[u8]) -> Option<FileStamp> {
        self.looks = self.looks.saturating_add(1);
        self.stamp_at(path)
    }

    fn open(&mut self, alloc: Global, path: &[u8], max: usize) -> Result<Text, InputFault> {
        self.reads = self.reads.saturating_add(1);
        self.held(alloc, path, max)
    }
}
