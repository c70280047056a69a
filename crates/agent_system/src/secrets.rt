//! The files of credentials of the system.
use base_device::{InputFault, read_file};
use base_files::Inputs;
use base_moment::Text;
use state_secrets::{FileStamp, SecretFiles};
use std::alloc::Global;
use std::fs::{self, Metadata};
use std::io::ErrorKind;
use std::os::unix::fs::MetadataExt;
use std::rt::Files;

/// The files of credentials of the system, of which nothing is known before they are looked at. One that is no regular file is not
/// opened, since opening a pipe may wait.
#[derive(Debug, Drop)]
pub struct SystemSecrets<'a, R> {
    rt: &'a R,
}

impl<'a, R> SystemSecrets<'a, R> {
    /// The files of the system.
    pub fn new(rt: &'a R) -> SystemSecrets<'a, R> {
        SystemSecrets { rt }
    }
}

impl<'a, R: Files + AllocGlobal> Inputs for SystemSecrets<'a, R> {
    ghost use Rattle.std.specs.Prelude.{None};

    ghost bytes_at = { λ _ _. None };

    fn read(&mut self, _alloc: Global, path: &str, max: usize) -> Result<Text, InputFault> {
        match fs::metadata(self.rt, path) {
            Ok(found) if found.is_file() => read_file(self.rt, path, max),
            Err(error) if error.kind() == ErrorKind::OutOfMemory => Err(InputFault::OutOfMemory),
            Ok(_) | Err(_) => Err(InputFault::ReadFailed),
        }
    }
}

impl<'a, R: Files + AllocGlobal> SecretFiles for SystemSecrets<'a, R> {
    ghost use Rattle.std.specs.Prelude.{None};

    ghost calls = { λ _. None };

    fn stamp(&mut self, path: &[u8]) -> Option<FileStamp> {
        let path = std::str::from_utf8(path).ok()?;
        match fs::metadata(self.rt, path) {
            Ok(found) => Some(stamp_of(&found)),
            Err(_) => None,
        }
    }

    fn open(&mut self, alloc: Global, path: &[u8], max: usize) -> Result<Text, InputFault> {
        match std::str::from_utf8(path) {
            Ok(path) => self.read(alloc, path, max),
            Err(_) => Err(InputFault::ReadFailed),
        }
    }
}

fn stamp_of(found: &Metadata) -> FileStamp {
    FileStamp {
        device: found.dev(),
        inode: found.ino(),
        written: nanoseconds(found.mtime(), found.mtime_nsec()),
        changed: nanoseconds(found.ctime(), found.ctime_nsec()),
        size: found.len(),
        mode: found.mode(),
        is_regular: found.is_file(),
    }
}

/// A moment as nanoseconds since 1970; 0 before.
fn nanoseconds(seconds: i64, rest: i64) -> u64 {
    let seconds = u64::try_from(seconds).unwrap_or(0);
    let rest = u64::try_from(rest).unwrap_or(0);
    seconds.saturating_mul(1_000_000_000).saturating_add(rest)
}
