ghost use Rattle.std.specs.Prelude.{◌≡◌, IfErr, false};
ghost use Rattle.base_disk.specs.State.{IsNotTooLong, TellsFailure};
ghost use Rattle.base_disk.specs.System.{system_state, refused};

use crate::places::{beside_of, folder_of};
use crate::{Disk, DiskFault, DiskStamp, DiskTrouble, Lock};
use base_device::{Counted, InputFault, read_all};
use base_moment::Text;
use std::alloc::Global;
use std::fs::{self, DirBuilder, File, OpenOptions, Permissions, TryLockError};
use std::io::{self, ErrorKind, Write};
use std::os::unix::fs::{DirBuilderExt, FileExt, MetadataExt, OpenOptionsExt, PermissionsExt};
use std::rt::Files;

/// The permission bits of a file that holds secrets.
pub const FILE_MODE: u32 = 0o600;

/// The permission bits of a folder that holds such files.
pub const FOLDER_MODE: u32 = 0o700;

/// The disks of the system, of which contracts know nothing.
///
/// Each call opens the file by its path and closes it. A file is on the disk once its folder is synced, too: that is done by the first
/// sync of its path, and by the first one after a file was moved there.
#[derive(Drop)]
pub struct SystemDisk<'a, R> {
    rt: &'a R,
    faults: u64,
    fault: DiskTrouble,
    // What stands at these paths has its name on the disk: the folder was synced, and no file was moved there since.
    named: Vec<String>,
    // Those that are locked until the process ends, with their paths.
    locks: Vec<(String, File)>,
}

impl<'a, R: Files<File = File> + AllocGlobal> SystemDisk<'a, R> {
    /// The disks of the system.
    pub fn new(rt: &'a R) -> SystemDisk<'a, R> {
        SystemDisk {
            rt,
            faults: 0,
            fault: DiskTrouble::Other,
            named: Vec::new(rt.alloc()),
            locks: Vec::new(rt.alloc()),
        }
    }

    /// Makes the folder at `path` with mode 0700 where there is none, and puts its name on the disk: by the next loss of power it is
    /// there, and so is what was synced in it.
    pub fn make_folder(&mut self, path: &str) -> Result<(), DiskFault>
        ensures cause { TellsFailure (system_state self.old.faults self.old.fault) (system_state self.new.faults self.new.fault) result }
    {
        match DirBuilder::new().mode(FOLDER_MODE).create(self.rt, path) {
            Err(error) if error.kind() != ErrorKind::AlreadyExists => Err(self.fail(&error)),
            // (One that was there may have been made by a start that was killed before the sync.)
            _ => match self.sync_folder(path) {
                Ok(()) => Ok(()),
                Err(error) => Err(self.fail(&error)),
            },
        }
    }

    /// Counts a call that failed, unless it failed because memory ran out.
    fn fail(&mut self, error: &io::Error) -> DiskFault
        ensures cause { TellsFailure (system_state self.old.faults self.old.fault) (system_state self.new.faults self.new.fault) (refused result) }
        ensures which { IsNotTooLong result }
    {
        count(&mut self.faults, &mut self.fault, error)
    }

    /// What the system answered.
    fn answer<T: Drop>(&mut self, answer: io::Result<T>) -> Result<T, DiskFault>
        ensures cause { TellsFailure (system_state self.old.faults self.old.fault) (system_state self.new.faults self.new.fault) result }
        ensures which { IfErr result IsNotTooLong }
    {
        match answer {
            Ok(x) => Ok(x),
            Err(error) => Err(self.fail(&error)),
        }
    }

    fn open_to_read(&self, path: &str) -> io::Result<File> {
        self.refuse_irregular(path)?;
        File::open(self.rt, path)
    }

    fn open_to_write(&self, path: &str) -> io::Result<File> {
        self.refuse_irregular(path)?;
        OpenOptions::new().write(true).open(self.rt, path)
    }

    // To open a pipe may wait for ever, for somebody at its other end. So only regular files are opened. (Whoever may write in the folder
    // could put a pipe there after this look; that is the agent's own user.)
    fn refuse_irregular(&self, path: &str) -> io::Result<()> {
        match stamp_of(self.rt, path)? {
            Some(found) if !found.is_regular => Err(ErrorKind::InvalidInput.into()),
            _ => Ok(()),
        }
    }

    fn try_write_beside(&self, path: &str, mode: u32, bytes: &[u8]) -> io::Result<()> {
        let beside = beside_of(self.rt.alloc(), path)?;
        match fs::remove_file(self.rt, beside.as_str()) {
            Err(error) if error.kind() != ErrorKind::NotFound => return Err(error),
            _ => {}
        }
        let mut file = OpenOptions::new()
            .write(true)
            .create_new(true)
            .mode(mode)
            .open(self.rt, beside.as_str())?;
        // The process's umask may have taken bits away.
        file.set_permissions(Permissions::from_mode(mode))?;
        file.write_all(bytes)
    }

    fn try_sync_beside(&self, path: &str) -> io::Result<()> {
        let beside = beside_of(self.rt.alloc(), path)?;
        self.open_to_write(beside.as_str())?.sync_all()
    }

    // A file system that cannot sync a folder at all says that the call is invalid. It promises nothing of names then, and no call
    // would make it: what was asked is done as well as it can be. On one that is read-only no name waits to be synced.
    fn sync_folder(&self, path: &str) -> io::Result<()> {
        match File::open(self.rt, folder_of(path))?.sync_all() {
            Err(error) if is_without_names(&error) => Ok(()),
            synced => synced,
        }
    }

    fn try_move_beside(&mut self, path: &str) -> io::Result<()>
        ensures faults { self.new.faults ≡ self.old.faults }
        ensures fault { self.new.fault ≡ self.old.fault }
    {
        let beside = beside_of(self.rt.alloc(), path)?;
        self.named.retain(|named| named.as_str() != path);
        fs::rename(self.rt, beside.as_str(), path)
    }

    // A file that was there before may not be this process's to write, and its name may have been put there by one that was killed before
    // its folder was synced. A folder that cannot be synced is in the way of its own paths alone.
    fn try_sync(&mut self, path: &str) -> io::Result<()>
        ensures faults { self.new.faults ≡ self.old.faults }
        ensures fault { self.new.fault ≡ self.old.fault }
    {
        self.open_to_read(path)?.sync_all()?;
        if !self.is_named(path) {
            let name = String::from_str(self.rt.alloc(), path)?;
            self.sync_folder(path)?;
            self.named.push(name)?;
        }
        Ok(())
    }

    // Whether the name at this path is on the disk.
    fn is_named(&self, path: &str) -> bool {
        self.named.iter().any(|named| named.as_str() == path)
    }

    fn try_lock(&mut self, path: &str) -> io::Result<bool>
        ensures faults { self.new.faults ≡ self.old.faults }
        ensures fault { self.new.fault ≡ self.old.fault }
    {
        // (The system would refuse it to this process, too.)
        if self.is_held(path) {
            return Ok(true);
        }
        let file = self.open_to_lock(path)?;
        match file.try_lock() {
            Ok(()) => {}
            Err(TryLockError::WouldBlock) => return Ok(false),
            Err(TryLockError::Error(error)) => return Err(error),
        }
        let path = String::from_str(self.rt.alloc(), path)?;
        self.locks.push((path, file))?;
        Ok(true)
    }

    // Where nothing may be written, the lock of a file that is there can be had all the same.
    fn open_to_lock(&self, path: &str) -> io::Result<File> {
        self.refuse_irregular(path)?;
        let opened = OpenOptions::new()
            .write(true)
            .create(true)
            .mode(FILE_MODE)
            .open(self.rt, path);
        match opened {
            Err(error) if is_unwritable(&error) => File::open(self.rt, path),
            opened => opened,
        }
    }

    // Whether this process holds the lock of the file at that path.
    fn is_held(&self, path: &str) -> bool {
        self.locks.iter().any(|held| held.0.as_str() == path)
    }
}

/// Whether a folder cannot be synced, or need not be.
fn is_without_names(error: &io::Error) -> bool {
    matches!(
        error.kind(),
        ErrorKind::InvalidInput | ErrorKind::ReadOnlyFilesystem
    )
}

/// Whether a file may not be written.
fn is_unwritable(error: &io::Error) -> bool {
    matches!(
        error.kind(),
        ErrorKind::PermissionDenied | ErrorKind::ReadOnlyFilesystem
    )
}

/// Counts a call that failed, unless it failed because memory ran out.
fn count(faults: &mut u64, fault: &mut DiskTrouble, error: &io::Error) -> DiskFault
    ensures cause { TellsFailure (system_state faults.old fault.old) (system_state faults.new fault.new) (refused result) }
    ensures which { IsNotTooLong result }
{
    let why = match error.kind() {
        ErrorKind::OutOfMemory => return DiskFault::OutOfMemory,
        ErrorKind::StorageFull | ErrorKind::QuotaExceeded => DiskTrouble::Full,
        ErrorKind::ReadOnlyFilesystem => DiskTrouble::ReadOnly,
        ErrorKind::PermissionDenied => DiskTrouble::Denied,
        ErrorKind::NotFound => DiskTrouble::Missing,
        ErrorKind::InvalidInput => DiskTrouble::Irregular,
        _ => DiskTrouble::Other,
    };
    *faults = faults.saturating_add(1);
    *fault = why;
    DiskFault::Failed(why)
}

/// The stamp of the file at a path, `None` where there is none.
fn stamp_of<R: Files>(rt: &R, path: &str) -> io::Result<Option<DiskStamp>> {
    match fs::metadata(rt, path) {
        Ok(found) => Ok(Some(DiskStamp {
            modified: (found.mtime(), found.mtime_nsec()),
            size: found.len(),
            mode: found.mode() & 0o7777,
            is_regular: found.is_file(),
        })),
        Err(error) if error.kind() == ErrorKind::NotFound => Ok(None),
        Err(error) => Err(error),
    }
}

impl<'a, R: Files<File = File> + AllocGlobal> Disk for SystemDisk<'a, R> {
    ghost is_known = { false };

    ghost state = { λ d. system_state d.faults d.fault };

    ghost counts_now = { λ d t c le now. now };

    ghost only_now = { λ d c left. left };

    fn read(&mut self, alloc: Global, path: &str, max: usize) -> Result<Option<Text>, DiskFault> {
        let file = match self.open_to_read(path) {
            Ok(file) => file,
            Err(error) if error.kind() == ErrorKind::NotFound => return Ok(None),
            Err(error) => return Err(self.fail(&error)),
        };
        match read_all(alloc, &mut Counted::new(file), max) {
            Ok(text) => Ok(Some(text)),
            Err(InputFault::TooLong) => Err(DiskFault::TooLong),
            Err(InputFault::OutOfMemory) => Err(DiskFault::OutOfMemory),
            Err(InputFault::ReadFailed) => Err(self.fail(&ErrorKind::Other.into())),
        }
    }

    fn stamp(&mut self, path: &str) -> Result<Option<DiskStamp>, DiskFault> {
        let found = stamp_of(self.rt, path);
        self.answer(found)
    }

    fn write_at(&mut self, path: &str, at: usize, bytes: &[u8]) -> Result<(), DiskFault> {
        let written = self
            .open_to_write(path)
            .and_then(|file| file.write_all_at(bytes, at as u64));
        self.answer(written)
    }

    fn sync(&mut self, path: &str) -> Result<(), DiskFault> {
        let synced = self.try_sync(path);
        self.answer(synced)
    }

    fn write_beside(&mut self, path: &str, mode: u32, bytes: &[u8]) -> Result<(), DiskFault> {
        let written = self.try_write_beside(path, mode, bytes);
        self.answer(written)
    }

    fn sync_beside(&mut self, path: &str) -> Result<(), DiskFault> {
        let synced = self.try_sync_beside(path);
        self.answer(synced)
    }

    fn move_beside(&mut self, path: &str) -> Result<(), DiskFault> {
        let moved = self.try_move_beside(path);
        self.answer(moved)
    }

    fn lock(&mut self, path: &str) -> Result<Option<Lock>, DiskFault> {
        let lock = Lock::of(self.rt.alloc(), path)?;
        let held = self.try_lock(path);
        match self.answer(held)? {
            true => Ok(Some(lock)),
            false => Ok(None),
        }
    }
}
