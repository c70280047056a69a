ghost use Rattle.std.specs.Prelude.{◌≡◌, true, false, if◌then◌else◌, Ok, Err, IfErr, IfOk, OnOk, List, ℕ};
ghost use Rattle.base_device.specs.Failures.{one_more};
ghost use Rattle.base_disk.specs.declared.fault.DiskFault.TheVariants as faults;
ghost use Rattle.base_disk.specs.State.{DiskKeeps, Elapses, IsNotTooLong, LeavesAlone, TellsFailure};
ghost use Rattle.base_disk.specs.MemoryLaws.{memory_lawful};
ghost use Rattle.std.proofs.Common.{le_refl};
ghost use Rattle.base_disk.specs.Memory.{IsFreshDisk, IsSame, EntersCall, image_of, calls_of_disk, memory_state, held_file, is_turn, next_turn};

use crate::call::{CallMade, DiskCall, FileDraft, Held, Stored};
use crate::content::{after_call, first_of};
use crate::failing::Failing;
use crate::{Disk, DiskFault, DiskStamp, DiskTrouble, Lock};
use base_moment::Text;
use std::alloc::{AllocError, Global};

/// A disk in memory. It keeps each call, and so knows what a crash at any moment may leave.
#[derive(Debug, Drop)]
pub struct MemoryDisk {
    alloc: Global,
    pub(crate) files: Vec<Stored>,
    // What stands on the disk of them; `None` where that is all of them.
    pub(crate) kept: Option<Vec<Stored>>,
    pub(crate) calls: Vec<DiskCall>,
    beside: Option<FileDraft>,
    // Another process holds each lock.
    taken: bool,
    failing: Failing,
    faults: u64,
    fault: DiskTrouble,
}

impl MemoryDisk {
    /// A disk with these files, all of them on it. Of two with one path the first is there. Calls that fail meet `fault`.
    pub fn new(
        alloc: Global,
        files: Vec<Stored>,
        failing: Failing,
        fault: DiskTrouble,
    ) -> MemoryDisk
        ensures first { IsFreshDisk (image_of files.items) (image_of files.items) fault (memory_state result) }
        ensures kept { (path : List ℕ) → DiskKeeps path (memory_state result) }
    {
        MemoryDisk {
            alloc,
            files,
            kept: None,
            calls: Vec::new(alloc),
            beside: None,
            taken: false,
            failing,
            faults: 0,
            fault,
        }
    }

    /// A disk as a process finds it that begins after a kill: with these files, of which those in `kept` are on it. At each path a loss
    /// of power leaves what is seen there, or what `kept` has.
    pub fn after_kill(
        alloc: Global,
        files: Vec<Stored>,
        kept: Vec<Stored>,
        failing: Failing,
        fault: DiskTrouble,
    ) -> MemoryDisk
        ensures { IsFreshDisk (image_of files.items) (image_of kept.items) fault (memory_state result) }
    {
        MemoryDisk {
            alloc,
            files,
            kept: Some(kept),
            calls: Vec::new(alloc),
            beside: None,
            taken: false,
            failing,
            faults: 0,
            fault,
        }
    }

    /// From now on another process holds each lock.
    pub fn take_locks(&mut self)
        ensures taken { (path : List ℕ) → (memory_state self.new).taken path ≡ true }
        ensures alone { LeavesAlone (memory_state self.old) (memory_state self.new) }
        ensures beside { (memory_state self.new).beside ≡ (memory_state self.old).beside }
        ensures time { Elapses (memory_state self.old) (memory_state self.new) }
        ensures faults { (memory_state self.new).faults ≡ (memory_state self.old).faults }
        ensures fault { (memory_state self.new).fault ≡ (memory_state self.old).fault }
    {
        self.taken = true;
    }

    /// The calls that were made on its files, in their order: writes, syncs and moves, also those that failed.
    pub fn calls(&self) -> &[DiskCall]
        ensures { result.now ≡ calls_of_disk self.now }
    {
        &self.calls
    }

    /// The file that a read gives.
    pub fn file(&self, alloc: Global, path: &str) -> Result<Option<Held>, AllocError>
        ensures { IfOk result (λ file. held_file file ≡ (memory_state self.now).seen path.now) }
    {
        let mut file = first_of(alloc, &self.files, path)?;
        for call in &self.calls {
            if call.path.as_slice() == path.as_bytes() {
                file = after_call(alloc, file, &call.what)?;
            }
        }
        Ok(file)
    }

    /// Counts the call, and says that it failed where its turn has come.
    fn end(&mut self) -> Result<(), DiskFault>
        ensures told { result ≡ (if is_turn self.old.failing then Err (faults.Failed self.old.fault) else Ok tt) }
        ensures failing { self.new.failing ≡ next_turn self.old.failing }
        ensures count { self.new.faults ≡ (if is_turn self.old.failing then one_more self.old.faults else self.old.faults) }
        ensures files { self.new.files.items ≡ self.old.files.items }
        ensures kept { self.new.kept ≡ self.old.kept }
        ensures calls { self.new.calls.items ≡ self.old.calls.items }
        ensures beside { self.new.beside ≡ self.old.beside }
        ensures taken { self.new.taken ≡ self.old.taken }
        ensures fault { self.new.fault ≡ self.old.fault }
        ensures which { IfErr result IsNotTooLong }
    {
        let fails = self.failing.is_turn();
        self.failing = self.failing.next();
        if fails {
            self.faults = self.faults.saturating_add(1);
            return Err(DiskFault::Failed(self.fault));
        }
        Ok(())
    }

    /// Makes a call on the file at a path.
    fn enter(&mut self, path: &str, what: CallMade) -> Result<(), DiskFault>
        ensures entered { EntersCall path.now what self.old self.new result }
        ensures same { IsSame self.old self.new }
        ensures done { OnOk result (is_turn self.old.failing ≡ false) }
        ensures cause { TellsFailure (memory_state self.old) (memory_state self.new) result }
        ensures which { IfErr result IsNotTooLong }
    {
        let path = Vec::from_slice(self.alloc, path.as_bytes())?;
        self.calls.push(DiskCall { path, what })?;
        self.end()
    }
}

impl Disk for MemoryDisk {
    ghost is_known = { true };

    ghost state = { memory_state };

    ghost counts_now = { λ m t c le now. (memory_lawful m).counts t c le now };

    ghost only_now = { λ m c left. (memory_lawful m).only (memory_state m).moment c (le_refl (memory_state m).moment) left };

    fn read(&mut self, alloc: Global, path: &str, max: usize) -> Result<Option<Text>, DiskFault> {
        let file = self.file(alloc, path)?;
        self.end()?;
        match file {
            None => Ok(None),
            Some(held) if held.bytes.len() <= max => Ok(Some(Text::from_vec(held.bytes))),
            Some(_) => Err(DiskFault::TooLong),
        }
    }

    fn stamp(&mut self, path: &str) -> Result<Option<DiskStamp>, DiskFault> {
        let file = self.file(self.alloc, path)?;
        self.end()?;
        Ok(file.map(|held| DiskStamp {
            modified: (self.calls.len() as i64, 0),
            size: held.bytes.len() as u64,
            mode: held.mode,
            is_regular: true,
        }))
    }

    fn write_at(&mut self, path: &str, at: usize, bytes: &[u8]) -> Result<(), DiskFault> {
        let bytes = Vec::from_slice(self.alloc, bytes)?;
        let done = !self.failing.is_turn();
        self.enter(path, CallMade::Write { at, bytes, done })
    }

    fn sync(&mut self, path: &str) -> Result<(), DiskFault> {
        let done = !self.failing.is_turn();
        self.enter(path, CallMade::Sync { done })
    }

    fn write_beside(&mut self, path: &str, mode: u32, bytes: &[u8]) -> Result<(), DiskFault> {
        let path = Vec::from_slice(self.alloc, path.as_bytes())?;
        let bytes = Vec::from_slice(self.alloc, bytes)?;
        self.end()?;
        self.beside = Some(FileDraft {
            path,
            file: Held { mode, bytes },
            is_synced: false,
        });
        Ok(())
    }

    fn sync_beside(&mut self, path: &str) -> Result<(), DiskFault> {
        self.end()?;
        if let Some(draft) = &mut self.beside {
            draft.is_synced = draft.path.as_slice() == path.as_bytes();
        }
        Ok(())
    }

    fn move_beside(&mut self, path: &str) -> Result<(), DiskFault> {
        // One stands there: the caller has shown it.
        let Some(draft) = &self.beside else {
            return Err(DiskFault::OutOfMemory);
        };
        let mode = draft.file.mode;
        let bytes = Vec::from_slice(self.alloc, &draft.file.bytes)?;
        let done = !self.failing.is_turn();
        self.enter(path, CallMade::Move { mode, bytes, done })
    }

    fn lock(&mut self, path: &str) -> Result<Option<Lock>, DiskFault> {
        let lock = Lock::of(self.alloc, path)?;
        self.end()?;
        Ok(if self.taken { None } else { Some(lock) })
    }
}
