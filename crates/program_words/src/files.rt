//! The files of the system, and the line for people after a run over one of them.
use crate::advice::{advise_on_fault, advise_on_file, advise_on_open};
use crate::unread::Unread;
use base_device::{InputFault, Sink};
use base_files::{Inputs, SystemInputs};
use base_moment::Text;
use program_report::Exit;
use std::alloc::Global;
use std::fs;
use std::rt::Files;
use vault_inventory::{MOST_INVENTORY, read_served};

/// The files of the system, of which nothing is known before they are read; and the last one that was not read.
#[derive(Debug, Drop)]
pub struct SystemFiles<'a, R> {
    rt: &'a R,
    unread: Option<UnreadFile>,
}

/// A file that was not read to its end.
#[derive(Debug, Drop)]
struct UnreadFile {
    path: String,
    why: Unread,
}

impl<'a, R: Files + AllocGlobal> Inputs for SystemFiles<'a, R> {
    ghost use Rattle.std.specs.Prelude.{None};

    ghost bytes_at = { λ _ _. None };

    fn read(&mut self, alloc: Global, path: &str, max: usize) -> Result<Text, InputFault> {
        let read = SystemInputs { rt: self.rt }.read(alloc, path, max);
        if let Err(fault) = &read {
            self.note(alloc, path, *fault);
        }
        read
    }
}

impl<'a, R: Files + AllocGlobal> SystemFiles<'a, R> {
    /// No file was read yet.
    pub fn new(rt: &'a R) -> SystemFiles<'a, R> {
        SystemFiles { rt, unread: None }
    }

    /// Tells, after the fault line of a run over the inventory at `file` that ended with `exit`, what helps people besides: which
    /// file was not read, and why; or what to write in the inventory, which is read again for that. An inventory that is no
    /// regular file is not read again. Where there is nothing to say, or memory for it is refused, nothing is told.
    pub fn advise<E: Sink>(&self, program: &str, exit: Exit, file: &str, errors: &mut E) {
        match exit {
            Exit::Device => {
                if let Some(unread) = &self.unread {
                    advise_on_file(program, unread.path.as_str(), unread.why, errors);
                }
            }
            Exit::Inventory => self.advise_on_inventory(program, file, errors),
            _ => {}
        }
    }

    // A pipe is not opened again: its bytes are gone, and opening it may wait.
    fn advise_on_inventory<E: Sink>(&self, program: &str, file: &str, errors: &mut E) {
        let is_regular = match fs::metadata(self.rt, file) {
            Ok(found) => found.is_file(),
            Err(_) => false,
        };
        if !is_regular {
            return;
        }
        let alloc = self.rt.alloc();
        let Ok(text) = SystemInputs { rt: self.rt }.read(alloc, file, MOST_INVENTORY) else {
            return;
        };
        match read_served(alloc, text.list()) {
            Ok(served) => advise_on_open(program, &served, errors),
            Err(fault) => advise_on_fault(program, fault, errors),
        }
    }

    // Keeps which file was not read. If memory for its path is refused, none is kept.
    fn note(&mut self, alloc: Global, path: &str, fault: InputFault) {
        let why = match fault {
            InputFault::OutOfMemory => return,
            InputFault::TooLong => Unread::TooLong,
            InputFault::ReadFailed => self.why_unread(path),
        };
        if let Ok(path) = String::from_str(alloc, path) {
            self.unread = Some(UnreadFile { path, why });
        }
    }

    // Why a file was not read, by what the system says of it now.
    fn why_unread(&self, path: &str) -> Unread {
        match fs::metadata(self.rt, path) {
            Err(error) => Unread::of(error.kind()),
            Ok(found) if found.is_dir() => Unread::Folder,
            Ok(found) if found.is_file() => self.why_unopened(path),
            Ok(_) => Unread::Failed,
        }
    }

    fn why_unopened(&self, path: &str) -> Unread {
        match fs::open(self.rt, path) {
            Err(error) => Unread::of(error.kind()),
            Ok(_) => Unread::Failed,
        }
    }
}
