//! FILE, as a start without a ledger finds it.
ghost use Rattle.std.specs.Prelude.{◌≡◌};
ghost use Rattle.agent_system.specs.Whole.{folder_of};

use base_device::{InputFault, Sink};
use base_files::Inputs;
use base_moment::Text;
use program_report::{Exit, PROGRAM};
use program_words::SystemFiles;
use std::alloc::{AllocError, Global};
use std::fs::{self, Metadata};
use std::io::ErrorKind;
use std::os::unix::fs::MetadataExt;
use std::rt::Files;

/// The inventory that is served, by its path: it is looked at before it is read, and what helps people is told where it is refused.
pub trait ServedFile: Inputs {
    /// Why the file at a path is refused for what it is, in a line: it is no regular file, or others may read or write it. `None` where it
    /// is not there: reading it tells why. The only error is lack of memory.
    fn mode_fault(&self, alloc: Global, path: &str) -> Result<Option<String>, AllocError>;

    /// Tells, after the line of a fault, what helps people besides.
    fn advise<E: Sink>(&self, exit: Exit, path: &str, errors: &mut E);
}

/// The inventory on the disks of the system, of which nothing is known before it is read.
#[derive(Debug, Drop)]
pub struct SystemFile<'a, R> {
    rt: &'a R,
    files: SystemFiles<'a, R>,
}

impl<'a, R: Files + AllocGlobal> SystemFile<'a, R> {
    /// It was not read yet.
    pub fn new(rt: &'a R) -> SystemFile<'a, R> {
        SystemFile {
            rt,
            files: SystemFiles::new(rt),
        }
    }
}

impl<'a, R: Files + AllocGlobal> Inputs for SystemFile<'a, R> {
    ghost use Rattle.std.specs.Prelude.{None};

    ghost bytes_at = { λ _ _. None };

    fn read(&mut self, alloc: Global, path: &str, max: usize) -> Result<Text, InputFault> {
        self.files.read(alloc, path, max)
    }
}

impl<'a, R: Files + AllocGlobal> ServedFile for SystemFile<'a, R> {
    fn mode_fault(&self, alloc: Global, path: &str) -> Result<Option<String>, AllocError> {
        match fs::metadata(self.rt, path) {
            Ok(found) => fault_of(alloc, path, &found),
            Err(error) if error.kind() == ErrorKind::OutOfMemory => Err(AllocError),
            Err(_) => Ok(None),
        }
    }

    fn advise<E: Sink>(&self, exit: Exit, path: &str, errors: &mut E) {
        self.files.advise(PROGRAM, exit, path, errors);
    }
}

/// What stands before a path that starts at the folder of a file: the file's own path up to its last slash.
#[tactic(auto, using(crate::proofs::Whole::folder_whole))]
pub fn folder_of(file: &str) -> &str
    ensures { result.now ≡ folder_of file.now }
{
    match file.rfind('/') {
        None => "",
        Some(end) => &file[..end + 1],
    }
}

/// What is told of a file that is no regular one, or that others may read or write. The only error is lack of memory.
fn fault_of(alloc: Global, file: &str, found: &Metadata) -> Result<Option<String>, AllocError> {
    if !found.is_file() && !found.is_dir() {
        let line = format!(in alloc; "{PROGRAM}: {file}: is not a regular file; name one\n")?;
        return Ok(Some(line));
    }
    if found.is_file() && found.mode() & 0o006 != 0 {
        let mode = found.mode() & 0o7777;
        let line = format!(in alloc;
            "{PROGRAM}: {file}: others may read or write this file (mode {mode:04o}); chmod o-rwx it: it holds secrets\n"
        )?;
        return Ok(Some(line));
    }
    Ok(None)
}
