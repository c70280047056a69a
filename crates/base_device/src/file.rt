ghost use Rattle.std.specs.IoError.{error_kind};
ghost use Rattle.std.specs.Prelude.{◌≡◌, ◌≤◌, Err, IfErr, IfOk, IfSome, length};
ghost use Rattle.base_device.specs.Seen.{no_output};
ghost use Rattle.base_device.specs.Whole.{IsFile, fault_of_open, file_input};

use crate::{Device, Failed, InputFault, Source, read_all};
use base_moment::Text;
use std::alloc::Global;
use std::io::Read;
use std::rt::Files;
use std::{fs, io};

/// The bytes of the file at `path`, where it has at most `max`: [`read_opened`] of what opening it gave.
pub fn read_file<R: Files + AllocGlobal>(rt: &R, path: &str, max: usize) -> Result<Text, InputFault>
    ensures short { IfOk result (λ text. length text ≤ max) }
{
    read_opened(rt.alloc(), fs::open(rt, path), max)
}

/// The bytes of a file, where it could be opened and has at most `max`, by [`read_all`].
///
/// `ReadFailed`: it could not be opened, as one that isn't there or a folder, or a read failed. `TooLong`: it has more than
/// `max` bytes, or 4,096 reads did not come to its end. `OutOfMemory`: opening or reading it was refused memory.
pub fn read_opened<F: Read + Drop>(
    alloc: Global,
    opened: io::Result<F>,
    max: usize,
) -> Result<Text, InputFault>
    ensures unopened { IfErr opened (λ error. result ≡ Err (fault_of_open (error_kind error))) }
    ensures short { IfOk result (λ text. length text ≤ max) }

    // The file's own bytes, where they are known.
    ensures read { IfOk opened (λ file. IfSome (F.remaining file) (λ bytes. IsFile max bytes result)) }
{
    match opened {
        Ok(file) => read_all(alloc, &mut OpenFile::new(file), max),
        Err(error) if error.kind() == io::ErrorKind::OutOfMemory => Err(InputFault::OutOfMemory),
        Err(_) => Err(InputFault::ReadFailed),
    }
}

/// A file that is read, with the count of its reads and of those that failed.
#[derive(Drop)]
struct OpenFile<F> {
    file: F,
    reads: u64,
    failures: u64,
}

impl<F> OpenFile<F> {
    /// No read was made yet.
    fn new(file: F) -> OpenFile<F>
        ensures file { result.file ≡ file }
        ensures reads { result.reads ≡ 0 }
        ensures failures { result.failures ≡ 0 }
    {
        OpenFile {
            file,
            reads: 0,
            failures: 0,
        }
    }
}

impl<F: Read> Device for OpenFile<F> {
    ghost seen = { λ f. record { input = file_input (F.remaining f.file) f.reads; output = no_output; failed_calls = f.failures } };

    fn failures(&self) -> u64 {
        self.failures
    }
}

impl<F: Read> Source for OpenFile<F> {
    fn read_some(&mut self, buf: &mut [u8]) -> Result<usize, Failed> {
        self.reads = self.reads.saturating_add(1);
        match self.file.read(buf) {
            Ok(n) => Ok(n),
            Err(_) => {
                self.failures = self.failures.saturating_add(1);
                Err(Failed)
            }
        }
    }
}
