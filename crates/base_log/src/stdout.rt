//! Standard output, written without waiting for who reads it.
ghost use Rattle.std.specs.Prelude.{◌≡◌, ◌≤◌, IfOk, length};
ghost use Rattle.base_device.specs.Failures.{one_more};
ghost use Rattle.base_device.specs.declared.tried.Tried.TheVariants.{Failed};

use crate::sink::LogSink;
use base_device::Tried;
use std::fs::{File, Files, OpenOptions};
use std::io::{IsTerminal, Stdout};
use std::os::fd::{AsFd, AsRawFd, OwnedFd};
use std::os::unix::fs::FileTypeExt;
use std::os::unix::net::UnixStream;
use std::{fs, io};

/// What standard output leads to, by a name under which it can be opened again.
const OUTPUT: &str = "/proc/self/fd/1";

/// Standard output as a sink: it takes what its reader has room for, and waits for nobody.
///
/// A pipe or a terminal is opened once more, and only that opening is told not to wait: other processes that write there still
/// wait, as they did. Where it cannot be opened, and for a socket, all who share the opening are told so, since there is no other
/// way. A file has no reader; it takes what the disk has room for, as fast as the disk does.
#[derive(Drop)]
pub struct StandardOutput {
    /// `None` where it was closed, so that each try fails.
    output: Option<OwnedFd>,
    tries: u64,
    failures: u64,
}

impl StandardOutput {
    /// Standard output, of which no try was made. It is to be called before any file is opened: where a program is started with
    /// standard output closed, the first file takes its number.
    pub fn new<R: Files<File = File>>(rt: &R, output: Stdout) -> StandardOutput
        ensures tries { ⟦<StandardOutput as LogSink>⟧.tries result ≡ 0 }
        ensures failures { ⟦<StandardOutput as LogSink>⟧.failures result ≡ 0 }
    {
        StandardOutput {
            output: opened(rt, output).ok(),
            tries: 0,
            failures: 0,
        }
    }

    // Counts one failure.
    fn fail(&mut self) -> Tried
        ensures result { result ≡ Failed }
        ensures tries { self.new.tries ≡ self.old.tries }
        ensures failures { self.new.failures ≡ one_more self.old.failures }
    {
        self.failures = self.failures.saturating_add(1);
        Tried::Failed
    }
}

// Standard output, told not to wait.
fn opened<R: Files<File = File>>(rt: &R, output: Stdout) -> io::Result<OwnedFd> {
    let shared = output.as_fd().try_clone_to_owned()?;
    let fd = if is_stream(rt, output) {
        opened_again(rt).unwrap_or(shared)
    } else {
        shared
    };
    let stream = UnixStream::from(fd);
    stream.set_nonblocking(true)?;
    Ok(OwnedFd::from(stream))
}

// Whether it is a terminal or a pipe. A file is not opened again, since each opening has a place of its own to write at.
fn is_stream<R: Files<File = File>>(rt: &R, output: Stdout) -> bool {
    output.is_terminal()
        || match fs::metadata(rt, OUTPUT) {
            Ok(found) => found.file_type().is_fifo(),
            Err(_) => false,
        }
}

// An opening of its own. To open a pipe for writing alone would wait for a reader, and so it has one until it is opened.
fn opened_again<R: Files<File = File>>(rt: &R) -> io::Result<OwnedFd> {
    let _reader = OpenOptions::new().read(true).write(true).open(rt, OUTPUT)?;
    let writer = OpenOptions::new().write(true).open(rt, OUTPUT)?;
    Ok(OwnedFd::from(writer))
}

// One write, whatever the output leads to. It fails where nobody reads any more; the program's start has the signal ignored.
fn written(output: &OwnedFd, piece: &[u8]) -> io::Result<usize>
    ensures { IfOk result (λ n. n ≤ length piece.now) }
{
    match usize::try_from(libc::write(output.as_raw_fd(), piece)) {
        Ok(count) => Ok(count),
        Err(_) => Err(io::Error::from_raw_os_error(os::errno())),
    }
}

impl LogSink for StandardOutput {
    ghost tries = { λ s. s.tries };

    ghost failures = { λ s. s.failures };

    fn tries(&self) -> u64 {
        self.tries
    }

    fn failures(&self) -> u64 {
        self.failures
    }

    fn give(&mut self, piece: &[u8]) -> Tried {
        self.tries = self.tries.saturating_add(1);
        let tried = match &self.output {
            Some(output) => Tried::of(written(output, piece)),
            None => Tried::Failed,
        };
        match tried {
            Tried::Done(n) if n > 0 || piece.is_empty() => Tried::Done(n),
            Tried::Waits => Tried::Waits,
            _ => self.fail(),
        }
    }
}
