ghost use Rattle.base_device.specs.Tries.{IsTryOf};

use std::io;
use std::io::ErrorKind;

/// What a call comes to that does not wait.
#[derive(Clone, Copy, Debug, PartialEq, Eq)]
pub enum Tried {
    /// So many bytes were taken or handed out.
    Done(usize),
    /// None yet: it would have had to wait.
    Waits,
    /// It failed.
    Failed,
}

impl Tried {
    /// What a call of the system came to. One that would wait, or was interrupted, is to be tried again.
    pub fn of(call: io::Result<usize>) -> Tried
        ensures { IsTryOf call result }
    {
        match call {
            Ok(n) => Tried::Done(n),
            Err(error) => match error.kind() {
                ErrorKind::WouldBlock | ErrorKind::Interrupted => Tried::Waits,
                _ => Tried::Failed,
            },
        }
    }
}
