//! The room that reads are offered.
ghost use Rattle.std.specs.Prelude.{◌≡◌, IfOk, vec_len};
ghost use Rattle.base_device.specs.declared.limits.TheConstants.{MOST_ROOM};

use base_device::{MOST_ROOM, zeros};
use std::alloc::{AllocError, Global};
use std::fmt;

/// Room for reads, which one message after another uses: it is made for the first, of 65,536 bytes.
///
/// What a message left there is read by nobody, and is written over by the next.
#[derive(Drop)]
pub struct Room {
    bytes: Option<Vec<u8>>,
}

impl fmt::Debug for Room {
    /// Shows whether it is made, and none of its bytes: tokens and ids of leases stand in it, and they are secret.
    fn fmt<W: fmt::Write>(&self, f: &mut fmt::Formatter<W>) -> fmt::Result {
        f.debug_struct("Room")
            .field("is_made", &self.bytes.is_some())
            .finish()
    }
}

impl Room {
    /// Room that is not made yet. It takes no memory.
    pub fn new() -> Room {
        Room { bytes: None }
    }

    /// Takes the room out, and makes it where there is none.
    pub(crate) fn take(&mut self, alloc: Global) -> Result<Vec<u8>, AllocError>
        ensures { IfOk result (λ room. vec_len room ≡ MOST_ROOM) }
    {
        match self.bytes.take() {
            Some(bytes) if bytes.len() == MOST_ROOM => Ok(bytes),
            _ => zeros(alloc, MOST_ROOM),
        }
    }

    /// Puts the room back.
    pub(crate) fn put(&mut self, room: Vec<u8>) {
        self.bytes = Some(room);
    }
}
