//! What has still to be written of an answer.
ghost use Rattle.std.specs.Prelude.{◌≡◌, ◌==◌, ◌≤◌, drop, length, take};
ghost use Rattle.base_clients.specs.Guests.{AddsFront};

use crate::fed::Fed;
use crate::limits::MOST_PIECE;
use std::alloc::AllocError;
use std::marker::Model;

/// What has still to be written of an answer, which contracts see as a list of bytes.
///
/// What is written is only counted, and nothing is moved: so a call takes the same time, however much is left, and one who
/// reads a long answer holds up nobody else.
#[derive(Debug, Drop)]
pub struct Left {
    bytes: Vec<u8>,
    /// So many of the bytes are written, from the first on.
    written: usize,
}

impl Model for Left {
    ghost use Rattle.std.specs.Prelude.{List, ◌≤◌, ℕ, drop, length};

    ghost Value = { List ℕ };

    ghost view = { λ l. drop l.written l.bytes.items };

    ghost invariant = { λ l. l.written ≤ length l.bytes.items };
}

impl Left {
    /// All of an answer. It takes no memory.
    pub(crate) fn of(answer: Vec<u8>) -> Left
        ensures { result ≡ answer.items }
    {
        Left {
            bytes: answer,
            written: 0,
        }
    }

    /// Whether all is written.
    pub(crate) fn is_empty(&self) -> bool
        ensures { result ≡ (length self.now == 0) }
    {
        self.written == self.bytes.len()
    }

    /// The front of it, as much as one call is offered.
    pub(crate) fn piece(&self) -> &[u8]
        ensures { result.now ≡ take 4096 self.now }
    {
        piece(&self.bytes[self.written..])
    }

    /// Takes so many bytes off the front: they are written.
    pub(crate) fn take(&mut self, count: usize)
        requires { count ≤ length self.old }
        ensures { self.new ≡ drop count self.old }
    {
        self.written += count;
    }

    /// Adds what one call writes of these bytes, where nothing is left. The only error is out of memory.
    pub(crate) fn add_front(&mut self, bytes: &[u8]) -> Result<Fed, AllocError>
        ensures { AddsFront bytes.now result self.old self.new }
    {
        if !self.is_empty() {
            return Ok(Fed::Full);
        }
        let front = piece(bytes);
        self.bytes.clear();
        self.written = 0;
        self.bytes.reserve(front.len())?;
        self.bytes.extend_from_slice(front).unwrap();
        Ok(Fed::Taken(front.len()))
    }
}

/// The front of these bytes, as much of it as one call is offered.
fn piece(bytes: &[u8]) -> &[u8]
    ensures { result.now ≡ take 4096 bytes.now }
{
    if bytes.len() <= MOST_PIECE {
        bytes
    } else {
        &bytes[..MOST_PIECE]
    }
}
