//! Connections of a play, in the time of its clock.
use base_device::Tried;
use std::alloc::Global;
use std::cell::Cell;
use vault_lanes::{ConnectReason, Line, Wires};

/// What a peer does with one connection. Moments are milliseconds from the play's begin.
#[derive(Clone, Copy, Debug)]
pub(crate) struct Part {
    /// When it is there; before that it takes nothing.
    pub(crate) accepts: u64,
    /// How many bytes it takes in each millisecond, and how many until it breaks.
    pub(crate) takes: usize,
    pub(crate) breaks: usize,
    /// The bytes that it wants before it answers.
    pub(crate) request: &'static [u8],
    /// When its first piece comes, and how long after one piece the next.
    pub(crate) first: u64,
    pub(crate) pause: u64,
    /// What it sends, in pieces of so many bytes.
    pub(crate) text: &'static [u8],
    pub(crate) piece: usize,
    /// What it does after the last piece.
    pub(crate) end: End,
}

/// How a connection ends.
#[derive(Clone, Copy, Debug, PartialEq, Eq)]
pub(crate) enum End {
    /// The peer closes it.
    Closes,
    /// It fails.
    Fails,
    /// Nothing comes.
    Stays,
}

/// A connection of the play.
#[derive(Drop)]
pub(crate) struct Actor<'a> {
    part: Part,
    clock: &'a Cell<u64>,
    /// What it took.
    taken: Vec<u8>,
    sent: usize,
}

impl<'a> Actor<'a> {
    /// How many bytes it may have taken by now.
    fn may_have(&self) -> usize {
        let now = self.clock.get();
        if now < self.part.accepts {
            return 0;
        }
        let millis = (now - self.part.accepts).saturating_add(1);
        self.part.takes.saturating_mul(millis as usize)
    }
}

impl<'a> Line for Actor<'a> {
    fn give(&mut self, piece: &[u8]) -> Tried {
        let unbroken = self.part.breaks.saturating_sub(self.taken.len());
        if unbroken == 0 {
            return Tried::Failed;
        }
        let room = self.may_have().saturating_sub(self.taken.len());
        let n = piece.len().min(room).min(unbroken);
        if n == 0 {
            return Tried::Waits;
        }
        if self.taken.extend_from_slice(&piece[..n]).is_err() {
            return Tried::Failed;
        }
        Tried::Done(n)
    }

    fn get(&mut self, buf: &mut [u8]) -> Tried {
        // Nothing is answered unless the request is there, whole and once.
        if self.taken.as_slice() != self.part.request {
            return Tried::Failed;
        }
        let pieces = self.sent / self.part.piece.max(1);
        let pauses = self.part.pause.saturating_mul(pieces as u64);
        if self.clock.get() < self.part.first.saturating_add(pauses) {
            return Tried::Waits;
        }
        let left = self.part.text.len().saturating_sub(self.sent);
        if left == 0 {
            return match self.part.end {
                End::Closes => Tried::Done(0),
                End::Fails => Tried::Failed,
                End::Stays => Tried::Waits,
            };
        }
        let n = left.min(self.part.piece.max(1)).min(buf.len());
        for at in 0..n {
            buf[at] = self.part.text[self.sent + at];
        }
        self.sent += n;
        Tried::Done(n)
    }

    fn reason(&self) -> ConnectReason {
        ConnectReason::Other
    }

    fn is_restless(&self) -> bool {
        false
    }
}

/// The play: a part for each connection, in the order in which they are made, and one for more.
#[derive(Drop)]
pub(crate) struct Wired<'a> {
    pub(crate) alloc: Global,
    pub(crate) parts: &'a [Part],
    pub(crate) otherwise: Part,
    pub(crate) clock: &'a Cell<u64>,
    pub(crate) dials: usize,
}

impl<'a> Wires for Wired<'a> {
    type Line = Actor<'a>;

    fn port(&self) -> u16 {
        8200
    }

    fn dial(&mut self, _index: u32) -> Actor<'a> {
        let part = self.parts.get(self.dials).copied();
        self.dials = self.dials.saturating_add(1);
        Actor {
            part: part.unwrap_or(self.otherwise),
            clock: self.clock,
            taken: Vec::new(self.alloc),
            sent: 0,
        }
    }
}
