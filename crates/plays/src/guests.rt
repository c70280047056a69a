//! Guests of a play, and the door that lets them in: what each does is said beforehand, and what it was sent is seen after it.
ghost use Rattle.std.specs.Prelude.{◌≤◌, ◌≡◌, length};

use agent_run::Doors;
use base_clients::{Door, Entrance, Talk};
use base_device::{InputFault, Tried};
use base_files::Inputs;
use base_moment::Text;
use play_cases::{CaseFault, CaseStep, number};
use state_secrets::{FileStamp, SecretFiles};
use std::alloc::{AllocError, Global};
use std::cell::Cell;
use std::collections::VecDeque;

/// A guest: the calls of its connection, which of them fails, and what it was sent since that was told.
#[derive(Drop)]
pub struct PlayedGuest<'a> {
    alloc: Global,
    pub name: &'a str,
    /// The number of the call that fails, counted from 0.
    fails: u64,
    calls: Cell<u64>,
    sent: Cell<Vec<u8>>,
}

impl<'a> PlayedGuest<'a> {
    /// One that has not come yet.
    pub fn new(alloc: Global, name: &'a str, fails: u64) -> PlayedGuest<'a> {
        PlayedGuest {
            alloc,
            name,
            fails,
            calls: Cell::new(0),
            sent: Cell::new(Vec::new(alloc)),
        }
    }

    /// How many calls its connection had.
    pub fn calls(&self) -> u64 {
        self.calls.get()
    }

    /// What it was sent since this was asked last.
    pub fn take_sent(&self) -> Vec<u8> {
        self.sent.replace(Vec::new(self.alloc))
    }

    // Counts a call, and says whether it fails.
    fn is_failing(&self) -> bool {
        let call = self.calls.get();
        self.calls.set(call.saturating_add(1));
        call == self.fails
    }

    fn keep(&self, piece: &[u8]) -> Result<(), AllocError> {
        let mut sent = self.take_sent();
        let kept = sent.extend_from_slice(piece);
        let _empty = self.sent.replace(sent);
        kept
    }
}

/// The guests of these steps, in the order in which they come; the call of the first of them with that number fails.
pub fn guests_of<'a>(
    alloc: Global,
    steps: &[CaseStep<'a>],
    fails: u64,
) -> Result<Vec<PlayedGuest<'a>>, CaseFault> {
    let mut guests = Vec::new(alloc);
    for step in steps {
        if let ["client" | "onlooker", name, ..] = step.words.as_slice() {
            let fails = if guests.is_empty() { fails } else { u64::MAX };
            guests.push(PlayedGuest::new(alloc, *name, fails))?;
        }
    }
    Ok(guests)
}

/// The guest of that name.
pub fn guest_named<'a>(
    guests: &'a [PlayedGuest<'a>],
    name: &str,
    unread: CaseFault,
) -> Result<&'a PlayedGuest<'a>, CaseFault> {
    for guest in guests {
        if guest.name == name {
            return Ok(guest);
        }
    }
    Err(unread)
}

/// A connection of a guest.
#[derive(Drop)]
pub struct Peer<'a> {
    guest: &'a PlayedGuest<'a>,
    /// What it sends, in pieces of so many bytes, and how much of that it has sent.
    text: Vec<u8>,
    piece: usize,
    at: usize,
    /// How many bytes it takes at a time.
    takes: usize,
}

impl<'a> Peer<'a> {
    /// One that sends this text, and takes what it is sent, as these words have it: at once, where they say nothing.
    pub fn new(
        guest: &'a PlayedGuest<'a>,
        text: Vec<u8>,
        words: &[&str],
        unread: CaseFault,
    ) -> Result<Peer<'a>, CaseFault> {
        let (piece, takes) = match words {
            [] => (4096, 4096),
            ["piece", piece] => (number(piece, unread)? as usize, 4096),
            ["takes", takes] => (4096, number(takes, unread)? as usize),
            _ => return Err(unread),
        };
        Ok(Peer {
            guest,
            text,
            piece,
            at: 0,
            takes,
        })
    }

    fn get_text(&mut self, buf: &mut [u8]) -> usize
        ensures bound { result ≤ length buf.new }
        ensures room { length buf.new ≡ length buf.old }
    {
        let left = self.text.get(self.at..).unwrap_or(&[]);
        let count = buf.len().min(self.piece).min(left.len());
        let (piece, _) = left.split_at(count);
        buf[..count].copy_from_slice(piece);
        self.at = self.at.saturating_add(count);
        count
    }
}

impl<'a> Talk for Peer<'a> {
    fn get(&mut self, buf: &mut [u8]) -> Tried {
        if self.guest.is_failing() {
            return Tried::Failed;
        }
        if self.at >= self.text.len() {
            return Tried::Waits;
        }
        Tried::Done(self.get_text(buf))
    }

    fn give(&mut self, piece: &[u8]) -> Tried {
        if self.guest.is_failing() {
            return Tried::Failed;
        }
        let count = piece.len().min(self.takes);
        if count == 0 {
            return Tried::Waits;
        }
        match self.guest.keep(&piece[..count]) {
            Ok(()) => Tried::Done(count),
            Err(AllocError) => Tried::Failed,
        }
    }
}

/// A door with some guests before it, who come in in their order.
#[derive(Drop)]
pub struct PeerDoor<'a> {
    peers: VecDeque<Peer<'a>>,
}

impl<'a> PeerDoor<'a> {
    /// One with nobody before it.
    pub fn new(alloc: Global) -> PeerDoor<'a> {
        PeerDoor {
            peers: VecDeque::new(alloc),
        }
    }

    /// One more comes to it.
    pub fn bring(&mut self, peer: Peer<'a>) -> Result<(), CaseFault> {
        self.peers.push_back(peer)?;
        Ok(())
    }
}

impl<'a> Door<Peer<'a>> for PeerDoor<'a> {
    fn accept(&mut self) -> Option<Peer<'a>> {
        self.peers.pop_front()
    }
}

/// What opens the doors of a play: nobody is before them yet. How many descriptors may be open at once is not known, nor what is mounted.
#[derive(Debug, Drop)]
pub struct PeerDoors;

impl<'a> Doors<Peer<'a>, PeerDoor<'a>> for PeerDoors {
    fn open(
        &mut self,
        alloc: Global,
        _entrance: Entrance<'_>,
        _number: u32,
    ) -> Result<PeerDoor<'a>, Option<Text>> {
        Ok(PeerDoor::new(alloc))
    }
}

impl Inputs for PeerDoors {
    ghost use Rattle.std.specs.Prelude.{None};

    ghost bytes_at = { λ _ _. None };

    fn read(&mut self, _alloc: Global, _path: &str, _max: usize) -> Result<Text, InputFault> {
        Err(InputFault::ReadFailed)
    }
}

impl SecretFiles for PeerDoors {
    ghost use Rattle.std.specs.Prelude.{None};

    ghost calls = { λ _. None };

    fn stamp(&mut self, _path: &[u8]) -> Option<FileStamp> {
        None
    }

    fn open(&mut self, _alloc: Global, _path: &[u8], _max: usize) -> Result<Text, InputFault> {
        Err(InputFault::ReadFailed)
    }
}
