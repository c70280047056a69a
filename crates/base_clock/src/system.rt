//! The clocks of the system, and its wait, by `mio`.
ghost use Rattle.std.specs.Prelude.{◌≡◌, IfOk};
ghost use Rattle.base_clock.specs.Seen.{outside_clock};

use crate::clock::Clock;
use crate::reading::Reading;
use crate::times::millis_of;
use base_device::Failed;
use libc::types::timespec;
use mio::{Events, Poll, Registry};
use std::alloc::{AllocError, Global};
use std::net::Net;
use std::thread;
use std::time::Duration;

/// The most neighbours that one wait tells of. Those past it are told of by the next.
pub const MOST_EVENTS: usize = 64;

/// Linux, `clock_gettime`: the time since the machine was booted, with that in which it was suspended.
const CLOCK_BOOTTIME: i32 = 7;

/// How long a wait that the system refuses is slept instead, in milliseconds, so that an agent does not turn without rest.
const REFUSED: u64 = 20;

/// How long a wait is slept at most where nothing waits for sockets, in milliseconds: each of them is tried at the next turn.
const UNTOLD: u64 = 1000;

/// The clocks of the system, and the sockets that are registered with it.
#[derive(Drop)]
pub struct SystemClock<'a, R> {
    rt: &'a R,
    /// Where the system gives none, a wait is a sleep, of a second at most.
    poll: Option<Poll>,
    events: Events,
    failures: u64,
}

impl<'a, R: Net + std::time::Clock> SystemClock<'a, R> {
    /// The clocks of the system. The only error is out of memory.
    pub fn new(alloc: Global, rt: &'a R) -> Result<SystemClock<'a, R>, AllocError>
        ensures { IfOk result (λ clock. ⟦<SystemClock<'a, R> as Clock>⟧.seen clock ≡ outside_clock 0) }
    {
        Ok(SystemClock {
            rt,
            poll: Poll::new(rt).ok(),
            events: Events::with_capacity(alloc, MOST_EVENTS)?,
            failures: 0,
        })
    }

    /// Where the sockets are registered that a wait is to end for, each under the number of its neighbour as a token. `None`
    /// where the system gives nothing that waits for sockets: a neighbour is then to be tried at each turn.
    ///
    /// A neighbour is told of when it can go on again. One that was left before a call of it answered that it would have to
    /// wait is told of no more: it is to be tried at the next turn, without a wait before it.
    pub fn registry(&self) -> Option<&Registry> {
        match &self.poll {
            Some(poll) => Some(poll.registry()),
            None => None,
        }
    }

    // Both clocks.
    fn both(&self) -> Option<Reading> {
        let wall = self.rt.since_1970().ok()?;
        let elapsed = boottime()?;
        Some(Reading {
            wall: u64::try_from(wall.as_millis()).unwrap_or(u64::MAX),
            elapsed,
        })
    }
}

// The clock that counts suspensions, in milliseconds.
fn boottime() -> Option<u64> {
    let mut time = timespec {
        tv_sec: 0,
        tv_nsec: 0,
    };
    if libc::clock_gettime(CLOCK_BOOTTIME, &mut time) != 0 {
        return None;
    }
    millis_of(time.tv_sec, time.tv_nsec)
}

impl<'a, R: Net + std::time::Clock> Clock for SystemClock<'a, R> {
    ghost seen = { λ c. outside_clock c.failures };

    fn failures(&self) -> u64 {
        self.failures
    }

    fn read(&mut self) -> Result<Reading, Failed> {
        match self.both() {
            Some(reading) => Ok(reading),
            None => {
                self.failures = self.failures.saturating_add(1);
                Err(Failed)
            }
        }
    }

    fn wait(&mut self, millis: u64) {
        self.events.clear();
        let Some(poll) = &mut self.poll else {
            thread::sleep(self.rt, Duration::from_millis(millis.min(UNTOLD)));
            return;
        };
        let ended = poll.poll(&mut self.events, Some(Duration::from_millis(millis)));
        if ended.is_err() {
            thread::sleep(self.rt, Duration::from_millis(millis.min(REFUSED)));
        }
    }
}
