//! Connecting to a UNIX socket. One whose queue is full takes no connection, and says so at once.
ghost use Rattle.std.specs.Prelude.{◌≡◌, ◌-◌, min};
ghost use Rattle.std.specs.Duration.{as_nanos};

use mio::net::UnixStream;
use mio::{Events, Poll};
use std::alloc::{AllocError, Global};
use std::io;
use std::io::ErrorKind;
use std::net::Net;
use std::time::Duration;

/// Connects to the UNIX socket at that path. While its queue is full it is tried again, with pauses that take so long together;
/// after the last of them it may still be full (`WouldBlock`). The only error of its own is out of memory.
pub(crate) fn connect_within<R: Net>(
    rt: &R,
    alloc: Global,
    path: &str,
    longest: Duration,
) -> Result<io::Result<UnixStream>, AllocError> {
    let mut bell = Bell::new(rt, alloc)?;
    let mut left = longest;
    let mut opened = UnixStream::connect(rt, path);
    while is_full(&opened) && !left.is_zero() {
        bell.rest(take_pause(&mut left));
        opened = UnixStream::connect(rt, path);
    }
    Ok(opened)
}

/// Whether there is no connection since the queue of the socket is full.
fn is_full(opened: &io::Result<UnixStream>) -> bool {
    matches!(opened, Err(error) if error.kind() == ErrorKind::WouldBlock)
}

/// Takes a pause of 10 ms from the time that is left, or all of it where that is less. No clock is read: a pause counts as a
/// whole, also if it ends early.
fn take_pause(left: &mut Duration) -> Duration
    ensures pause { as_nanos result ≡ min (as_nanos left.old) 10_000_000 }
    ensures left { as_nanos left.new ≡ as_nanos left.old - as_nanos result }
{
    let pause = (*left).min(Duration::from_millis(10));
    *left = left.saturating_sub(pause);
    pause
}

/// What rings at the end of a pause.
#[derive(Drop)]
struct Bell {
    poll: Option<Poll>,
    events: Events,
}

impl Bell {
    /// Where the system gives no poll, a pause ends at once.
    fn new<R: Net>(rt: &R, alloc: Global) -> Result<Bell, AllocError> {
        Ok(Bell {
            poll: Poll::new(rt).ok(),
            events: Events::with_capacity(alloc, 1)?,
        })
    }

    /// Waits so long. An error ends it at once.
    fn rest(&mut self, pause: Duration) {
        if let Some(poll) = &mut self.poll {
            let _ended = poll.poll(&mut self.events, Some(pause));
        }
    }
}
