//! The connection of the system.
use crate::call::AgentCall;
use crate::limits::PATIENCE;
use crate::unreached::Unreached;
use base_device::Counted;
use mio::net;
use std::io::{self, ErrorKind};
use std::net::Net;
use std::os::unix::net::UnixStream;
use std::rt::Clock;
use std::thread;
use std::time::Duration;

/// How long a connect to a socket whose queue is full rests before it is tried again, in milliseconds.
const PAUSE: u64 = 10;

const MOST_TRIES: u64 = PATIENCE * 1000 / PAUSE;

/// Connects to the control socket of a call. A socket whose queue is full is tried again, for [`PATIENCE`] seconds; each write and
/// read may then take as long, but where an answer goes on a read waits until something comes.
///
/// # Errors
///
/// Why there is no connection.
pub fn connect<R: Net + Clock>(
    rt: &R,
    call: &AgentCall<'_>,
) -> Result<Counted<UnixStream>, Unreached> {
    match open(rt, call) {
        Ok(stream) => Ok(Counted::new(stream)),
        Err(error) => Err(Unreached::of(error.kind())),
    }
}

/// A connection whose writes have a limit, and whose reads have one unless an answer goes on.
fn open<R: Net + Clock>(rt: &R, call: &AgentCall<'_>) -> io::Result<UnixStream> {
    let stream = UnixStream::from(connect_within(rt, call.socket)?);
    let longest = Some(Duration::from_secs(PATIENCE));
    let longest_read = if call.ask.is_follow() { None } else { longest };
    stream.set_nonblocking(false)?;
    stream.set_read_timeout(longest_read)?;
    stream.set_write_timeout(longest)?;
    Ok(stream)
}

/// A connection that does not wait. `TimedOut`: the socket's queue stayed full.
fn connect_within<R: Net + Clock>(rt: &R, path: &str) -> io::Result<net::UnixStream> {
    for _ in 0..MOST_TRIES {
        match net::UnixStream::connect(rt, path) {
            Err(error) if error.kind() == ErrorKind::WouldBlock => {
                thread::sleep(rt, Duration::from_millis(PAUSE))
            }
            opened => return opened,
        }
    }
    Err(io::Error::from(ErrorKind::TimedOut))
}
