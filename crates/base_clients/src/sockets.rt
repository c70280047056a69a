//! Listeners and connections of the system, which tells by `mio` when they can go on.
use crate::door::Door;
use crate::entrance::Entrance;
use crate::talk::Talk;
use base_device::Tried;
use mio::net::{TcpListener, TcpStream, UnixListener, UnixStream};
use mio::{Interest, Registry, Token};
use std::fs::{Files, Permissions};
use std::io::{ErrorKind, Read, Write};
use std::net::Net;
use std::os::unix::fs::{FileTypeExt, PermissionsExt};
use std::{fs, io};

/// Who may come in at the file of a UNIX socket: its user and its group.
const MODE: u32 = 0o660;

/// A listener of the system, and where its connections are registered.
#[derive(Drop)]
pub struct SocketDoor {
    listener: Listener,
    registry: Option<Registry>,
    token: Token,
}

#[derive(Drop)]
enum Listener {
    Tcp(TcpListener),
    Unix(UnixListener),
}

impl SocketDoor {
    /// Listens there. The door and all who come in are registered under this number, so that the wait of whoever owns the
    /// registry ends for them; one whom the system does not register is not let in. Without a registry nobody tells of them: they go
    /// on whenever a turn tries them.
    ///
    /// The file of a UNIX socket is for its user and its group (mode 0660), once it is made: keep it in a folder that nobody
    /// else may enter. Where a socket is there already at which nobody listens, it is removed.
    ///
    /// # Errors
    ///
    /// Those of the system, also where it does not register the door. `AddrInUse` where somebody listens there, or where the path leads
    /// to what is no socket.
    pub fn at<R: Files + Net>(
        rt: &R,
        entrance: Entrance<'_>,
        registry: Option<Registry>,
        number: u32,
    ) -> io::Result<SocketDoor> {
        let listener = match entrance {
            Entrance::Address(address) => Listener::Tcp(TcpListener::bind(rt, address)?),
            Entrance::Path(path) => Listener::Unix(listen_at(rt, path)?),
        };
        let mut door = SocketDoor {
            listener,
            registry,
            token: Token(number as usize),
        };
        door.register_itself()?;
        Ok(door)
    }

    /// Where it listens, at a port that the system may have chosen; `None` at a UNIX socket.
    pub fn port(&self) -> Option<u16> {
        match &self.listener {
            Listener::Tcp(listener) => Some(listener.local_addr().ok()?.port()),
            Listener::Unix(_) => None,
        }
    }

    /// Has somebody told when a connection is there.
    fn register_itself(&mut self) -> io::Result<()> {
        let Some(registry) = &self.registry else {
            return Ok(());
        };
        match &mut self.listener {
            Listener::Tcp(listener) => registry.register(listener, self.token, Interest::READABLE),
            Listener::Unix(listener) => registry.register(listener, self.token, Interest::READABLE),
        }
    }

    /// Has somebody told when this connection can go on.
    fn register(&self, talk: &mut SocketTalk) -> io::Result<()> {
        let Some(registry) = &self.registry else {
            return Ok(());
        };
        let both = Interest::READABLE | Interest::WRITABLE;
        match talk {
            SocketTalk::Tcp(stream) => registry.register(stream, self.token, both),
            SocketTalk::Unix(stream) => registry.register(stream, self.token, both),
        }
    }

    /// The next connection, where the system gives one.
    fn next(&self) -> io::Result<SocketTalk> {
        match &self.listener {
            Listener::Tcp(listener) => Ok(SocketTalk::Tcp(listener.accept()?.0)),
            Listener::Unix(listener) => Ok(SocketTalk::Unix(listener.accept()?.0)),
        }
    }
}

impl Door<SocketTalk> for SocketDoor {
    fn accept(&mut self) -> Option<SocketTalk> {
        let mut talk = self.next().ok()?;
        self.register(&mut talk).ok()?;
        Some(talk)
    }
}

/// Listens at a path, for its user and its group.
fn listen_at<R: Files + Net>(rt: &R, path: &str) -> io::Result<UnixListener> {
    let listener = match UnixListener::bind(rt, path) {
        Err(error) if error.kind() == ErrorKind::AddrInUse && is_left(rt, path) => {
            fs::remove_file(rt, path)?;
            UnixListener::bind(rt, path)?
        }
        bound => bound?,
    };
    fs::set_permissions(rt, path, Permissions::from_mode(MODE))?;
    Ok(listener)
}

/// Whether a socket is there at which nobody listens any more.
fn is_left<R: Files + Net>(rt: &R, path: &str) -> bool {
    let Ok(metadata) = fs::symlink_metadata(rt, path) else {
        return false;
    };
    if !metadata.file_type().is_socket() {
        return false;
    }
    match UnixStream::connect(rt, path) {
        Ok(_somebody) => false,
        Err(error) => error.kind() == ErrorKind::ConnectionRefused,
    }
}

/// A connection of the system.
#[derive(Drop)]
pub enum SocketTalk {
    Tcp(TcpStream),
    Unix(UnixStream),
}

impl Talk for SocketTalk {
    fn get(&mut self, buf: &mut [u8]) -> Tried {
        match self {
            SocketTalk::Tcp(stream) => Tried::of(stream.read(buf)),
            SocketTalk::Unix(stream) => Tried::of(stream.read(buf)),
        }
    }

    fn give(&mut self, piece: &[u8]) -> Tried {
        let given = match self {
            SocketTalk::Tcp(stream) => stream.write(piece),
            SocketTalk::Unix(stream) => stream.write(piece),
        };
        match Tried::of(given) {
            // A connection that takes nothing has failed.
            Tried::Done(0) if !piece.is_empty() => Tried::Failed,
            other => other,
        }
    }
}
