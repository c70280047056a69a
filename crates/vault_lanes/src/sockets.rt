//! Connections of the system, which tells by `mio` when they can go on.
ghost use Rattle.std.specs.Prelude.{◌≡◌, [], max, min};
ghost use Rattle.vault_exchange.specs.Sockets.{port_of};
ghost use Rattle.base_device.specs.Places.{IsHere};

use crate::lanes::Lanes;
use crate::line::{Line, Wires};
use crate::reason::ConnectReason;
use crate::running::LanesOver;
use base_device::{Place, Tried};
use mio::net::{TcpStream, UnixStream};
use mio::{Interest, Registry, Token};
use std::alloc::Global;
use std::io;
use std::io::{ErrorKind, Read, Write};
use std::net::{IpAddr, Ipv4Addr, Net, SocketAddr};

/// Lanes to the broker that listens at a port of 127.0.0.1 or on a UNIX socket, over plain HTTP, with a connection for each
/// request.
pub type SocketLanes<'a, R> = LanesOver<SocketWires<'a, R>>;

impl<'a, R: Net> LanesOver<SocketWires<'a, R>> {
    /// So many lanes, at most 32 and at least one, to the broker that listens there, with time-outs of so many seconds. Nothing is
    /// out, and it connects to nothing yet. It takes no memory.
    ///
    /// Whoever drives them waits for what is registered there, and has them go on then ([`Lanes::go_on`]). Each connection is
    /// registered under the index of its request. Without a registry nothing tells of them, and they are due every 20 ms.
    pub fn over_registry(
        alloc: Global,
        rt: &'a R,
        place: Place<'a>,
        seconds: u32,
        width: u32,
        registry: Option<Registry>,
    ) -> SocketLanes<'a, R>
        ensures none { ⟦<LanesOver<SocketWires<'a, R>> as Lanes>⟧.out result ≡ [] }
        ensures width { ⟦<LanesOver<SocketWires<'a, R>> as Lanes>⟧.width result ≡ max 1 (min width 32) }
        ensures seconds { ⟦<LanesOver<SocketWires<'a, R>> as Lanes>⟧.seconds result ≡ seconds }
        ensures port { ⟦<LanesOver<SocketWires<'a, R>> as Lanes>⟧.host_port result ≡ port_of place.entry }
    {
        let wires = SocketWires {
            rt,
            place,
            registry,
        };
        LanesOver::new(alloc, wires, seconds, width)
    }
}

/// What makes connections to the broker that listens at a place.
#[derive(Drop)]
pub struct SocketWires<'a, R> {
    rt: &'a R,
    place: Place<'a>,
    /// Where they are registered.
    registry: Option<Registry>,
}

impl<'a, R> SocketWires<'a, R> {
    /// Has the connection told of under this index.
    fn register(&self, stream: &mut Stream, index: u32) -> bool {
        let Some(registry) = &self.registry else {
            return false;
        };
        let token = Token(index as usize);
        let both = Interest::READABLE | Interest::WRITABLE;
        match stream {
            Stream::Tcp(stream) => registry.register(stream, token, both).is_ok(),
            Stream::Unix(stream) => registry.register(stream, token, both).is_ok(),
            Stream::Full | Stream::Absent(_) => false,
        }
    }
}

impl<'a, R: Net> Wires for SocketWires<'a, R> {
    type Line = SocketLine<'a, R>;

    ghost host_port = { λ w. port_of w.place };

    fn port(&self) -> u16 {
        match self.place {
            Place::Port(port) => port,
            Place::Path(_) => 8200,
        }
    }

    fn dial(&mut self, index: u32) -> SocketLine<'a, R> {
        let mut line = SocketLine::to(self.rt, self.place);
        line.is_restless = !self.register(&mut line.stream, index);
        line
    }
}

/// A connection of the system, or none.
#[derive(Drop)]
enum Stream {
    Tcp(TcpStream),
    Unix(UnixStream),
    /// The queue of a UNIX socket was full: it is tried again at the next call.
    Full,
    /// There is none, for this reason.
    Absent(ConnectReason),
}

/// A connection to the broker that listens at a place.
#[derive(Drop)]
pub struct SocketLine<'a, R> {
    rt: &'a R,
    place: Place<'a>,
    stream: Stream,
    /// Why it last took nothing, where that failed.
    reason: ConnectReason,
    is_restless: bool,
}

impl<'a, R: Net> SocketLine<'a, R> {
    /// Begins to connect.
    fn to(rt: &'a R, place: Place<'a>) -> SocketLine<'a, R>
        ensures { result.place ≡ place.entry }
    {
        SocketLine {
            rt,
            place,
            stream: connect(rt, place),
            reason: ConnectReason::Other,
            is_restless: false,
        }
    }

    /// Tries again where the queue was full.
    fn again(&mut self)
        ensures { self.new.place ≡ self.old.place }
    {
        if matches!(self.stream, Stream::Full) {
            self.stream = connect(self.rt, self.place);
        }
    }
}

impl<'a, R: Net> Line for SocketLine<'a, R> {
    ghost restless = { λ line. line.is_restless };

    ghost reason = { λ line. line.reason };

    fn reason(&self) -> ConnectReason {
        self.reason
    }

    fn give(&mut self, piece: &[u8]) -> Tried {
        self.again();
        let given = match &mut self.stream {
            Stream::Tcp(stream) => stream.write(piece),
            Stream::Unix(stream) => stream.write(piece),
            Stream::Full => return Tried::Waits,
            Stream::Absent(reason) => {
                self.reason = *reason;
                return Tried::Failed;
            }
        };
        if let Err(error) = &given {
            self.reason = ConnectReason::of(error.kind());
        }
        match Tried::of(given) {
            // A connection that takes nothing has failed.
            Tried::Done(0) if !piece.is_empty() => Tried::Failed,
            other => other,
        }
    }

    fn get(&mut self, buf: &mut [u8]) -> Tried {
        match &mut self.stream {
            Stream::Tcp(stream) => Tried::of(stream.read(buf)),
            Stream::Unix(stream) => Tried::of(stream.read(buf)),
            Stream::Full | Stream::Absent(_) => Tried::Failed,
        }
    }

    fn is_restless(&self) -> bool {
        self.is_restless
    }
}

/// Begins to connect to whoever listens there.
fn connect<R: Net>(rt: &R, place: Place<'_>) -> Stream {
    match place {
        Place::Port(port) => match connect_tcp(rt, port, here(port)) {
            Ok(stream) => Stream::Tcp(stream),
            Err(error) => Stream::Absent(ConnectReason::of(error.kind())),
        },
        Place::Path(path) => match UnixStream::connect(rt, path) {
            Ok(stream) => Stream::Unix(stream),
            Err(error) if error.kind() == ErrorKind::WouldBlock => Stream::Full,
            Err(error) => Stream::Absent(ConnectReason::of(error.kind())),
        },
    }
}

/// Begins to connect to that port of 127.0.0.1.
fn connect_tcp<R: Net>(rt: &R, port: u16, address: SocketAddr) -> io::Result<TcpStream>
    requires { IsHere port address }
{
    let _ = port;
    TcpStream::connect(rt, address)
}

/// The port of 127.0.0.1.
fn here(port: u16) -> SocketAddr
    ensures { IsHere port result }
{
    SocketAddr::new(IpAddr::V4(Ipv4Addr::LOCALHOST), port)
}
