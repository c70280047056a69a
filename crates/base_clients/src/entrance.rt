//! Where guests come in, as a word of the command line says it.
ghost use Rattle.std.specs.Prelude.{◌≡◌};
ghost use Rattle.base_device.specs.Places.{IsHere};
ghost use Rattle.base_clients.specs.Entrances.{ReadsEntrance};

use std::net::{IpAddr, Ipv4Addr, SocketAddr};

/// Where guests come in.
#[derive(Clone, Copy, Debug)]
pub enum Entrance<'a> {
    /// At this address and port of the machine.
    Address(SocketAddr),
    /// At the UNIX socket of this path.
    Path(&'a str),
}

/// What a word says: one with a slash is a path; decimal digits, of which a plus may stand in front, are a port of 127.0.0.1;
/// any other has to be an address with its port, as `0.0.0.0:9105` and `[::]:9105` are. Port 0 lets the system choose one.
pub fn entrance_of(word: &str) -> Option<Entrance<'_>>
    ensures { ReadsEntrance word.now result }
{
    if word.contains('/') {
        return Some(Entrance::Path(word));
    }
    if let Ok(port) = word.parse::<u16>() {
        return Some(Entrance::Address(here(port)));
    }
    match word.parse::<SocketAddr>() {
        Ok(address) => Some(Entrance::Address(address)),
        Err(_) => None,
    }
}

/// The port of 127.0.0.1.
fn here(port: u16) -> SocketAddr
    ensures { IsHere port result }
{
    SocketAddr::new(IpAddr::V4(Ipv4Addr::LOCALHOST), port)
}
