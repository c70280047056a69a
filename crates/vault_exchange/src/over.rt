//! What exchanges over connections share.
ghost use Rattle.std.specs.Prelude.{◌≡◌, is_ok};
ghost use Rattle.base_device.specs.Places.{IsHere};
ghost use Rattle.vault_exchange.specs.Exchanges.{CountsExchange};
ghost use Rattle.vault_exchange.specs.Lines.{Carries};
ghost use Rattle.vault_exchange.specs.Sockets.{learned};
ghost use Rattle.vault_http.specs.RoundTripRequest.{IsWritable};

use crate::fault::ExchangeFault;
use crate::line::carry;
use crate::patience::{Patience, Timed};
use std::alloc::Global;
use std::net::{IpAddr, Ipv4Addr, SocketAddr};
use vault_http::{HttpFault, Reply, Request, Room, Sink, Source, Watched};

/// Writes the request to the line, once, and reads the reply, and learns from it how long the next ones may take.
pub(crate) fn exchange_over<L: Source + Sink + Timed>(
    alloc: Global,
    line: &mut L,
    room: &mut Room,
    request: &Request,
    patience: &mut Patience,
) -> Result<Reply, ExchangeFault>
    requires { IsWritable request.now }
    ensures carried { Carries request.now (⟦<L as Watched>⟧.change line.old line.new) result }
    ensures count { CountsExchange result (L.seen line.old).failed_calls (L.seen line.new).failed_calls }
    ensures learned { patience.new ≡ record patience.old { is_short = learned (is_ok result) (L.late line.new) patience.old.is_short } }
{
    let result = carry(alloc, line, room, request);
    patience.learn(line.is_late(), result.is_ok());
    result
}

/// The count of failures after an exchange: one more where a connect, an accept, a write or a read failed.
pub(crate) fn count_after(failures: u64, answer: &Result<Reply, ExchangeFault>) -> u64
    ensures { CountsExchange answer.now failures result }
{
    match answer {
        Err(
            ExchangeFault::ConnectFailed
            | ExchangeFault::WriteFailed
            | ExchangeFault::Http(HttpFault::ReadFailed),
        ) => failures.saturating_add(1),
        _ => failures,
    }
}

/// The port of 127.0.0.1.
pub fn here(port: u16) -> SocketAddr
    ensures { IsHere port result }
{
    SocketAddr::new(IpAddr::V4(Ipv4Addr::LOCALHOST), port)
}
