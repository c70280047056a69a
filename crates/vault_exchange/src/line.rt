//! One request and its reply over one line, whatever the line is.
ghost use Rattle.vault_exchange.specs.Exchanges.{CountsExchange};
ghost use Rattle.vault_exchange.specs.Lines.{Carries};
ghost use Rattle.vault_http.specs.RoundTripRequest.{IsWritable};

use crate::fault::ExchangeFault;
use std::alloc::Global;
use vault_http::{
    HttpFault, MOST_MESSAGE, Reply, Request, Room, Sink, Source, Watched, write_request,
};

/// Writes the request, once, and reads the reply.
pub(crate) fn carry<S: Source + Sink>(
    alloc: Global,
    line: &mut S,
    room: &mut Room,
    request: &Request,
) -> Result<Reply, ExchangeFault>
    requires { IsWritable request.now }
    ensures carried { Carries request.now (⟦<S as Watched>⟧.change line.old line.new) result }
    ensures count { CountsExchange result (S.seen line.old).failed_calls (S.seen line.new).failed_calls }
{
    write_request(alloc, line, request)?;
    match room.read_reply(alloc, line, MOST_MESSAGE) {
        Ok(reply) => Ok(reply),
        Err(HttpFault::OutOfMemory) => Err(ExchangeFault::OutOfMemory),
        Err(fault) => Err(ExchangeFault::Http(fault)),
    }
}
