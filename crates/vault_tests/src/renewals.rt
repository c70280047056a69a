//! Renewals of two tokens, and what may come of them.
use base_moment::{Moment, Text};
use http::Method;
use std::alloc::{AllocError, Global};
use vault_exchange::can_carry;
use vault_http::Request;
use vault_lanes::{Answered, Ask, Lanes, Loss};

/// A token, the body that asks for its renewal, and the one that grants it; and the whole texts of both (docs/http.md).
pub(crate) struct Token {
    pub(crate) credential: &'static [u8],
    pub(crate) asks: &'static [u8],
    pub(crate) grants: &'static [u8],
    pub(crate) request: &'static [u8],
    pub(crate) reply: &'static [u8],
}

pub(crate) const TOKENS: [Token; 2] = [
    Token {
        credential: b"ta",
        asks: b"{\"increment\":60}",
        grants: b"{\"auth\":{\"lease_duration\":60,\"renewable\":true}}",
        request: b"POST /v1/auth/token/renew-self HTTP/1.1\r\nHost: 127.0.0.1:8200\r\nX-Vault-Token: ta\r\n\
Content-Type: application/json\r\nContent-Length: 16\r\nConnection: close\r\n\r\n{\"increment\":60}",
        reply: b"HTTP/1.1 200 OK\r\nContent-Type: application/json\r\nContent-Length: 47\r\nConnection: close\r\n\r\n\
{\"auth\":{\"lease_duration\":60,\"renewable\":true}}",
    },
    Token {
        credential: b"tb",
        asks: b"{\"increment\":61}",
        grants: b"{\"auth\":{\"lease_duration\":61,\"renewable\":true}}",
        request: b"POST /v1/auth/token/renew-self HTTP/1.1\r\nHost: 127.0.0.1:8200\r\nX-Vault-Token: tb\r\n\
Content-Type: application/json\r\nContent-Length: 16\r\nConnection: close\r\n\r\n{\"increment\":61}",
        reply: b"HTTP/1.1 200 OK\r\nContent-Type: application/json\r\nContent-Length: 47\r\nConnection: close\r\n\r\n\
{\"auth\":{\"lease_duration\":61,\"renewable\":true}}",
    },
];

/// The token that is asked for under an index: the first for even ones.
pub(crate) fn token_of(index: u32) -> &'static Token {
    &TOKENS[(index % 2) as usize]
}

/// Its renewal, to a broker at that port.
pub(crate) fn renewal(alloc: Global, token: &Token, port: u16) -> Result<Request, AllocError> {
    let path = Text::of(alloc, b"/v1/auth/token/renew-self")?;
    let credential = Text::of(alloc, token.credential)?;
    let body = Text::of(alloc, token.asks)?;
    Ok(Request {
        method: Method::POST,
        path,
        token: Some(credential),
        body,
        port,
    })
}

/// Sends the renewal for an index at `now`, with so many milliseconds of patience. Whether a lane was free for it.
pub(crate) fn send<L: Lanes>(
    alloc: Global,
    lanes: &mut L,
    now: u64,
    index: u32,
    patience: u64,
) -> Result<bool, AllocError> {
    let Some(moment) = Moment::new(1059) else {
        return Ok(false);
    };
    let ask = Ask {
        index,
        patience,
        request: renewal(alloc, token_of(index), lanes.port())?,
    };
    if lanes.free() == 0 || !can_carry(&ask.request) {
        return Ok(false);
    }
    lanes.send(alloc, moment, now, &ask)?;
    Ok(true)
}

/// What may come of a renewal.
#[derive(Clone, Copy, Debug)]
pub(crate) enum Comes {
    /// The grant of its own token.
    Granted,
    /// No answer, for that reason.
    Lost(Loss),
}

/// Whether this is the answer for that index.
pub(crate) fn is(answered: &Answered, index: u32, comes: Comes) -> bool {
    if answered.index != index {
        return false;
    }
    match (&answered.answer, comes) {
        (Ok(dated), Comes::Granted) => {
            dated.reply.status == 200 && dated.reply.body.list() == token_of(index).grants
        }
        (Err(loss), Comes::Lost(why)) => *loss == why,
        _ => false,
    }
}
