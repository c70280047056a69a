ghost use Rattle.std.specs.Prelude.{◌≡◌, [], ◌<◌, take, Ok};
ghost use Rattle.vault_http.specs.Heads.{FoundRequest};
ghost use Rattle.vault_http.specs.Known.{IsMessageHead};
ghost use Rattle.vault_http.specs.Messages.{IsHttpRequest, UnlessMemory, request_with};
ghost use Rattle.vault_http.specs.Starts.{IsStart, request_at};
ghost use Rattle.httparse.specs.Grammar.{HasNoRequest};

use crate::first_bytes::front_of;
use crate::found_head::{RequestFront, Start, request_head};
use crate::framing::{Framing, LengthFault};
use crate::message::{Head, Message};
use crate::{HttpFault, Request};
use base_moment::Text;
use http::Method;
use http::method::MethodError;
use std::alloc::Global;

impl Message for Request {
    ghost is_answer = { IsHttpRequest };

    ghost has_no_head = { HasNoRequest };

    ghost with_body = { request_with };

    fn head(alloc: Global, bytes: &[u8], max: usize) -> Head<Request> {
        match request_head(front_of(bytes, max)) {
            RequestFront::Open if bytes.len() >= max => Head::Refused(HttpFault::TooLong),
            RequestFront::Open => Head::Open,
            RequestFront::Refused => Head::Refused(HttpFault::BadHead),
            RequestFront::Found(len, start, framing) => {
                found_request(alloc, bytes, max, len, start, framing)
            }
        }
    }

    fn with_body(self, body: Text) -> Request {
        let Request {
            method,
            path,
            token,
            body: _,
            port,
        } = self;
        Request {
            method,
            path,
            token,
            body,
            port,
        }
    }

    fn laws() {}
}

/// The request without its body, where its head was found and does not refuse it.
fn found_request(
    alloc: Global,
    bytes: &[u8],
    max: usize,
    len: usize,
    start: Start,
    framing: Result<Framing, LengthFault>,
) -> Head<Request>
    requires found { FoundRequest (take max bytes.now) len start framing }
    ensures { IsMessageHead HasNoRequest (IsHttpRequest max) request_with max bytes.now result }
{
    match framing {
        Err(fault) => Head::Refused(fault.into()),
        Ok(framing) => match bodiless(alloc, front_of(bytes, max), start) {
            Ok(request) => Head::Found(len, request, framing),
            Err(fault) => Head::Refused(fault),
        },
    }
}

/// The request of the parts of its head. It has port 0, since the port is no part of what is read.
fn bodiless(alloc: Global, front: &[u8], start: Start) -> Result<Request, HttpFault>
    requires { IsStart front.now start }
    ensures { UnlessMemory result (result ≡ request_at front.now start (Ok [])) }
{
    let method = match Method::from_bytes(alloc, start.method.of(front)) {
        Ok(method) => method,
        Err(MethodError::OutOfMemory) => return Err(HttpFault::OutOfMemory),
        Err(MethodError::Invalid) => unreachable!(),
    };
    let path = Text::of(alloc, start.path.of(front))?;
    let token = match start.token {
        Some(token) => Some(Text::of(alloc, token.of(front))?),
        None => None,
    };
    Ok(Request {
        method,
        path,
        token,
        body: Text::from_vec(Vec::new(alloc)),
        port: 0,
    })
}
