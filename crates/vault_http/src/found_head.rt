ghost use Rattle.std.specs.Prelude.{length, map, All};
ghost use Rattle.httparse.specs.Spans.{IsHeaderWithin, header_bytes};
ghost use Rattle.vault_http.specs.Heads.{IsReplyHead, IsRequestHead, IsAt, token_of, token_name};

use crate::framing::{Framing, LengthFault, framing_of, framing_of_reply};
use crate::named_field::{Lone, lone_value};
use httparse::Status;
use httparse::spans::{EMPTY_HEADER_SPAN, HeaderSpan, Span, parse_request, parse_response};

/// The most fields of a head.
pub const MOST_FIELDS: usize = 64;

/// What the bytes at the front of a reply are as its head.
#[derive(Clone, Copy, Debug)]
pub(crate) enum ReplyHead {
    /// No head yet, and one may come.
    Open,
    /// No head of at most 64 fields, whatever follows.
    Refused,
    /// A head: its length, the status, and how long the body is.
    Found(usize, u16, Result<Framing, LengthFault>),
}

/// What the bytes at the front of a request are as its head.
#[derive(Clone, Copy, Debug)]
pub(crate) enum RequestFront {
    /// No head yet, and one may come.
    Open,
    /// No head of at most 64 fields, whatever follows.
    Refused,
    /// A head: its length, its parts, and how long the body is.
    Found(usize, Start, Result<Framing, LengthFault>),
}

/// Where the parts of a request's head stand in its bytes.
#[derive(Clone, Copy, Debug)]
pub(crate) struct Start {
    pub(crate) method: Span,
    pub(crate) path: Span,
    pub(crate) token: Option<Span>,
}

/// Reads the head of a reply at the front.
pub(crate) fn reply_head(front: &[u8]) -> ReplyHead
    ensures { IsReplyHead front.now result }
{
    let mut headers = [EMPTY_HEADER_SPAN; MOST_FIELDS];
    match parse_response(front, &mut headers) {
        Ok(Status::Complete(head)) => {
            let said = framing_of(front, &headers[..head.headers], Framing::ToEnd);
            ReplyHead::Found(head.len, head.code, framing_of_reply(head.code, said))
        }
        Ok(Status::Partial) => ReplyHead::Open,
        Err(_) => ReplyHead::Refused,
    }
}

/// Reads the head of a request at the front.
pub(crate) fn request_head(front: &[u8]) -> RequestFront
    ensures { IsRequestHead front.now result }
{
    let mut headers = [EMPTY_HEADER_SPAN; MOST_FIELDS];
    match parse_request(front, &mut headers) {
        Ok(Status::Complete(head)) => {
            let fields = &headers[..head.headers];
            let framing = framing_of(front, fields, Framing::Empty);
            let start = Start {
                method: head.method,
                path: head.path,
                token: token_in(front, fields),
            };
            RequestFront::Found(head.len, start, framing)
        }
        Ok(Status::Partial) => RequestFront::Open,
        Err(_) => RequestFront::Refused,
    }
}

/// The token that the fields carry: the first where there are several.
#[tactic(auto, unfolding(crate::specs::Heads::token_name))]
fn token_in(buf: &[u8], headers: &[HeaderSpan]) -> Option<Span>
    requires { All (IsHeaderWithin (length buf.now)) headers.now }
    ensures { IsAt buf.now result (token_of (map (header_bytes buf.now) headers.now)) }
{
    match lone_value(buf, headers, b"x-vault-token") {
        Lone::Absent => None,
        Lone::One(token) => Some(token),
        Lone::Several(token) => Some(token),
    }
}
