ghost use Rattle.std.specs.Prelude.{take};
ghost use Rattle.httparse.specs.Grammar.{HasNoResponse};
ghost use Rattle.vault_http.specs.Dates.{IsDatedReply, dated_with};
ghost use Rattle.vault_http.specs.Heads.{FoundReply};
ghost use Rattle.vault_http.specs.Known.{IsMessageHead};

use crate::date::date_of;
use crate::first_bytes::front_of;
use crate::found_head::{ReplyHead, reply_head};
use crate::framing::{Framing, LengthFault};
use crate::message::{Head, Message};
use crate::reply_message::found_reply;
use crate::{HttpFault, Reply};
use base_moment::{Moment, Text};
use std::alloc::Global;

/// A reply of the broker, and when it says that it was made.
#[derive(Debug, Drop)]
pub struct DatedReply {
    /// The reply.
    pub reply: Reply,
    /// What its one field `Date` tells (RFC 9110, sections 5.6.7 and 6.6.1): `None` where there is no such field, where there
    /// are several, and where its value is no date.
    pub date: Option<Moment>,
}

impl Message for DatedReply {
    ghost is_answer = { IsDatedReply };

    ghost has_no_head = { HasNoResponse };

    ghost with_body = { dated_with };

    fn head(alloc: Global, bytes: &[u8], max: usize) -> Head<DatedReply> {
        match reply_head(front_of(bytes, max)) {
            ReplyHead::Open if bytes.len() >= max => Head::Refused(HttpFault::TooLong),
            ReplyHead::Open => Head::Open,
            ReplyHead::Refused => Head::Refused(HttpFault::BadHead),
            ReplyHead::Found(len, status, framing) => {
                found_dated(alloc, bytes, max, len, status, framing)
            }
        }
    }

    fn with_body(self, body: Text) -> DatedReply {
        DatedReply {
            reply: self.reply.with_body(body),
            date: self.date,
        }
    }

    fn laws() {}
}

/// The reply without its body, and its date, where its head was found and does not refuse it.
fn found_dated(
    alloc: Global,
    bytes: &[u8],
    max: usize,
    len: usize,
    status: u16,
    framing: Result<Framing, LengthFault>,
) -> Head<DatedReply>
    requires found { FoundReply (take max bytes.now) len status framing }
    ensures { IsMessageHead HasNoResponse (IsDatedReply max) dated_with max bytes.now result }
{
    let date = date_of(front_of(bytes, max));
    match found_reply(alloc, bytes, max, len, status, framing) {
        Head::Open => Head::Open,
        Head::Refused(fault) => Head::Refused(fault),
        Head::Found(size, reply, framing) => {
            Head::Found(size, DatedReply { reply, date }, framing)
        }
    }
}
