ghost use Rattle.std.specs.Prelude.{◌<◌, take};
ghost use Rattle.vault_http.specs.Heads.{FoundReply};
ghost use Rattle.vault_http.specs.Known.{IsMessageHead};
ghost use Rattle.vault_http.specs.Messages.{IsHttpReply, reply_with};
ghost use Rattle.httparse.specs.Grammar.{HasNoResponse};

use crate::first_bytes::front_of;
use crate::found_head::{ReplyHead, reply_head};
use crate::framing::{Framing, LengthFault};
use crate::message::{Head, Message};
use crate::{HttpFault, Reply};
use base_moment::Text;
use std::alloc::Global;

impl Message for Reply {
    ghost is_answer = { IsHttpReply };

    ghost has_no_head = { HasNoResponse };

    ghost with_body = { reply_with };

    fn head(alloc: Global, bytes: &[u8], max: usize) -> Head<Reply> {
        match reply_head(front_of(bytes, max)) {
            ReplyHead::Open if bytes.len() >= max => Head::Refused(HttpFault::TooLong),
            ReplyHead::Open => Head::Open,
            ReplyHead::Refused => Head::Refused(HttpFault::BadHead),
            ReplyHead::Found(len, status, framing) => {
                found_reply(alloc, bytes, max, len, status, framing)
            }
        }
    }

    fn with_body(self, body: Text) -> Reply {
        Reply {
            status: self.status,
            body,
        }
    }

    fn laws() {}
}

/// The reply without its body, where its head was found and does not refuse it.
pub(crate) fn found_reply(
    alloc: Global,
    bytes: &[u8],
    max: usize,
    len: usize,
    status: u16,
    framing: Result<Framing, LengthFault>,
) -> Head<Reply>
    requires found { FoundReply (take max bytes.now) len status framing }
    ensures { IsMessageHead HasNoResponse (IsHttpReply max) reply_with max bytes.now result }
{
    if status >= 100 && status < 200 {
        return Head::Refused(HttpFault::BadHead);
    }
    match framing {
        Err(fault) => Head::Refused(fault.into()),
        Ok(framing) => {
            let body = Text::from_vec(Vec::new(alloc));
            Head::Found(len, Reply { status, body }, framing)
        }
    }
}
