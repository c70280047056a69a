//! Messages by way of their texts: each is written whole, and read of what was written.
ghost use Rattle.std.specs.Prelude.{◌≡◌, ◌≤◌, IfOk, IsOkUnless, IsTrue, length};
ghost use Rattle.vault_exchange.specs.Exchanges.{received};
ghost use Rattle.vault_exchange.specs.Requests.{IsShortRequest};
ghost use Rattle.vault_exchange.specs.declared.fault.ExchangeFault.TheVariants.{OutOfMemory};
ghost use Rattle.broker_table.specs.Stream.{MaySend, bytes_sent_of};
ghost use Rattle.vault_http.specs.declared.known.TheConstants.{MOST_MESSAGE};
ghost use Rattle.broker_rule.specs.declared.served.Served.TheVariants as served;
ghost use Rattle.vault_http.specs.RoundTrip.{is_sent};
ghost use Rattle.vault_http.specs.RoundTripRequest.{IsWritable, without_port};
ghost use Rattle.vault_http.specs.Written.{reply_text, request_text};

use crate::sure::{SureSink, SureSource};
use broker_rule::Served;
use std::alloc::Global;
use std::fmt;
use vault_exchange::{ExchangeFault, is_port};
use vault_http::{
    HttpFault, MOST_MESSAGE, Reply, Request, Room, reply_reads_back, request_reads_back,
    write_reply, write_request,
};

/// The text of a request.
pub(crate) fn text_of_request(alloc: Global, request: &Request) -> Result<Vec<u8>, ExchangeFault>
    requires { IsWritable request.now }
    ensures text { IfOk result (λ text. text.items ≡ request_text request.now) }
    ensures memory { IsOkUnless result OutOfMemory }
{
    let mut sink = SureSink::new(alloc);
    write_request(alloc, &mut sink, request)?;
    Ok(Vec::from_slice(alloc, sink.bytes())?)
}

/// The request as it is read of its text: the same but for its port.
pub(crate) fn request_of_text(
    alloc: Global,
    room: &mut Room,
    text: &[u8],
    request: &Request,
) -> Result<Request, ExchangeFault>
    requires writable { IsWritable request.now }
    requires short { IsShortRequest request.now }
    requires text { text.now ≡ request_text request.now }
    ensures read { IfOk result (λ read. read ≡ without_port request.now) }
    ensures memory { IsOkUnless result OutOfMemory }
{
    request_reads_back(request);
    is_port(request.port);
    let mut source = SureSource::of(alloc, text)?;
    Ok(room.read_request(alloc, &mut source, MOST_MESSAGE)?)
}

/// What was sent, and what is received of it.
#[derive(Drop)]
pub(crate) struct Delivery {
    pub(crate) text: Vec<u8>,
    pub(crate) reply: Result<Reply, ExchangeFault>,
}

impl fmt::Debug for Delivery {
    /// Shows how long the text is, and none of it: ids of leases stand in it, and they are secret.
    fn fmt<W: fmt::Write>(&self, f: &mut fmt::Formatter<W>) -> fmt::Result {
        f.debug_struct("Delivery")
            .field("text", &self.text.len())
            .field("reply", &self.reply)
            .finish()
    }
}

/// Sends what the broker has for a request, and reads it.
pub(crate) fn deliver(
    alloc: Global,
    room: &mut Room,
    served: &Served,
) -> Result<Delivery, ExchangeFault>
    requires { MaySend served.now }
    ensures text { IfOk result (λ d. d.text.items ≡ bytes_sent_of served.now) }
    ensures reply { IfOk result (λ d. d.reply ≡ received served.now) }
    ensures memory { IsOkUnless result OutOfMemory }
{
    match served {
        Served::Reply(reply) => deliver_reply(alloc, room, reply),
        Served::Dropped => Ok(Delivery {
            text: Vec::new(alloc),
            reply: Err(ExchangeFault::Http(HttpFault::Truncated)),
        }),
    }
}

fn deliver_reply(alloc: Global, room: &mut Room, reply: &Reply) -> Result<Delivery, ExchangeFault>
    requires { IsTrue (is_sent reply.now.status) }
    ensures text { IfOk result (λ d. d.text.items ≡ reply_text reply.now) }
    ensures reply { IfOk result (λ d. d.reply ≡ received (served.Reply reply.now)) }
    ensures memory { IsOkUnless result OutOfMemory }
{
    let text = text_of_reply(alloc, reply)?;
    if text.len() > MOST_MESSAGE {
        return Ok(Delivery {
            text,
            reply: Err(ExchangeFault::Http(HttpFault::TooLong)),
        });
    }
    let read = reply_of_text(alloc, room, &text, reply)?;
    Ok(Delivery {
        text,
        reply: Ok(read),
    })
}

/// The text of a reply.
fn text_of_reply(alloc: Global, reply: &Reply) -> Result<Vec<u8>, ExchangeFault>
    requires { IsTrue (is_sent reply.now.status) }
    ensures text { IfOk result (λ text. text.items ≡ reply_text reply.now) }
    ensures memory { IsOkUnless result OutOfMemory }
{
    let mut sink = SureSink::new(alloc);
    write_reply(alloc, &mut sink, reply)?;
    Ok(Vec::from_slice(alloc, sink.bytes())?)
}

/// The reply as it is read of its text: the same.
fn reply_of_text(
    alloc: Global,
    room: &mut Room,
    text: &[u8],
    reply: &Reply,
) -> Result<Reply, ExchangeFault>
    requires status { IsTrue (is_sent reply.now.status) }
    requires short { length (reply_text reply.now) ≤ MOST_MESSAGE }
    requires text { text.now ≡ reply_text reply.now }
    ensures read { IfOk result (λ read. read ≡ reply.now) }
    ensures memory { IsOkUnless result OutOfMemory }
{
    reply_reads_back(reply);
    let mut source = SureSource::of(alloc, text)?;
    Ok(room.read_reply(alloc, &mut source, MOST_MESSAGE)?)
}
