ghost use Rattle.std.specs.Prelude.{◌≡◌};
ghost use Rattle.vault_http.specs.declared.found_head.TheConstants.{MOST_FIELDS};
ghost use Rattle.vault_http.specs.declared.known.TheConstants.{MOST_MESSAGE, SMALL_HEAD};
ghost use Rattle.httparse.specs.Grammar.{HasNoRequest, HasNoResponse};
ghost use Rattle.vault_http.specs.Dates.{ReadsBackUndated};
ghost use Rattle.vault_http.specs.Messages.{IsHttpReply, IsHttpRequest};
ghost use Rattle.vault_http.specs.Reading.{HeldIsRead};
ghost use Rattle.vault_http.specs.RoundTrip.{ReadsBackReply};
ghost use Rattle.vault_http.specs.RoundTripRequest.{ReadsBackRequest};

use crate::{Reply, Request};

/// The law that a reply which [`crate::write_reply`] wrote is read back by [`crate::read_reply`] as the same reply,
/// whatever follows it, where as many bytes may be read as it has: nothing else is an answer to its bytes. It speaks of a
/// status 200, 400, 403, 404, 405, 429, 500 or 503 and a body of less than 10^15 bytes, and does nothing.
pub fn reply_reads_back(reply: &Reply)
    ensures { ReadsBackReply reply.now }
{
    let _ = reply;
}

/// The law that [`crate::read_dated_reply`] reads such a reply back without a date: [`crate::write_reply`] writes none. It does
/// nothing.
pub fn undated_reply_reads_back(reply: &Reply)
    ensures { ReadsBackUndated reply.now }
{
    let _ = reply;
}

/// The law that a request which [`crate::write_request`] wrote is read back by [`crate::read_request`] as the same request
/// with port 0, whatever follows it, where as many bytes may be read as it has: nothing else is an answer to its bytes. It
/// speaks of a method `GET`, `POST` or `PUT`, a path of letters, digits, `/`, `-`, `_` and `.`, a token of visible ASCII, and
/// a body of less than 10^15 bytes, which is empty with `GET`; and it does nothing.
pub fn request_reads_back(request: &Request)
    ensures { ReadsBackRequest request.now }
{
    let _ = request;
}

/// The law that [`crate::read_reply`] and [`crate::read_request`] pass over no message: where the source hands its bytes out
/// in at most 4,096 reads (and answers its end to one more), and they hold a message, `TooLong` is told of the bytes alone.
/// It does nothing.
pub fn held_is_read(max: usize)
    ensures reply { HeldIsRead HasNoResponse (IsHttpReply max) }
    ensures request { HeldIsRead HasNoRequest (IsHttpRequest max) }
{
    let _ = max;
}

/// The limits of messages as numbers; those of reads are in [`base_device::limits_law`]. It does nothing.
pub fn http_limits_law()
    ensures fields { MOST_FIELDS ≡ 64 }
    ensures small { SMALL_HEAD ≡ 4096 }
    ensures message { MOST_MESSAGE ≡ 1048576 }
{}
