//! HTTP messages, as they are read: replies however they are framed, what is refused and why, requests, and dates. (That it matters
//! nothing how one is cut is a law of `vault_http`; `tests/prefixes` and `tests/hostile-replies` cut them.)
use crate::devices::source;
use base_moment::Moment;
use std::alloc::Global;
use std::test::Fail;
use vault_http::{HttpFault, read_dated_reply, read_reply, read_request};

/// The bytes of a message at most.
const MOST: usize = 1048576;

/// How many bytes come at a time, first.
const PIECES: [usize; 5] = [1, 1, 1, 7, 2];

const GRANT: &[u8] = b"{\"auth\":{\"lease_duration\":60,\"renewable\":true}}";

const COUNTED: &[u8] = b"HTTP/1.1 200 OK\r\nContent-Length: 47\r\n\r\n\
{\"auth\":{\"lease_duration\":60,\"renewable\":true}}";

const CHUNKED: &[u8] = b"HTTP/1.1 200 OK\r\nTransfer-Encoding: chunked\r\n\r\n\
2f\r\n{\"auth\":{\"lease_duration\":60,\"renewable\":true}}\r\n0\r\n\r\n";

const TO_END: &[u8] = b"HTTP/1.1 200 OK\r\n\r\n\
{\"auth\":{\"lease_duration\":60,\"renewable\":true}}";

// Replies, with their statuses and bodies.
const READ: [(&[u8], u16, &[u8]); 6] = [
    (COUNTED, 200, GRANT),
    (CHUNKED, 200, GRANT),
    (TO_END, 200, GRANT),
    (
        b"HTTP/1.1 204 No Content\r\nContent-Length: 5\r\n\r\n",
        204,
        b"",
    ),
    (b"HTTP/1.1 200 OK\r\n\r\n{}", 200, b"{}"),
    (
        b"HTTP/1.1 200 OK\r\ntransfer-encoding: Chunked\r\n\r\n1\r\n{\r\n1\r\n}\r\n0\r\n\r\nleft over",
        200,
        b"{}",
    ),
];

// Whether a reply in these pieces has that status and that body.
fn is_read(alloc: Global, text: &[u8], status: u16, body: &[u8]) -> Result<bool, Fail> {
    let mut source = source(alloc, text, &PIECES)?;
    match read_reply(alloc, &mut source, MOST) {
        Ok(reply) => Ok(reply.status == status && reply.body.list() == body),
        Err(_) => Ok(false),
    }
}

#[test]
fn reads_one_reply_however_it_is_framed(rt: HostRuntime) -> Result<(), Fail> {
    for (text, status, body) in READ {
        assert!(rt; is_read(rt.alloc(), text, status, body)?, "{status}");
    }
    Ok(())
}

// Replies that are refused, and why.
const REFUSED: [(&[u8], HttpFault); 10] = [
    (
        b"HTTP/1.1 200 OK\r\nContent-Length: 3\r\n\r\nok",
        HttpFault::Truncated,
    ),
    (
        b"HTTP/1.1 200 OK\r\nTransfer-Encoding: chunked\r\n\r\n2\r\nok\r\n0\r\n\r",
        HttpFault::Truncated,
    ),
    (
        b"HTTP/1.1 200 OK\r\nContent-Length: 4x\r\n\r\nbody",
        HttpFault::BadLength,
    ),
    (
        b"HTTP/1.1 200 OK\r\nTransfer-Encoding: gzip\r\n\r\n",
        HttpFault::BadLength,
    ),
    (
        b"HTTP/1.1 200 OK\r\nTransfer-Encoding: chunked\r\n\r\nzz\r\n",
        HttpFault::BadChunk,
    ),
    (
        b"HTTP/1.1 200 OK\r\nTransfer-Encoding: chunked\r\n\r\nfffffffff\r\n",
        HttpFault::BadChunk,
    ),
    (
        b"HTTP/1.1 200 OK\r\nTransfer-Encoding: chunked\r\nContent-Length: 2\r\n\r\n",
        HttpFault::TwoLengths,
    ),
    (b"HTTP/1.1 100 Continue\r\n\r\n", HttpFault::BadHead),
    (b"HTTP/1.1 99 x\r\n\r\n", HttpFault::BadHead),
    (b"hello", HttpFault::BadHead),
];

fn is_refused(alloc: Global, text: &[u8], fault: HttpFault) -> Result<bool, Fail> {
    let mut source = source(alloc, text, &PIECES)?;
    match read_reply(alloc, &mut source, MOST) {
        Ok(_) => Ok(false),
        Err(why) => Ok(why == fault),
    }
}

#[test]
fn refuses_replies(rt: HostRuntime) -> Result<(), Fail> {
    for (text, fault) in REFUSED {
        assert!(rt; is_refused(rt.alloc(), text, fault)?, "{fault:?}");
    }
    Ok(())
}

// Why a request is refused, if it is.
fn fault_of(alloc: Global, text: &[u8], max: usize) -> Result<Option<HttpFault>, Fail> {
    let mut source = source(alloc, text, &[])?;
    Ok(read_request(alloc, &mut source, max).err())
}

// One whose input ends within its target, which no contract says, and one that is too long by then.
#[test]
fn refuses_requests(rt: HostRuntime) -> Result<(), Fail> {
    assert!(rt; fault_of(rt.alloc(), b"GET /v1/abc", MOST)? == Some(HttpFault::Truncated));
    assert!(rt; fault_of(rt.alloc(), b"GET /v1/abc", 11)? == Some(HttpFault::TooLong));
    Ok(())
}

// The example of RFC 9110, section 5.6.7, in its three forms: 784111777 seconds after 1970.
const EXAMPLE: Option<u64> = Some(784111777);

// The fields of a head, and the moment that they tell.
const FIELDS: [(&str, Option<u64>); 12] = [
    ("Date: Sun, 06 Nov 1994 08:49:37 GMT\r\n", EXAMPLE),
    ("date: Sunday, 06-Nov-94 08:49:37 GMT\r\n", EXAMPLE),
    ("DATE:Sun Nov  6 08:49:37 1994\r\n", EXAMPLE),
    ("Date: \t Sun, 06 Nov 1994 08:49:37 GMT \r\n", EXAMPLE),
    ("Date: Thu, 01 Jan 1970 00:00:00 GMT\r\n", Some(0)),
    (
        "Date: Fri, 31 Dec 9999 23:59:59 GMT\r\n",
        Some(253402300799),
    ),
    ("", None),
    ("Date: 784111777\r\n", None),
    ("Date: Sun, 06 Nov 1994 08:49:37 UTC\r\n", None),
    ("Date: Sun, 31 Feb 1994 08:49:37 GMT\r\n", None),
    ("X-Date: Sun, 06 Nov 1994 08:49:37 GMT\r\n", None),
    (
        "Date: Sun, 06 Nov 1994 08:49:37 GMT\r\nDate: Sun, 06 Nov 1994 08:49:37 GMT\r\n",
        None,
    ),
];

// Whether a reply with these fields tells the moment, and all else of it is there.
fn is_dated(alloc: Global, fields: &str, moment: Option<u64>) -> Result<bool, Fail> {
    let text = format!(in alloc; "HTTP/1.1 503 x\r\n{fields}Content-Length: 2\r\n\r\n{{}}")?;
    let mut source = source(alloc, text.as_bytes(), &[1; 200])?;
    match read_dated_reply(alloc, &mut source, 1000) {
        Ok(dated) => Ok(
            dated.date == moment.and_then(Moment::new)
                && dated.reply.body.list() == b"{}".as_slice()
                && dated.reply.status == 503,
        ),
        Err(_) => Ok(false),
    }
}

#[test]
fn dates_of_replies(rt: HostRuntime) -> Result<(), Fail> {
    for (fields, moment) in &FIELDS {
        assert!(rt; is_dated(rt.alloc(), fields, *moment)?, "of {fields}");
    }
    Ok(())
}
