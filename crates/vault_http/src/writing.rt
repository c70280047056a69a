ghost use Rattle.std.specs.Prelude.{◌≡◌, OnErr, OnOk, IfOk, IsTrue, string_bytes};
ghost use Rattle.std.specs.Io.KnownBytes.{Keeps, Appends};
ghost use Rattle.base_device.specs.Front.{AppendsFront};
ghost use Rattle.vault_http.specs.declared.writing.SendFault.TheVariants.{OutOfMemory};
ghost use Rattle.vault_http.specs.RoundTrip.{is_sent};
ghost use Rattle.vault_http.specs.RoundTripRequest.{IsWritable};
ghost use Rattle.vault_http.specs.Sending.{send_fault, CountsSend};
ghost use Rattle.vault_http.specs.Written.{host_lines, token_line, length_lines, last_lines, body_lines, request_text, phrase, status_line, reply_text};

use crate::{Reply, Request, Sink, SinkFault, write_all};
use base_moment::Text;
use http::StatusCode;
use std::alloc::{AllocError, Global};
use thiserror::Error;

/// The bytes that most messages have at most: so many are asked for at once.
const USUAL_TEXT: usize = 512;

/// The same of the line with a token.
const USUAL_LINE: usize = 64;

/// Why a message was not written.
#[derive(Clone, Copy, Debug, PartialEq, Eq, Error)]
pub enum SendFault {
    /// A write failed, and the device has counted it.
    #[error("a write failed")]
    WriteFailed,
    /// A growth was refused.
    #[error("out of memory")]
    OutOfMemory,
}

impl From<SinkFault> for SendFault {
    ghost from_gives = { λ f e. e ≡ send_fault f };

    fn from(fault: SinkFault) -> SendFault {
        match fault {
            SinkFault::Failed => SendFault::WriteFailed,
            SinkFault::OutOfMemory => SendFault::OutOfMemory,
        }
    }
}

impl From<AllocError> for SendFault {
    ghost from_gives = { λ _ e. e ≡ OutOfMemory };

    fn from(_e: AllocError) -> SendFault {
        SendFault::OutOfMemory
    }
}

/// Writes a request and flushes the sink: one of method `GET`, `POST` or `PUT`, whose path has 1 to 256 letters, digits, `/`,
/// `-`, `_` and `.` and begins with `/`, whose token has 1 to 256 visible characters of ASCII, and that has no body with
/// `GET`. So no byte of it is taken for the end of a line.
///
/// `WriteFailed`: a write or the flush failed. After either error no more than a front of the text went out.
pub fn write_request<W: Sink>(
    alloc: Global,
    sink: &mut W,
    request: &Request,
) -> Result<(), SendFault>
    requires writable { IsWritable request.now }
    ensures written { OnOk result (Appends (W.seen sink.old).output.written (W.seen sink.new).output.written (request_text request.now)) }
    ensures front { OnErr result (AppendsFront (W.seen sink.old).output.written (W.seen sink.new).output.written (request_text request.now)) }
    ensures flushed { OnOk result (IsTrue (W.seen sink.new).output.is_flushed) }
    ensures input { (W.seen sink.new).input ≡ (W.seen sink.old).input }
    ensures count { CountsSend result (W.seen sink.old).failed_calls (W.seen sink.new).failed_calls }
{
    let text = text_of_request(alloc, request)?;
    send(sink, &text)
}

/// Writes a reply and flushes the sink. Its status is 200, 400, 403, 404, 405, 429, 500 or 503.
///
/// `WriteFailed`: a write or the flush failed. After either error no more than a front of the text went out.
pub fn write_reply<W: Sink>(alloc: Global, sink: &mut W, reply: &Reply) -> Result<(), SendFault>
    requires status { IsTrue (is_sent reply.now.status) }
    ensures written { OnOk result (Appends (W.seen sink.old).output.written (W.seen sink.new).output.written (reply_text reply.now)) }
    ensures front { OnErr result (AppendsFront (W.seen sink.old).output.written (W.seen sink.new).output.written (reply_text reply.now)) }
    ensures flushed { OnOk result (IsTrue (W.seen sink.new).output.is_flushed) }
    ensures input { (W.seen sink.new).input ≡ (W.seen sink.old).input }
    ensures count { CountsSend result (W.seen sink.old).failed_calls (W.seen sink.new).failed_calls }
{
    let text = text_of_reply(alloc, reply)?;
    send(sink, &text)
}

/// Writes all of a text and flushes the sink.
fn send<W: Sink>(sink: &mut W, text: &[u8]) -> Result<(), SendFault>
    ensures written { OnOk result (Appends (W.seen sink.old).output.written (W.seen sink.new).output.written text.now) }
    ensures front { OnErr result (AppendsFront (W.seen sink.old).output.written (W.seen sink.new).output.written text.now) }
    ensures flushed { OnOk result (IsTrue (W.seen sink.new).output.is_flushed) }
    ensures input { (W.seen sink.new).input ≡ (W.seen sink.old).input }
    ensures count { CountsSend result (W.seen sink.old).failed_calls (W.seen sink.new).failed_calls }
{
    write_all(sink, text)?;
    sink.flush()?;
    Ok(())
}

/// The text of a request, as [`write_request`] writes it.
#[tactic(auto, unfolding(crate::specs::Written::request_text))]
pub fn text_of_request(alloc: Global, request: &Request) -> Result<Vec<u8>, AllocError>
    ensures { IfOk result (λ text. text.items ≡ request_text request.now) }
{
    let host = text_of_host(alloc, request.port)?;
    let token = text_of_token(alloc, &request.token)?;
    let lines = text_of_body_lines(alloc, request.method.as_str(), request.body.list().len())?;
    let last = text_of_last(alloc)?;
    let mut text = Vec::with_capacity(alloc, USUAL_TEXT)?;
    text.extend_from_slice(request.method.as_str().as_bytes())?;
    text.extend_from_slice(b" ")?;
    text.extend_from_slice(request.path.list())?;
    text.extend_from_slice(host.as_bytes())?;
    text.extend_from_slice(&token)?;
    text.extend_from_slice(lines.as_bytes())?;
    text.extend_from_slice(last.as_bytes())?;
    text.extend_from_slice(request.body.list())?;
    Ok(text)
}

#[tactic(auto, unfolding(crate::specs::Written::reply_text))]
fn text_of_reply(alloc: Global, reply: &Reply) -> Result<Vec<u8>, AllocError>
    ensures { IfOk result (λ text. text.items ≡ reply_text reply.now) }
{
    let line = text_of_status(alloc, reply.status)?;
    let lines = text_of_length(alloc, reply.body.list().len())?;
    let last = text_of_last(alloc)?;
    let mut text = Vec::with_capacity(alloc, USUAL_TEXT)?;
    text.extend_from_slice(line.as_bytes())?;
    text.extend_from_slice(lines.as_bytes())?;
    text.extend_from_slice(last.as_bytes())?;
    text.extend_from_slice(reply.body.list())?;
    Ok(text)
}

#[tactic(auto, unfolding(crate::specs::Written::host_lines))]
fn text_of_host(alloc: Global, port: u16) -> Result<String, AllocError>
    ensures { IfOk result (λ text. string_bytes text ≡ host_lines port) }
{
    format!(in alloc; " HTTP/1.1\r\nHost: 127.0.0.1:{port}\r\n")
}

#[tactic(auto, unfolding(crate::specs::Written::token_line))]
fn text_of_token(alloc: Global, token: &Option<Text>) -> Result<Vec<u8>, AllocError>
    ensures { IfOk result (λ text. text.items ≡ token_line token.now) }
{
    let mut text = Vec::with_capacity(alloc, USUAL_LINE)?;
    if let Some(token) = token {
        text.extend_from_slice(b"X-Vault-Token: ")?;
        text.extend_from_slice(token.list())?;
        text.extend_from_slice(b"\r\n")?;
    }
    Ok(text)
}

#[tactic(auto, unfolding(crate::specs::Written::length_lines))]
fn text_of_length(alloc: Global, n: usize) -> Result<String, AllocError>
    ensures { IfOk result (λ text. string_bytes text ≡ length_lines n) }
{
    format!(in alloc; "Content-Type: application/json\r\nContent-Length: {n}\r\n")
}

#[tactic(auto, unfolding(crate::specs::Written::body_lines))]
fn text_of_body_lines(alloc: Global, method: &str, n: usize) -> Result<String, AllocError>
    ensures { IfOk result (λ text. string_bytes text ≡ body_lines method.now n) }
{
    if method == "GET" {
        Ok(String::new(alloc))
    } else {
        text_of_length(alloc, n)
    }
}

#[tactic(auto, unfolding(crate::specs::Written::last_lines))]
fn text_of_last(alloc: Global) -> Result<String, AllocError>
    ensures { IfOk result (λ text. string_bytes text ≡ last_lines) }
{
    String::from_str(alloc, "Connection: close\r\n\r\n")
}

#[tactic(auto, unfolding(crate::specs::Written::status_line))]
fn text_of_status(alloc: Global, status: u16) -> Result<String, AllocError>
    ensures { IfOk result (λ text. string_bytes text ≡ status_line status) }
{
    let phrase = phrase_of(status);
    format!(in alloc; "HTTP/1.1 {status} {phrase}\r\n")
}

#[tactic(auto, unfolding(crate::specs::Written::phrase))]
/// The phrase that goes with a status, empty where there is none.
fn phrase_of(status: u16) -> &'static str
    ensures { result.now ≡ phrase status }
{
    if status < 100 {
        return "";
    }
    match StatusCode::from_u16(status) {
        Ok(code) => code.canonical_reason().unwrap_or(""),
        Err(_) => "",
    }
}
