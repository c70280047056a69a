ghost use Rattle.std.specs.Prelude.{◌≡◌, ◌+◌, ◌<◌, ◌≤◌, length, map, All, if◌then◌else◌, Ok, Err};
ghost use Rattle.httparse.specs.Spans.{IsHeaderWithin, header_bytes};
ghost use Rattle.vault_http.specs.Fields.{is_field_named};
ghost use Rattle.vault_http.specs.Framing.{framing, length_in, number_in_digits, transfer_encoding, content_length, chunked_coding, counted_framing, reply_framing};

use crate::named_field::{Lone, has_name, lone_value};
use httparse::spans::HeaderSpan;

/// How long a body is.
#[derive(Clone, Copy, Debug, PartialEq, Eq)]
pub(crate) enum Framing {
    /// There is none.
    Empty,
    /// It has so many bytes.
    Counted(u64),
    /// It comes in chunks.
    Chunked,
    /// It goes to the end of the input.
    ToEnd,
}

/// Why the fields of a head do not say how long the body is.
#[derive(Clone, Copy, Debug, PartialEq, Eq)]
pub(crate) enum LengthFault {
    BadLength,
    TwoLengths,
}

/// How long the body is by the fields of its head; `neither` is what it means that no field says so.
#[tactic(auto, unfolding(crate::specs::Framing::framing, crate::specs::Framing::transfer_encoding, crate::specs::Framing::content_length, crate::specs::Framing::chunked_coding))]
pub(crate) fn framing_of(
    buf: &[u8],
    headers: &[HeaderSpan],
    neither: Framing,
) -> Result<Framing, LengthFault>
    requires { All (IsHeaderWithin (length buf.now)) headers.now }
    ensures { result ≡ framing neither (map (header_bytes buf.now) headers.now) }
{
    let coding = lone_value(buf, headers, b"transfer-encoding");
    let length = lone_value(buf, headers, b"content-length");
    match (coding, length) {
        (Lone::Absent, Lone::Absent) => Ok(neither),
        (Lone::Absent, Lone::One(value)) => count_in(value.of(buf)),
        (Lone::Absent, Lone::Several(_)) => Err(LengthFault::BadLength),
        (Lone::One(value), Lone::Absent) => chunked_in(value.of(buf)),
        (Lone::Several(_), Lone::Absent) => Err(LengthFault::BadLength),
        (_, _) => Err(LengthFault::TwoLengths),
    }
}

/// The length that is given, as a framing.
fn count_in(value: &[u8]) -> Result<Framing, LengthFault>
    ensures { result ≡ counted_framing (length_in value.now) }
{
    match digits_in(value) {
        Some(n) => Ok(Framing::Counted(n)),
        None => Err(LengthFault::BadLength),
    }
}

/// The one coding that is read.
#[tactic(auto, unfolding(crate::specs::Framing::chunked_coding))]
fn chunked_in(value: &[u8]) -> Result<Framing, LengthFault>
    ensures { result ≡ (if is_field_named chunked_coding value.now then Ok Framing.Chunked else Err LengthFault.BadLength) }
{
    if has_name(value, b"chunked") {
        Ok(Framing::Chunked)
    } else {
        Err(LengthFault::BadLength)
    }
}

/// The number that 1 to 15 decimal digits give.
#[tactic(auto, unfolding(crate::specs::Framing::length_in))]
fn digits_in(value: &[u8]) -> Option<u64>
    ensures { result ≡ length_in value.now }
{
    if value.is_empty() || value.len() > 15 {
        return None;
    }
    number_of(10, value)
}

/// The number that at most 15 digits give, to a base of at most 16; `None` where a byte is no digit.
pub(crate) fn number_of(radix: u32, value: &[u8]) -> Option<u64>
    requires least { 2 ≤ radix }
    requires most { radix ≤ 16 }
    requires few { length value.now ≤ 15 }
    ensures { result ≡ number_in_digits radix value.now }
{
    let mut n: u64 = 0;
    for byte in value {
        match char::from(*byte).to_digit(radix) {
            Some(digit) => n = n * radix as u64 + digit as u64,
            None => return None,
        }
    }
    Some(n)
}

/// The framing of a reply, by its status and what its fields say.
pub(crate) fn framing_of_reply(
    status: u16,
    framing: Result<Framing, LengthFault>,
) -> Result<Framing, LengthFault>
    ensures { result ≡ reply_framing status framing }
{
    let framing = framing?;
    if status == 204 || status == 304 {
        Ok(Framing::Empty)
    } else {
        Ok(framing)
    }
}
