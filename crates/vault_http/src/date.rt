ghost use Rattle.std.specs.Prelude.{◌≡◌, length, map, All};
ghost use Rattle.httparse.specs.Spans.{IsHeaderWithin, header_bytes};
ghost use Rattle.httpdate.specs.Date.{parse_secs};
ghost use Rattle.vault_http.specs.Dates.{IsDateOfHead, date_in};

use crate::found_head::MOST_FIELDS;
use crate::named_field::{Lone, lone_value};
use base_moment::Moment;
use httparse::Status;
use httparse::spans::{EMPTY_HEADER_SPAN, HeaderSpan, parse_response};
use httpdate::HttpDate;

/// The moment that the field `Date` of the head at the front tells, if it tells one.
pub(crate) fn date_of(front: &[u8]) -> Option<Moment>
    ensures { IsDateOfHead front.now result }
{
    let mut headers = [EMPTY_HEADER_SPAN; MOST_FIELDS];
    match parse_response(front, &mut headers) {
        Ok(Status::Complete(head)) => told_in(front, &headers[..head.headers]),
        Ok(Status::Partial) => None,
        Err(_) => None,
    }
}

/// The moment that the field `Date` tells, where there is one such field.
#[tactic(auto, unfolding(crate::specs::Dates::date_name))]
fn told_in(buf: &[u8], headers: &[HeaderSpan]) -> Option<Moment>
    requires { All (IsHeaderWithin (length buf.now)) headers.now }
    ensures { result ≡ date_in (map (header_bytes buf.now) headers.now) }
{
    match lone_value(buf, headers, b"date") {
        Lone::Absent => None,
        Lone::One(value) => moment_in(value.of(buf)),
        Lone::Several(_) => None,
    }
}

/// The moment that a date tells.
fn moment_in(value: &[u8]) -> Option<Moment>
    ensures { result ≡ parse_secs value.now }
{
    let Ok(date) = HttpDate::parse_ascii(value) else {
        return None;
    };
    Moment::new(date.unix_secs())
}
