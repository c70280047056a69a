//! What the first bytes of an onlooker ask for.
ghost use Rattle.std.specs.Prelude.{◌≡◌, length};
ghost use Rattle.agent_pages.specs.Accept.{takes_fields};
ghost use Rattle.agent_pages.specs.Questions.{AsksForPage, BytesAsk, IsHeadFront, format_of, method_of, page_at, page_of, path_of};

use crate::accept::{front, takes_open_metrics};
use crate::family::Format;
use base_words::cut;
use httparse::Status;
use httparse::spans::{EMPTY_HEADER_SPAN, parse_request};

/// The greatest length of a head in bytes.
pub const HEAD_MAX: usize = 8192;

/// The most fields of a head.
pub const FIELDS_MAX: usize = 64;

/// How an onlooker asks.
#[derive(Clone, Copy, Debug, PartialEq, Eq)]
pub enum Method {
    Get,
    /// The same as `Get`, without the body.
    Head,
    /// Any other.
    Other,
}

/// What an onlooker asks for.
#[derive(Clone, Copy, Debug, PartialEq, Eq)]
pub enum Page {
    /// `/metrics`, in the format that it takes.
    Metrics(Format),
    /// `/health`.
    Health,
    /// `/status`.
    Listing,
    /// Any other path.
    Nowhere,
}

/// What is to be answered.
#[derive(Clone, Copy, Debug, PartialEq, Eq)]
pub enum Question {
    /// A head was read.
    Read(Method, Page),
    /// There is no head of HTTP/1.0 or HTTP/1.1 of at most [`FIELDS_MAX`] fields, whatever follows.
    Unread,
    /// The head has more than [`HEAD_MAX`] bytes.
    TooLong,
}

/// What the bytes that came so far ask for.
#[derive(Clone, Copy, Debug, PartialEq, Eq)]
pub enum AskedPage {
    /// There is no head yet, and one may come.
    Open,
    /// All that is needed for an answer has come.
    Whole(Question),
}

/// What the bytes that an onlooker has sent so far ask for. A body is not looked at.
pub fn read_question(bytes: &[u8]) -> AskedPage
    ensures { BytesAsk bytes.now result }
{
    match read_front(front(bytes, HEAD_MAX)) {
        Front::Open if bytes.len() >= HEAD_MAX => AskedPage::Whole(Question::TooLong),
        Front::Open => AskedPage::Open,
        Front::Unread => AskedPage::Whole(Question::Unread),
        Front::Read(method, page) => AskedPage::Whole(Question::Read(method, page)),
    }
}

/// What bytes that may be looked at begin with.
#[derive(Clone, Copy, Debug)]
enum Front {
    Open,
    Unread,
    Read(Method, Page),
}

fn read_front(bytes: &[u8]) -> Front
    ensures { IsHeadFront bytes.now result }
{
    let mut headers = [EMPTY_HEADER_SPAN; FIELDS_MAX];
    match parse_request(bytes, &mut headers) {
        Ok(Status::Complete(head)) => {
            let takes_open = takes_open_metrics(bytes, &headers[..head.headers]);
            let page = page_of(head.path.of(bytes), takes_open);
            Front::Read(method_of(head.method.of(bytes)), page)
        }
        Ok(Status::Partial) => Front::Open,
        Err(_) => Front::Unread,
    }
}

#[tactic(auto, unfolding(crate::specs::Questions::method_of))]
fn method_of(method: &[u8]) -> Method
    ensures { result ≡ method_of method.now }
{
    if method == b"GET".as_slice() {
        Method::Get
    } else if method == b"HEAD".as_slice() {
        Method::Head
    } else {
        Method::Other
    }
}

/// The page of a target.
fn page_of(target: &[u8], takes_open: bool) -> Page
    ensures { result ≡ page_of target.now takes_open }
{
    page_at(path_of(target), takes_open)
}

/// What stands before the first question mark.
#[tactic(auto, unfolding(crate::specs::Questions::path_of))]
fn path_of(target: &[u8]) -> &[u8]
    ensures { result.now ≡ path_of target.now }
{
    match cut(target, b'?') {
        Some((path, _)) => path,
        None => target,
    }
}

#[tactic(auto, unfolding(crate::specs::Questions::page_at))]
fn page_at(path: &[u8], takes_open: bool) -> Page
    ensures { result ≡ page_at path.now takes_open }
{
    if path == b"/metrics".as_slice() {
        Page::Metrics(format_of(takes_open))
    } else if path == b"/health".as_slice() {
        Page::Health
    } else if path == b"/status".as_slice() {
        Page::Listing
    } else {
        Page::Nowhere
    }
}

fn format_of(takes_open: bool) -> Format
    ensures { result ≡ format_of takes_open }
{
    if takes_open {
        Format::OpenMetrics
    } else {
        Format::Prometheus
    }
}
