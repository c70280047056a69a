//! What is shown: a status, and what the body is.
ghost use Rattle.std.specs.Prelude.{◌≡◌, ◌++◌, IfOk, length};
ghost use Rattle.agent_pages.specs.Answers.{IsHealthPage, IsPage, IsShown, allow_line, bare, code_words, content_words, head_text, health_code, shown_well};

use crate::asked::{Method, Page};
use crate::board::Board;
use crate::family::Format;
use crate::health::is_healthy;
use crate::lines::health_text;
use crate::listing::listing_text;
use crate::metrics::metrics_text;
use base_moment::Text;
use base_words::push_number;
use std::alloc::{AllocError, Global};

/// A status of HTTP.
///
/// Source: RFC 9110, section 15; RFC 6585, section 5.
#[derive(Clone, Copy, Debug)]
pub(crate) enum Code {
    Good,
    BadRequest,
    NotFound,
    MethodNotAllowed,
    HeadTooLong,
    Unavailable,
}

/// A media type.
#[derive(Clone, Copy, Debug)]
pub(crate) enum Content {
    Metrics(Format),
    Json,
    Plain,
}

/// What is shown.
#[derive(Debug, Drop)]
pub(crate) struct Shown {
    pub(crate) code: Code,
    pub(crate) content: Content,
    pub(crate) body: Text,
}

impl Code {
    /// Its number and its phrase.
    #[tactic(auto, unfolding(crate::specs::Answers::code_words))]
    fn words(self) -> &'static str
        ensures { result.now ≡ code_words self }
    {
        match self {
            Code::Good => "200 OK",
            Code::BadRequest => "400 Bad Request",
            Code::NotFound => "404 Not Found",
            Code::MethodNotAllowed => "405 Method Not Allowed",
            Code::HeadTooLong => "431 Request Header Fields Too Large",
            Code::Unavailable => "503 Service Unavailable",
        }
    }

    /// The line that goes with it of the methods that are answered.
    fn allow_line(self) -> &'static str
        ensures { result.now ≡ allow_line self }
    {
        match self {
            Code::MethodNotAllowed => "Allow: GET, HEAD\r\n",
            _ => "",
        }
    }
}

impl Content {
    /// Its name, with its parameters.
    #[tactic(auto, unfolding(crate::specs::Answers::content_words))]
    fn words(self) -> &'static str
        ensures { result.now ≡ content_words self }
    {
        match self {
            Content::Metrics(Format::Prometheus) => "text/plain; version=0.0.4; charset=utf-8",
            Content::Metrics(Format::OpenMetrics) =>
                "application/openmetrics-text; version=1.0.0; charset=utf-8",
            Content::Json => "application/json",
            Content::Plain => "text/plain; charset=utf-8",
        }
    }
}

impl Shown {
    /// The head that is sent, whether the body is or not.
    #[tactic(auto, unfolding(crate::specs::Answers::head_text))]
    pub(crate) fn head(&self, alloc: Global) -> Result<Text, AllocError>
        ensures { IfOk result (λ text. text ≡ head_text self.now) }
    {
        let mut text = Vec::new(alloc);
        text.extend_from_slice(b"HTTP/1.1 ")?;
        text.extend_from_slice(self.code.words().as_bytes())?;
        text.extend_from_slice(b"\r\nContent-Type: ")?;
        text.extend_from_slice(self.content.words().as_bytes())?;
        text.extend_from_slice(b"\r\n")?;
        text.extend_from_slice(self.code.allow_line().as_bytes())?;
        text.extend_from_slice(b"Content-Length: ")?;
        push_number(alloc, self.body.list().len() as u64, &mut text)?;
        text.extend_from_slice(b"\r\nConnection: close\r\n\r\n")?;
        Ok(Text::from_vec(text))
    }
}

/// A status by itself.
#[tactic(auto, unfolding(crate::specs::Answers::bare))]
pub(crate) fn bare(alloc: Global, code: Code) -> Result<Shown, AllocError>
    ensures { IfOk result (λ shown. shown ≡ bare code) }
{
    let mut body = Vec::new(alloc);
    body.extend_from_slice(code.words().as_bytes())?;
    body.extend_from_slice(b"\n")?;
    Ok(Shown {
        code,
        content: Content::Plain,
        body: Text::from_vec(body),
    })
}

/// What is shown to whoever asks for a page.
#[tactic(auto, unfolding(crate::specs::Answers::IsShown))]
pub(crate) fn shown_to(
    alloc: Global,
    board: &Board,
    method: Method,
    page: Page,
) -> Result<Shown, AllocError>
    ensures { IfOk result (λ shown. IsShown board.now method page shown) }
{
    match (method, page) {
        (Method::Get | Method::Head, page) => page_of_board(alloc, board, page),
        (Method::Other, Page::Nowhere) => bare(alloc, Code::NotFound),
        (Method::Other, Page::Metrics(_) | Page::Health | Page::Listing) => {
            bare(alloc, Code::MethodNotAllowed)
        }
    }
}

/// A page of a board. The only error is out of memory.
#[tactic(auto, unfolding(crate::specs::Answers::IsPage))]
pub(crate) fn page_of_board(alloc: Global, board: &Board, page: Page) -> Result<Shown, AllocError>
    ensures { IfOk result (λ shown. IsPage board.now page shown) }
{
    match page {
        Page::Metrics(format) => {
            let body = metrics_text(alloc, format, board)?;
            Ok(shown_well(Content::Metrics(format), body))
        }
        Page::Health => health_page(alloc, board),
        Page::Listing => {
            let body = listing_text(alloc, board)?;
            Ok(shown_well(Content::Json, body))
        }
        Page::Nowhere => bare(alloc, Code::NotFound),
    }
}

/// A body with the status 200.
fn shown_well(content: Content, body: Vec<u8>) -> Shown
    ensures { result ≡ shown_well content body.items }
{
    Shown {
        code: Code::Good,
        content,
        body: Text::from_vec(body),
    }
}

/// Health, with the status that tells whether all that is needed is kept.
fn health_page(alloc: Global, board: &Board) -> Result<Shown, AllocError>
    ensures { IfOk result (λ shown. IsHealthPage board.now shown) }
{
    let body = health_text(alloc, board)?;
    Ok(Shown {
        code: health_code(board),
        content: Content::Plain,
        body: Text::from_vec(body),
    })
}

fn health_code(board: &Board) -> Code
    ensures { result ≡ health_code board.now }
{
    if is_healthy(board) {
        Code::Good
    } else {
        Code::Unavailable
    }
}
