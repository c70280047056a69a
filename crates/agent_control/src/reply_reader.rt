ghost use Rattle.std.specs.Prelude.{◌≡◌, IfOk, Some, option_map};
ghost use Rattle.agent_control.specs.Replies.{lines_of_text, refusal_of, refused_in, reply_in_lines, reply_in_text};

use crate::reply::{ControlReply, Lines};
use base_moment::Text;
use base_words::cut;
use std::alloc::{AllocError, Global};

/// The reply that the bytes are which came before the connection was closed; `None` where they are none, or a part of one that
/// ends within a line.
///
/// The only error is out of memory.
#[tactic(auto, unfolding(crate::specs::Replies::reply_in_text))]
pub fn read_reply(alloc: Global, bytes: &[u8]) -> Result<Option<ControlReply>, AllocError>
    ensures { IfOk result (λ reply. reply ≡ reply_in_text bytes.now) }
{
    match lines(alloc, bytes)? {
        None => Ok(None),
        Some(lines) => said(alloc, lines),
    }
}

// The reply that lines are.
fn said(alloc: Global, mut lines: Vec<Text>) -> Result<Option<ControlReply>, AllocError>
    ensures { IfOk result (λ reply. reply ≡ reply_in_lines lines.items) }
{
    if lines.is_empty() {
        return Ok(None);
    }
    let first = lines.remove(0);
    if first.list() == b"ok".as_slice() {
        return Ok(Some(ControlReply::Done(Lines::of(lines))));
    }
    refused(alloc, first.list(), Lines::of(lines))
}

// The refusal that a line is, with the lines after it.
fn refused(alloc: Global, line: &[u8], more: Lines) -> Result<Option<ControlReply>, AllocError>
    ensures { IfOk result (λ reply. reply ≡ refused_in line.now more) }
{
    match refusal(line) {
        None => Ok(None),
        Some(why) => Ok(Some(ControlReply::Refused(Text::of(alloc, why)?, more))),
    }
}

// The reason on the line of a refusal.
#[tactic(auto, unfolding(crate::specs::Replies::refusal_of))]
fn refusal(line: &[u8]) -> Option<&[u8]>
    ensures { option_map (λ why. why.now) result ≡ refusal_of line.now }
{
    if line.len() >= 7 && &line[..7] == b"error: ".as_slice() {
        Some(&line[7..])
    } else {
        None
    }
}

// The lines of a text, where each has its line feed.
#[tactic(auto, unfolding(crate::specs::Replies::lines_of_text))]
fn lines(alloc: Global, text: &[u8]) -> Result<Option<Vec<Text>>, AllocError>
    ensures { IfOk result (λ lines. option_map (λ v. v.items) lines ≡ lines_of_text text.now) }
{
    let mut lines = Vec::new(alloc);
    let mut rest = text;
    while let Some((line, after)) = cut(rest, b'\n') {
        lines.push(Text::of(alloc, line)?)?;
        rest = after;
    }
    Ok(if rest.is_empty() { Some(lines) } else { None })
}
