ghost use Rattle.std.specs.Prelude.{◌≡◌, ◌++◌, ◌∷◌, [], IfOk, OnOk};
ghost use Rattle.agent_control.specs.Replies.{control_reply_text, lines_text, reply_lines};

use base_moment::Text;
use std::alloc::{AllocError, Global};
use std::marker::Model;

/// Lines that tell more of what was done, which contracts see as lists of bytes. No line feed stands in any of them.
#[derive(Debug, Drop)]
pub struct Lines {
    items: Vec<Text>,
}

impl Model for Lines {
    ghost use Rattle.std.specs.Prelude.{List, ℕ};

    ghost Value = { List (List ℕ) };

    ghost view = { λ l. l.items.items };
}

impl Lines {
    /// These lines, in this order.
    pub fn of(items: Vec<Text>) -> Lines
        ensures { result ≡ items.items }
    {
        Lines { items }
    }

    /// The lines.
    pub fn list(&self) -> &[Text]
        ensures { result.now ≡ self.now }
    {
        &self.items
    }
}

/// What answers a request.
#[derive(Debug, Drop)]
pub enum ControlReply {
    /// It was done; these lines tell more.
    Done(Lines),
    /// It was not, for this reason, in one line; these lines give further reasons.
    Refused(Text, Lines),
}

/// The lines of a reply: `ok` and the lines that tell more, or `error: WHY` and the further reasons, each with its line feed.
///
/// The only error is out of memory.
#[tactic(auto, unfolding(crate::specs::Replies::control_reply_text))]
pub fn write_reply(alloc: Global, reply: &ControlReply) -> Result<Text, AllocError>
    ensures { IfOk result (λ text. text ≡ control_reply_text reply.now) }
{
    let mut text = Vec::new(alloc);
    push_reply(reply, &mut text)?;
    Ok(Text::from_vec(text))
}

// Appends the lines of a reply.
fn push_reply(reply: &ControlReply, text: &mut Vec<u8>) -> Result<(), AllocError>
    ensures { OnOk result (text.new.items ≡ text.old.items ++ lines_text (reply_lines reply.now)) }
{
    match reply {
        ControlReply::Done(lines) => {
            push_line(b"ok", text)?;
            push_lines(lines.list(), text)
        }
        ControlReply::Refused(why, more) => {
            text.extend_from_slice(b"error: ")?;
            push_line(why.list(), text)?;
            push_lines(more.list(), text)
        }
    }
}

// Appends lines, each with its line feed.
fn push_lines(lines: &[Text], text: &mut Vec<u8>) -> Result<(), AllocError>
    ensures { OnOk result (text.new.items ≡ text.old.items ++ lines_text lines.now) }
{
    for line in lines {
        push_line(line.list(), text)?;
    }
    Ok(())
}

// Appends a line and its line feed.
fn push_line(line: &[u8], text: &mut Vec<u8>) -> Result<(), AllocError>
    ensures { OnOk result (text.new.items ≡ text.old.items ++ (line.now ++ 10 ∷ [])) }
{
    text.extend_from_slice(line)?;
    text.push(b'\n')?;
    Ok(())
}
