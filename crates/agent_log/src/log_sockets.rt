//! What is said of the agent's own sockets.
ghost use Rattle.std.specs.Prelude.{◌≡◌, ◌∷◌, ◌++◌, [], IfOk, codes};
ghost use Rattle.base_log.specs.declared.line.LineWord.TheVariants as kinds;
ghost use Rattle.agent_log.specs.Lines.{LineIsSaid};
ghost use Rattle.agent_log.specs.Sockets.{need_log_line, need_log_word, socket_log_line};

use crate::log_line::Pen;
use crate::log_words::text_word;
use crate::rooms::Rooms;
use agent_words::moment_word;
use base_log::{Level, LineWord};
use base_moment::{LAST, Text};
use std::alloc::{AllocError, Global};

/// Says that a client has set another need.
#[tactic(auto, using(crate::proofs::Said::missed))]
pub(crate) fn say_need(pen: &Pen, name: &[u8], until: u64, room: &mut Rooms)
    ensures { LineIsSaid pen.now.form pen.now.moment (need_log_line name.now until) room.old room.new }
{
    match need_word(pen.alloc, until) {
        Ok(until) => pen.say_of(Level::Info, "need", name, until, room),
        Err(_) => room.miss(Level::Info),
    }
}

// Until when an entry is needed. The only error is lack of memory, here and in what follows.
fn need_word(alloc: Global, until: u64) -> Result<LineWord, AllocError>
    ensures { IfOk result (λ w. w ≡ need_log_word until) }
{
    if until == LAST {
        text_word(alloc, b"always")
    } else if until == 0 {
        text_word(alloc, b"none")
    } else {
        Ok(moment_word(until))
    }
}

/// Says that a socket cannot be had, why, and what that costs.
#[tactic(auto, using(crate::proofs::Said::missed))]
pub(crate) fn say_no_socket(pen: &Pen, socket: &[u8], why: &[u8], cost: &[u8], room: &mut Rooms)
    ensures { LineIsSaid pen.now.form pen.now.moment (socket_log_line socket.now why.now cost.now) room.old room.new }
{
    match socket_words(pen.alloc, socket, why, cost) {
        Ok(words) => pen.say(Level::Alert, "socket", words, room),
        Err(_) => room.miss(Level::Alert),
    }
}

fn socket_words(
    alloc: Global,
    socket: &[u8],
    why: &[u8],
    cost: &[u8],
) -> Result<Vec<LineWord>, AllocError>
    ensures { IfOk result (λ ws. ws.items ≡ kinds.Text socket.now ∷ kinds.Text (codes "cannot be used (" ++ (why.now ++ codes "):")) ∷ kinds.Text cost.now ∷ []) }
{
    let mut words = Vec::new(alloc);
    words.push(text_word(alloc, socket)?)?;
    words.push(why_word(alloc, why)?)?;
    words.push(text_word(alloc, cost)?)?;
    Ok(words)
}

fn why_word(alloc: Global, why: &[u8]) -> Result<LineWord, AllocError>
    ensures { IfOk result (λ w. w ≡ kinds.Text (codes "cannot be used (" ++ (why.now ++ codes "):"))) }
{
    let mut text = Vec::from_slice(alloc, b"cannot be used (")?;
    text.extend_from_slice(why)?;
    text.extend_from_slice(b"):")?;
    Ok(LineWord::Text(Text::from_vec(text)))
}
