//! What is said in the log before anything else.
ghost use Rattle.std.specs.Prelude.{◌≡◌, ◌∷◌, ◌++◌, [], IfOk, OnOk, decimal, map};
ghost use Rattle.agent_system.specs.Saying.{BeginsDesk, SaysBehind, said_as};

use agent_log::{Desk, say_at_start};
use agent_words::{About, SaidLine};
use base_clock::Reading;
use base_log::{Form, Level};
use base_moment::Text;
use base_words::push_number;
use std::alloc::{AllocError, Global};

/// Says that the agent stands behind another, and with which margin, in seconds. Where memory is wanting it is not said.
#[tactic(auto, using(crate::proofs::Saying::wants_words))]
pub fn say_behind(alloc: Global, desk: &mut Desk, now: Reading, margin: u32)
    ensures { SaysBehind now margin desk.old desk.new }
{
    if let Ok(text) = margin_text(alloc, margin) {
        desk.hear_at_start(alloc, now, Level::Info, "behind", &text);
    }
}

fn margin_text(alloc: Global, margin: u32) -> Result<Vec<u8>, AllocError>
    ensures { IfOk result (λ text. text.items ≡ decimal margin) }
{
    let mut text = Vec::new(alloc);
    push_number(alloc, u64::from(margin), &mut text)?;
    Ok(text)
}

/// Appends what is said: its level, what it is about, and its words. The only error is lack of memory.
pub fn push(
    said: &mut Vec<SaidLine>,
    level: Level,
    about: About,
    text: Text,
) -> Result<(), AllocError>
    ensures { OnOk result (said.new.items ≡ said.old.items ++ record { level = level; about = about; text = text } ∷ []) }
{
    Ok(said.push(SaidLine { level, about, text })?)
}

/// Appends each of these texts, at one level and about one thing. The only error is lack of memory: then some of them may be there.
pub fn push_each(
    said: &mut Vec<SaidLine>,
    level: Level,
    about: About,
    texts: Vec<Text>,
) -> Result<(), AllocError>
    ensures { OnOk result (said.new.items ≡ said.old.items ++ map (said_as level about) texts.items) }
{
    for text in texts {
        push(said, level, about, text)?;
    }
    Ok(())
}

/// The log of an agent with so many entries, whose broker is reached at this place, with what is said at the start. The only error is
/// lack of memory.
pub fn desk_of(
    alloc: Global,
    form: Form,
    place: Vec<u8>,
    count: u32,
    now: Reading,
    said: &[SaidLine],
) -> Result<Desk, AllocError>
    ensures { IfOk result (BeginsDesk form place.items count now said.now) }
{
    let mut desk = Desk::new(alloc, form, place, count)?;
    say_at_start(alloc, now, said, &mut desk);
    Ok(desk)
}
