//! What is said of the next time of an entry.
ghost use Rattle.std.specs.Prelude.{◌≡◌, ◌∷◌, [], IfOk};
ghost use Rattle.base_log.specs.declared.line.LineWord.TheVariants as kinds;
ghost use Rattle.agent_log.specs.LogDesk.{SaysLines};
ghost use Rattle.agent_log.specs.Lines.{LineIsSaid};
ghost use Rattle.agent_words.specs.Moments.{moment_word};
ghost use Rattle.agent_log.specs.LinesOfNexts.{is_same_next, next_lines, next_log_line, was_next_said};

use crate::desk::Desk;
use crate::log_line::Pen;
use crate::log_words::{one_word, text_word};
use crate::rooms::Rooms;
use agent_standing::Agent;
use agent_words::moment_word;
use base_log::{Level, LineWord};
use program_lines::name_of;
use std::alloc::{AllocError, Global};
use watch_machine::Next;

impl Desk {
    /// Says the next time of an entry, by the broker's clock, where it is another than was said last.
    #[tactic(auto, using(crate::proofs::Said::one_said))]
    pub fn hear_next(
        &mut self,
        alloc: Global,
        agent: &Agent,
        last: Option<Option<Next>>,
        next: Option<Next>,
    )
        ensures { SaysLines agent.now (next_lines agent.now last next) self.old.marks self.old self.new }
    {
        if !was_said(last, next) {
            let pen = self.pen(alloc, agent);
            say_next(&pen, agent, next, &mut self.room);
        }
    }
}

// Says the next time of an entry, by the broker's clock.
#[tactic(auto, using(crate::proofs::Said::missed))]
fn say_next(pen: &Pen, agent: &Agent, next: Option<Next>, room: &mut Rooms)
    ensures { LineIsSaid pen.now.form pen.now.moment (next_log_line agent.now next) room.old room.new }
{
    let Some(next) = next else {
        pen.say_text(Level::Info, "next", b"none", room);
        return;
    };
    let name = name_of(agent.inventory().forest(), next.entry);
    match next_words(pen.alloc, next.at, name) {
        Ok(words) => pen.say(Level::Info, "next", words, room),
        Err(_) => room.miss(Level::Info),
    }
}

fn next_words(alloc: Global, at: u64, name: &[u8]) -> Result<Vec<LineWord>, AllocError>
    ensures { IfOk result (λ ws. ws.items ≡ moment_word at ∷ kinds.Text name.now ∷ []) }
{
    let mut words = one_word(alloc, moment_word(at))?;
    words.push(text_word(alloc, name)?)?;
    Ok(words)
}

// Whether that was said last.
fn was_said(last: Option<Option<Next>>, next: Option<Next>) -> bool
    ensures { result ≡ was_next_said last next }
{
    match (last, next) {
        (None, _) | (Some(None), Some(_)) | (Some(Some(_)), None) => false,
        (Some(None), None) => true,
        (Some(Some(last)), Some(next)) => is_next(last, next),
    }
}

fn is_next(a: Next, b: Next) -> bool
    ensures { result ≡ is_same_next a b }
{
    a.at == b.at && a.entry == b.entry
}
