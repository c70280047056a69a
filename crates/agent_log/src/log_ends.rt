//! What is said of the file of the ends.
ghost use Rattle.std.specs.Prelude.{◌≡◌, ◌∷◌, [], IfOk};
ghost use Rattle.base_log.specs.declared.line.LineWord.TheVariants as kinds;
ghost use Rattle.agent_log.specs.LogDesk.{SaysLines};
ghost use Rattle.agent_log.specs.LinesOfEnds.{HearsUnread, ends_line, tried_lines, unkept_line, unread_line};
ghost use Rattle.agent_log.specs.Lines.{LineIsSaid};
ghost use Rattle.agent_words.specs.Reasons.{disk_words};

use crate::desk::Desk;
use crate::log_line::Pen;
use crate::log_words::{one_text, text_word};
use crate::rooms::Rooms;
use agent_standing::Agent;
use agent_words::disk_words;
use base_clock::Reading;
use base_disk::DiskFault;
use base_log::{Level, LineWord};
use std::alloc::{AllocError, Global};

impl Desk {
    /// Says that the ends from before the start cannot be read, at a moment at which the agent may have heard no clock yet.
    pub fn hear_unread(&mut self, alloc: Global, now: Reading, fault: DiskFault)
        ensures { HearsUnread now fault self.old self.new }
    {
        let pen = self.pen_at(alloc, now);
        say_unread(&pen, fault, &mut self.room);
    }

    /// Says that the ends could not be kept, where that is so and was not so before.
    #[tactic(auto, using(crate::proofs::Said::one_said))]
    pub fn hear_tried(
        &mut self,
        alloc: Global,
        agent: &Agent,
        was_failing: bool,
        tried: Option<Result<(), DiskFault>>,
    )
        ensures { SaysLines agent.now (tried_lines was_failing tried) self.old.marks self.old self.new }
    {
        if let Some(Err(fault)) = tried {
            if !was_failing {
                let pen = self.pen(alloc, agent);
                say_unkept(&pen, fault, &mut self.room);
            }
        }
    }
}

// Says that the ends from before the start cannot be read.
fn say_unread(pen: &Pen, fault: DiskFault, room: &mut Rooms)
    ensures { LineIsSaid pen.now.form pen.now.moment (unread_line fault) room.old room.new }
{
    say_ends(pen, Level::Alert, b"cannot be read:", fault, room);
}

// Says that the ends could not be kept.
fn say_unkept(pen: &Pen, fault: DiskFault, room: &mut Rooms)
    ensures { LineIsSaid pen.now.form pen.now.moment (unkept_line fault) room.old room.new }
{
    say_ends(pen, Level::Note, b"could not be kept:", fault, room);
}

// Says what is wrong with the ends, and why.
#[tactic(auto, using(crate::proofs::Said::missed))]
fn say_ends(pen: &Pen, level: Level, what: &[u8], fault: DiskFault, room: &mut Rooms)
    ensures { LineIsSaid pen.now.form pen.now.moment (ends_line level what.now fault) room.old room.new }
{
    match fault_words(pen.alloc, what, fault) {
        Ok(words) => pen.say(level, "ends", words, room),
        Err(_) => room.miss(level),
    }
}

fn fault_words(alloc: Global, what: &[u8], fault: DiskFault) -> Result<Vec<LineWord>, AllocError>
    ensures { IfOk result (λ ws. ws.items ≡ kinds.Text what.now ∷ kinds.Text (disk_words fault) ∷ []) }
{
    let mut words = one_text(alloc, what)?;
    words.push(text_word(alloc, disk_words(fault))?)?;
    Ok(words)
}
