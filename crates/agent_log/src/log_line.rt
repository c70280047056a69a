//! A line is said: written, and put into the room of the log, and that of each of those who follow it.
ghost use Rattle.std.specs.Prelude.{◌≡◌, ◌<◌, ◌∷◌, [], IfOk, OnErr, codes};
ghost use Rattle.base_log.specs.declared.line.LineWord.TheVariants as words;
ghost use Rattle.agent_log.specs.Lines.{AreSaid, IsSaid, LineIsSaid, LineIsWritten, TellsDropped, dropped_line, line_if, said_line, text_line};

use crate::log_words::{name_and, one_text, text_word};
use crate::rooms::Rooms;
use base_log::{Form, Level, LineWord, LogLine, json_of_line, text_of_line};
use base_moment::Moment;
use std::alloc::{AllocError, Global};

/// What lines are written with: memory, their form, and their moment.
#[derive(Debug, Drop)]
pub(crate) struct Pen {
    pub(crate) alloc: Global,
    pub(crate) form: Form,
    pub(crate) moment: Moment,
}

impl Pen {
    /// Says a line. Where memory is wanting for it, it is dropped and counted.
    #[tactic(auto, using(crate::proofs::Said::put_said, crate::proofs::Said::missed))]
    pub(crate) fn say(
        &self,
        level: Level,
        event: &'static str,
        words: Vec<LineWord>,
        room: &mut Rooms,
    )
        ensures { LineIsSaid self.now.form self.now.moment (said_line level event.now words.items) room.old room.new }
    {
        match self.written(level, event, words) {
            Ok(text) => room.put(self, level, &text),
            Err(_) => room.miss(level),
        }
    }

    /// Says a line of a name and a word.
    #[tactic(auto, using(crate::proofs::Said::missed))]
    pub(crate) fn say_of(
        &self,
        level: Level,
        event: &'static str,
        name: &[u8],
        word: LineWord,
        room: &mut Rooms,
    )
        ensures { LineIsSaid self.now.form self.now.moment (said_line level event.now (words.Text name.now ∷ word ∷ [])) room.old room.new }
    {
        match name_and(self.alloc, name, word) {
            Ok(words) => self.say(level, event, words, room),
            Err(_) => room.miss(level),
        }
    }

    /// Says a line of one text, a name for example.
    #[tactic(auto, using(crate::proofs::Said::missed))]
    pub(crate) fn say_text(&self, level: Level, event: &'static str, text: &[u8], room: &mut Rooms)
        ensures { LineIsSaid self.now.form self.now.moment (text_line level event.now text.now) room.old room.new }
    {
        match one_text(self.alloc, text) {
            Ok(words) => self.say(level, event, words, room),
            Err(_) => room.miss(level),
        }
    }

    /// Says a line of one text, where something is so.
    #[tactic(auto, using(crate::proofs::Said::one_said))]
    pub(crate) fn say_if(
        &self,
        is: bool,
        level: Level,
        event: &'static str,
        text: &[u8],
        room: &mut Rooms,
    )
        ensures { AreSaid self.now.form self.now.moment (line_if is (text_line level event.now text.now)) room.old room.new }
    {
        if is {
            self.say_text(level, event, text, room);
        }
    }

    /// Says a line of one text, unless memory is wanting for it: then it is not counted as dropped, but to be said again. Whether it
    /// was said.
    pub(crate) fn try_text(
        &self,
        level: Level,
        event: &'static str,
        text: &[u8],
        room: &mut Rooms,
    ) -> bool
        ensures { IsSaid result self.now.form self.now.moment (text_line level event.now text.now) room.old room.new }
    {
        match self.written_text(level, event, text) {
            Ok(written) => {
                room.put(self, level, &written);
                true
            }
            Err(_) => false,
        }
    }

    // A line of one text, as it is written.
    fn written_text(
        &self,
        level: Level,
        event: &'static str,
        text: &[u8],
    ) -> Result<Vec<u8>, AllocError>
        ensures { IfOk result (λ written. LineIsWritten self.now.form self.now.moment (text_line level event.now text.now) written.items) }
    {
        self.written(level, event, one_text(self.alloc, text)?)
    }

    /// The line that tells how many were dropped; nothing where none were. The only error is lack of memory.
    pub(crate) fn notice_of(&self, untold: u64) -> Result<Vec<u8>, AllocError>
        ensures told { IfOk result (λ notice. TellsDropped self.now.form self.now.moment untold notice.items) }
        ensures due { OnErr result (0 < untold) }
    {
        if untold == 0 {
            return Ok(Vec::new(self.alloc));
        }
        self.written(Level::Warning, "log", dropped_words(self.alloc, untold)?)
    }

    // A line as it is written.
    fn written(
        &self,
        level: Level,
        event: &'static str,
        words: Vec<LineWord>,
    ) -> Result<Vec<u8>, AllocError>
        ensures { IfOk result (λ text. LineIsWritten self.now.form self.now.moment (said_line level event.now words.items) text.items) }
    {
        let line = LogLine {
            moment: self.moment,
            level,
            event,
            words,
        };
        match self.form {
            Form::Text => text_of_line(self.alloc, &line),
            Form::Json => json_of_line(self.alloc, &line),
        }
    }
}

fn dropped_words(alloc: Global, untold: u64) -> Result<Vec<LineWord>, AllocError>
    ensures { IfOk result (λ ws. ws.items ≡ words.Text (codes "dropped") ∷ words.Number untold ∷ words.Text (codes "lines") ∷ []) }
{
    let mut words = name_and(alloc, b"dropped", LineWord::Number(untold))?;
    words.push(text_word(alloc, b"lines")?)?;
    Ok(words)
}
