//! What is said of files of credentials.
ghost use Rattle.std.specs.Prelude.{◌≡◌, ◌++◌, IfOk, codes};
ghost use Rattle.base_log.specs.declared.line.LineWord.TheVariants as kinds;
ghost use Rattle.agent_log.specs.LogDesk.{SaysLines};
ghost use Rattle.agent_log.specs.Lines.{AreSaid, LineIsSaid};
ghost use Rattle.agent_log.specs.LookupLosses.{line_with_loss};
ghost use Rattle.agent_log.specs.SecretLines.{event_of_secret, level_of, look_lines, news_lines, secret_news_line, text_of, trouble_text, want_lines};

use crate::desk::Desk;
use crate::log_clock::say_memory;
use crate::log_line::Pen;
use crate::log_words::text_word;
use crate::lookup_loss::line_with_loss;
use crate::rooms::Rooms;
use agent_standing::Agent;
use agent_words::{endless_text, status_text};
use base_log::{Level, LineWord};
use base_moment::Text;
use state_secrets::{Looked, SecretNews, SecretTrouble, SecretWord};
use std::alloc::{AllocError, Global};
use vault_lanes::Loss;

impl Desk {
    /// Says what came of a look at files of credentials; `unproved` is why the broker has said nothing of what is taken, where it has not.
    pub fn hear_look(
        &mut self,
        alloc: Global,
        agent: &Agent,
        looked: &Looked,
        unproved: Option<Loss>,
    )
        ensures { SaysLines agent.now (look_lines looked.now unproved) self.old.marks self.old self.new }
    {
        let pen = self.pen(alloc, agent);
        say_look(&pen, looked, unproved, &mut self.room);
    }
}

#[tactic(auto, using(crate::proofs::Said::both_said), unfolding(crate::specs::SecretLines::look_lines))]
fn say_look(pen: &Pen, looked: &Looked, unproved: Option<Loss>, room: &mut Rooms)
    ensures { AreSaid pen.now.form pen.now.moment (look_lines looked.now unproved) room.old room.new }
{
    say_news(pen, &looked.news, unproved, room);
    say_want(pen, looked.is_enough, room);
}

#[tactic(auto, using(crate::proofs::Said::one_said))]
fn say_news(pen: &Pen, news: &Option<SecretNews>, unproved: Option<Loss>, room: &mut Rooms)
    ensures { AreSaid pen.now.form pen.now.moment (news_lines news.now unproved) room.old room.new }
{
    if let Some(news) = news {
        say_word(pen, news.name.list(), news.what, unproved, room);
    }
}

fn say_want(pen: &Pen, is_enough: bool, room: &mut Rooms)
    ensures { AreSaid pen.now.form pen.now.moment (want_lines is_enough) room.old room.new }
{
    if !is_enough {
        say_memory(pen, room);
    }
}

// Says what became of the file of an entry.
#[tactic(auto, using(crate::proofs::Said::missed))]
fn say_word(pen: &Pen, name: &[u8], what: SecretWord, unproved: Option<Loss>, room: &mut Rooms)
    ensures { LineIsSaid pen.now.form pen.now.moment (secret_news_line name.now what unproved) room.old room.new }
{
    let level = level_of(what);
    match word_of(pen.alloc, what, unproved) {
        Ok(word) => pen.say_of(level, event_of(what), name, word, room),
        Err(_) => room.miss(level),
    }
}

fn level_of(what: SecretWord) -> Level
    ensures { result ≡ level_of what }
{
    match what {
        SecretWord::Taken | SecretWord::Mended => Level::Info,
        SecretWord::Kept(_) => Level::Warning,
        SecretWord::Without(_) => Level::Alert,
    }
}

fn event_of(what: SecretWord) -> &'static str
    ensures { result.now ≡ event_of_secret what }
{
    match what {
        SecretWord::Taken => "replace",
        SecretWord::Mended | SecretWord::Kept(_) | SecretWord::Without(_) => "secret-file",
    }
}

fn word_of(alloc: Global, what: SecretWord, unproved: Option<Loss>) -> Result<LineWord, AllocError>
    ensures { IfOk result (λ w. w ≡ kinds.Text (text_of what unproved)) }
{
    match what {
        SecretWord::Taken => taken_word(alloc, unproved),
        SecretWord::Mended => text_word(alloc, b"holds the old one again"),
        SecretWord::Kept(trouble) => trouble_word(alloc, trouble, b": it keeps the old one"),
        SecretWord::Without(trouble) => trouble_word(
            alloc,
            trouble,
            b": it is not kept until the file holds its secret",
        ),
    }
}

// That it is taken, and why the broker has said nothing of it, where it has not.
fn taken_word(alloc: Global, unproved: Option<Loss>) -> Result<LineWord, AllocError>
    ensures { IfOk result (λ w. w ≡ kinds.Text (line_with_loss unproved (codes "by its file"))) }
{
    let text = Text::of(alloc, b"by its file")?;
    Ok(LineWord::Text(line_with_loss(alloc, text, unproved)?))
}

// What is wrong, and what that means.
fn trouble_word(alloc: Global, trouble: SecretTrouble, so: &[u8]) -> Result<LineWord, AllocError>
    ensures { IfOk result (λ w. w ≡ kinds.Text (trouble_text trouble ++ so.now)) }
{
    let mut text = trouble_text(alloc, trouble)?;
    text.extend_from_slice(so)?;
    Ok(LineWord::Text(Text::from_vec(text)))
}

fn trouble_text(alloc: Global, trouble: SecretTrouble) -> Result<Vec<u8>, AllocError>
    ensures { IfOk result (λ text. text.items ≡ trouble_text trouble) }
{
    match trouble {
        SecretTrouble::Unread => Vec::from_slice(alloc, b"cannot be read"),
        SecretTrouble::NotRegular => Vec::from_slice(alloc, b"is not a regular file"),
        SecretTrouble::NoSecret => Vec::from_slice(
            alloc,
            b"holds no secret of 1 to 256 printable ASCII characters",
        ),
        SecretTrouble::Another => Vec::from_slice(alloc, b"holds what another entry has"),
        SecretTrouble::TooLong => Vec::from_slice(alloc, b"makes the inventory over 1048576 bytes"),
        SecretTrouble::Endless => endless_text(alloc),
        SecretTrouble::Refused(status) => status_text(alloc, status),
    }
}
