//! What is said of an answer to a request.
ghost use Rattle.std.specs.Prelude.{◌≡◌};
ghost use Rattle.program_lines.specs.Text.{name_of};
ghost use Rattle.agent_log.specs.LinesOfAnswers.{answered_lines, gone_lines, link_lines, lost_log_line, noted_log_lines, reply_line, told_event, told_word, top_lines, trouble_level};
ghost use Rattle.agent_log.specs.Lines.{AreSaid, LineIsSaid};

use crate::log_line::Pen;
use crate::log_words::{name_and_loss, one_loss};
use crate::rooms::Rooms;
use agent_standing::{Agent, Trouble};
use agent_words::moment_word;
use base_log::{Level, LineWord};
use program_lines::name_of;
use vault_asking::HandedIn;
use vault_lanes::Loss;
use watch_machine::{Link, Operation, Watch, WatchReply};

/// Says what came of a request, and what is noted of that, by what was wrong with its entry before; where its entry is no more, what it
/// says of the broker.
#[tactic(auto, unfolding(crate::specs::LinesOfAnswers::answered_lines))]
pub(crate) fn say_answered(
    pen: &Pen,
    place: &[u8],
    agent: &Agent,
    handed: &HandedIn<'_>,
    before: Option<Trouble>,
    room: &mut Rooms,
)
    ensures { AreSaid pen.now.form pen.now.moment (answered_lines place.now agent.now handed.now.entry handed.now.operation handed.now.said handed.now.notes.now before) room.old room.new }
{
    if handed.entry < agent.inventory().forest().len() {
        say_reply(pen, place, agent, handed, before, room);
        say_noted(pen, place, agent, handed, before, room);
    } else {
        say_link(pen, place, handed.said.loss, handed.notes.link, room);
    }
}

// Says what came of a request.
fn say_reply(
    pen: &Pen,
    place: &[u8],
    agent: &Agent,
    handed: &HandedIn<'_>,
    before: Option<Trouble>,
    room: &mut Rooms,
)
    ensures { LineIsSaid pen.now.form pen.now.moment (reply_line place.now (name_of agent.now.inventory.forest handed.now.entry) agent.now.machine handed.now.operation before handed.now.said.loss handed.now.said.reply) room.old room.new }
{
    let name = name_of(agent.inventory().forest(), handed.entry);
    match handed.said.reply {
        WatchReply::Told { seconds, date, .. } => {
            let word = told_word(agent.watch(), handed.operation, u64::from(seconds), date);
            let event = told_event(handed.operation);
            pen.say_of(Level::Info, event, name, word, room);
        }
        WatchReply::Refused { status, .. } => {
            let level = trouble_level(before, Trouble::Refused);
            let status = LineWord::Number(u64::from(status));
            pen.say_of(level, "refused", name, status, room);
        }
        WatchReply::Busy | WatchReply::Lost => say_lost(
            pen,
            place,
            name,
            before,
            handed.said.loss,
            room,
        ),
    }
}

fn told_event(operation: Operation) -> &'static str
    ensures { result.now ≡ told_event operation }
{
    match operation {
        Operation::Look => "entry",
        Operation::Renew => "told",
    }
}

// The end that a lookup told, or the seconds that a renewal did.
#[tactic(auto, unfolding(watch_machine::specs::Clocks::sec))]
fn told_word(watch: &Watch, operation: Operation, seconds: u64, date: Option<u64>) -> LineWord
    ensures { result ≡ told_word watch.now operation seconds date }
{
    match operation {
        Operation::Look => {
            let told = date.unwrap_or(watch.broker_moment(watch.clocks().at / 1000));
            moment_word(told.saturating_add(seconds))
        }
        Operation::Renew => LineWord::Number(seconds),
    }
}

#[tactic(auto, using(crate::proofs::Said::missed))]
fn say_lost(
    pen: &Pen,
    place: &[u8],
    name: &[u8],
    before: Option<Trouble>,
    why: Loss,
    room: &mut Rooms,
)
    ensures { LineIsSaid pen.now.form pen.now.moment (lost_log_line place.now name.now before why) room.old room.new }
{
    let level = trouble_level(before, Trouble::Lost);
    match name_and_loss(pen.alloc, place, name, why) {
        Ok(words) => pen.say(level, "lost", words, room),
        Err(_) => room.miss(level),
    }
}

// How much it matters that this is wrong with an entry, by what was wrong with it before.
fn trouble_level(before: Option<Trouble>, trouble: Trouble) -> Level
    ensures { result ≡ trouble_level before trouble }
{
    match (before, trouble) {
        (Some(Trouble::Gone), _)
        | (Some(Trouble::Lost), Trouble::Lost)
        | (Some(Trouble::Refused), Trouble::Refused) => Level::Note,
        (Some(Trouble::Lost | Trouble::Refused) | None, Trouble::Gone) => Level::Alert,
        (Some(Trouble::Refused) | None, Trouble::Lost)
        | (Some(Trouble::Lost) | None, Trouble::Refused) => Level::Warning,
    }
}

// Says what is noted of an answer.
#[tactic(auto, using(crate::proofs::Said::both_said))]
fn say_noted(
    pen: &Pen,
    place: &[u8],
    agent: &Agent,
    handed: &HandedIn<'_>,
    before: Option<Trouble>,
    room: &mut Rooms,
)
    ensures { AreSaid pen.now.form pen.now.moment (noted_log_lines place.now (name_of agent.now.inventory.forest handed.now.entry) agent.now.machine before handed.now.said.loss handed.now.notes.now) room.old room.new }
{
    let name = name_of(agent.inventory().forest(), handed.entry);
    let notes = handed.notes;
    say_gone(pen, name, before, notes.gone, room);
    say_top(pen, name, agent.watch(), notes.top, room);
    pen.say_if(notes.orphan, Level::Warning, "orphan", name, room);
    pen.say_if(notes.endless, Level::Alert, "never", name, room);
    say_link(pen, place, handed.said.loss, notes.link, room);
}

#[tactic(auto, using(crate::proofs::Said::one_said))]
fn say_gone(pen: &Pen, name: &[u8], before: Option<Trouble>, gone: Option<u16>, room: &mut Rooms)
    ensures { AreSaid pen.now.form pen.now.moment (gone_lines name.now before gone) room.old room.new }
{
    if let Some(status) = gone {
        let level = trouble_level(before, Trouble::Gone);
        let status = LineWord::Number(u64::from(status));
        pen.say_of(level, "gone", name, status, room);
    }
}

#[tactic(auto, using(crate::proofs::Said::one_said))]
fn say_top(pen: &Pen, name: &[u8], watch: &Watch, top: Option<u64>, room: &mut Rooms)
    ensures { AreSaid pen.now.form pen.now.moment (top_lines name.now watch.now top) room.old room.new }
{
    if let Some(end) = top {
        let end = moment_word(watch.broker_moment(end));
        pen.say_of(Level::Note, "top", name, end, room);
    }
}

#[tactic(auto, using(crate::proofs::Said::one_said, crate::proofs::Said::missed))]
fn say_link(pen: &Pen, place: &[u8], why: Loss, link: Option<Link>, room: &mut Rooms)
    ensures { AreSaid pen.now.form pen.now.moment (link_lines place.now why link) room.old room.new }
{
    match link {
        None => {}
        Some(Link::Back) => pen.say(Level::Info, "back", Vec::new(pen.alloc), room),
        Some(Link::Away) => match one_loss(pen.alloc, place, why) {
            Ok(words) => pen.say(Level::Warning, "away", words, room),
            Err(_) => room.miss(Level::Warning),
        },
    }
}
