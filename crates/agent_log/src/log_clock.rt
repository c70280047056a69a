//! What is said once the time was handed in, and of needs that cannot be kept.
ghost use Rattle.std.specs.Prelude.{◌∷◌, [], ◌≡◌, Some, map};
ghost use Rattle.agent_log.specs.LinesOfClocks.{asked_log_lines, begin_lines, clocked_lines, is_operation_asked, memory_line, short_log_line, short_log_lines, wake_lines, why_text};
ghost use Rattle.agent_log.specs.Lines.{AreSaid, LineIsSaid};

use crate::log_ended::say_ended;
use crate::log_line::Pen;
use crate::log_words::{asked_words, is_same, word_and_names};
use crate::mark::Mark;
use crate::rooms::Rooms;
use agent_standing::{Agent, Short};
use agent_words::moment_word;
use base_log::Level;
use plan_forest::{Forest, Indices};
use program_lines::name_of;
use watch_machine::{BeginReason, Notes, Operation, WatchRequest};

/// Says what is noted of the time, whom is asked what, and whose ends are past.
#[tactic(auto, using(crate::proofs::Said::both_said), unfolding(crate::specs::LinesOfClocks::clocked_lines))]
pub(crate) fn say_clocked(
    pen: &Pen,
    agent: &Agent,
    notes: &Notes,
    requests: &[WatchRequest],
    marks: &[Mark],
    room: &mut Rooms,
)
    ensures { AreSaid pen.now.form pen.now.moment (clocked_lines agent.now notes.now requests.now marks.now) room.old room.new }
{
    say_begin(pen, notes.began, room);
    say_wake(pen, agent, &notes.round, room);
    let names = agent.inventory().forest();
    say_asked(pen, names, "look", Operation::Look, requests, room);
    say_asked(pen, names, "renew", Operation::Renew, requests, room);
    say_ended(pen, agent, marks, room);
}

// Says why everything is looked up anew, where it is.
#[tactic(auto, using(crate::proofs::Said::one_said))]
fn say_begin(pen: &Pen, began: Option<BeginReason>, room: &mut Rooms)
    ensures { AreSaid pen.now.form pen.now.moment (begin_lines began) room.old room.new }
{
    if let Some(why) = began {
        pen.say_text(Level::Info, "begin", why_text(why), room);
    }
}

fn why_text(why: BeginReason) -> &'static [u8]
    ensures { result.now ≡ why_text why }
{
    match why {
        BeginReason::Start => b"start",
        BeginReason::Asked => b"asked",
        BeginReason::Jump => b"jump",
        BeginReason::Day => b"day",
    }
}

// Says the round that opens, where one does.
#[tactic(auto, using(crate::proofs::Said::one_said, crate::proofs::Said::missed), unfolding(watch_machine::specs::Clocks::sec))]
fn say_wake(pen: &Pen, agent: &Agent, round: &Option<Indices>, room: &mut Rooms)
    ensures { AreSaid pen.now.form pen.now.moment (wake_lines agent.now round.now) room.old room.new }
{
    if let Some(asked) = round {
        say_round(pen, agent, asked.list(), room);
    }
}

#[tactic(auto, using(crate::proofs::Said::one_said, crate::proofs::Said::missed), unfolding(watch_machine::specs::Clocks::sec))]
fn say_round(pen: &Pen, agent: &Agent, asked: &[u32], room: &mut Rooms)
    ensures { AreSaid pen.now.form pen.now.moment (wake_lines agent.now (Some asked.now)) room.old room.new }
{
    let watch = agent.watch();
    let moment = moment_word(watch.broker_moment(watch.clocks().at / 1000));
    match word_and_names(pen.alloc, moment, agent.inventory().forest(), asked) {
        Ok(words) => pen.say(Level::Info, "wake", words, room),
        Err(_) => room.miss(Level::Info),
    }
}

// Says of whom this is asked, where it is of somebody.
#[tactic(auto, using(crate::proofs::Said::one_said, crate::proofs::Said::missed))]
fn say_asked(
    pen: &Pen,
    names: &Forest,
    event: &'static str,
    operation: Operation,
    requests: &[WatchRequest],
    room: &mut Rooms,
)
    ensures { AreSaid pen.now.form pen.now.moment (asked_log_lines names.now event.now operation requests.now) room.old room.new }
{
    if !is_asked(operation, requests) {
        return;
    }
    match asked_words(pen.alloc, names, operation, requests) {
        Ok(words) => pen.say(Level::Info, event, words, room),
        Err(_) => room.miss(Level::Info),
    }
}

// Whether this is asked of somebody.
fn is_asked(operation: Operation, requests: &[WatchRequest]) -> bool
    ensures { result ≡ is_operation_asked operation requests.now }
{
    requests
        .iter()
        .any(|request| is_same(request.operation, operation))
}

/// Says which needs are past what their entries reach.
#[tactic(auto, unfolding(crate::specs::LinesOfClocks::short_log_lines))]
pub(crate) fn say_shorts(pen: &Pen, agent: &Agent, shorts: &[Short], room: &mut Rooms)
    ensures { AreSaid pen.now.form pen.now.moment (short_log_lines agent.now shorts.now) room.old room.new }
{
    say_each_short(pen, agent.inventory().forest(), shorts, room);
}

fn say_each_short(pen: &Pen, names: &Forest, shorts: &[Short], room: &mut Rooms)
    ensures { AreSaid pen.now.form pen.now.moment (map (short_log_line names.now) shorts.now) room.old room.new }
{
    for short in shorts {
        say_short(pen, names, *short, room);
    }
}

fn say_short(pen: &Pen, names: &Forest, short: Short, room: &mut Rooms)
    ensures { LineIsSaid pen.now.form pen.now.moment (short_log_line names.now short) room.old room.new }
{
    let reach = moment_word(short.reach);
    let name = name_of(names, short.entry);
    let level = if short.reissued {
        Level::Alert
    } else {
        Level::Warning
    };
    pen.say_of(level, "short", name, reach, room);
}

/// Says that memory was refused.
#[tactic(auto, using(crate::proofs::Said::one_said))]
pub(crate) fn say_memory(pen: &Pen, room: &mut Rooms)
    ensures { AreSaid pen.now.form pen.now.moment (memory_line ∷ []) room.old room.new }
{
    pen.say_text(Level::Warning, "memory", b"refused", room);
}
