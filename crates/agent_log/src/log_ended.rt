//! Ends that are past while their entries are needed.
ghost use Rattle.std.specs.Prelude.{◌≡◌, ◌<◌, length};
ghost use Rattle.agent_log.specs.LinesOfClocks.{end_in, ended_line, ended_lines, has_entry_ended, is_ended, is_past_end, carried_mark, marks_anew, marks_clocked, trouble_at, with_ended};
ghost use Rattle.agent_log.specs.Lines.{AreSaid};

use crate::log_line::Pen;
use crate::mark::Mark;
use crate::rooms::Rooms;
use agent_standing::{Agent, Condition, Trouble};
use agent_words::moment_word;
use base_log::Level;
use program_lines::name_of;

/// Says which entries have ended while they are needed, where that was not said.
pub(crate) fn say_ended(pen: &Pen, agent: &Agent, marks: &[Mark], room: &mut Rooms)
    ensures { AreSaid pen.now.form pen.now.moment (ended_lines agent.now 0 marks.now) room.old room.new }
{
    for entry in 0..marks.len() {
        say_end(pen, agent, entry, marks[entry], room);
    }
}

// Says that an entry has ended, where that is so and was not said.
#[tactic(auto, using(crate::proofs::Said::one_said))]
fn say_end(pen: &Pen, agent: &Agent, entry: usize, mark: Mark, room: &mut Rooms)
    ensures { AreSaid pen.now.form pen.now.moment (ended_line agent.now entry mark) room.old room.new }
{
    let names = agent.inventory().forest();
    if entry >= names.len() as usize {
        return;
    }
    let entry = entry as u32;
    if is_past_end(agent, entry) && !mark.is_ended {
        let end = moment_word(end_in(agent.status(entry).end));
        let name = name_of(names, entry);
        pen.say_of(Level::Alert, "ended", name, end, room);
    }
}

// Whether the end of an entry is past, which its table still needs.
#[tactic(auto, unfolding(watch_machine::specs::Clocks::sec))]
fn has_ended(agent: &Agent, entry: usize) -> bool
    ensures { result ≡ has_entry_ended agent.now entry }
{
    if entry >= agent.inventory().forest().len() as usize {
        return false;
    }
    is_past_end(agent, entry as u32)
}

// The same of an entry that there is.
#[tactic(auto, unfolding(watch_machine::specs::Clocks::sec))]
fn is_past_end(agent: &Agent, entry: u32) -> bool
    requires { entry < length agent.now.inventory.forest.entries }
    ensures { result ≡ is_past_end agent.now entry }
{
    let watch = agent.watch();
    let now = watch.broker_moment(watch.clocks().at / 1000);
    is_ended(agent.status(entry).condition) && now < watch.forest().get(entry).need
}

fn is_ended(condition: Condition) -> bool
    ensures { result ≡ is_ended condition }
{
    match condition {
        Condition::Ended => true,
        Condition::Gone | Condition::Short | Condition::Trying | Condition::Kept => false,
    }
}

fn end_in(end: Option<u64>) -> u64
    ensures { result ≡ end_in end }
{
    end.unwrap_or(0)
}

/// Marks which entries have ended while they are needed.
pub(crate) fn mark_ended(agent: &Agent, marks: &mut [Mark])
    ensures { marks.new ≡ marks_clocked agent.now marks.old }
{
    for entry in 0..marks.len() {
        marks[entry] = with_ended(agent, entry, marks[entry]);
    }
}

/// Makes these the marks of an agent that serves another inventory from now on: what was said of an entry that it served before is
/// carried over.
pub(crate) fn mark_anew(agent: &Agent, marks: &mut [Mark])
    ensures { marks.new ≡ marks_anew agent.now (length marks.old) }
{
    for entry in 0..marks.len() {
        marks[entry] = carried_mark(agent, entry);
    }
}

fn carried_mark(agent: &Agent, entry: usize) -> Mark
    ensures { result ≡ carried_mark agent.now entry }
{
    Mark {
        trouble: trouble_at(agent, entry),
        is_ended: has_ended(agent, entry),
        steps_in: false,
    }
}

/// What is wrong with an entry, of those that there are.
pub(crate) fn trouble_at(agent: &Agent, entry: usize) -> Option<Trouble>
    ensures { result ≡ trouble_at agent.now entry }
{
    if entry >= agent.inventory().forest().len() as usize {
        return None;
    }
    agent.standing(entry as u32).trouble
}

fn with_ended(agent: &Agent, entry: usize, mark: Mark) -> Mark
    ensures { result ≡ with_ended agent.now entry mark }
{
    Mark {
        is_ended: has_ended(agent, entry),
        ..mark
    }
}
