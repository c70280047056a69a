//! What an agent says that stands behind another.
ghost use Rattle.std.specs.Prelude.{◌≡◌};
ghost use Rattle.agent_log.specs.Lines.{AreSaid, LineIsSaid};
ghost use Rattle.agent_log.specs.LinesBehind.{ahead_line, is_first_step, is_step, steps_in_count, steps_in_line, steps_in_lines, with_step, with_step_by, with_steps};

use crate::log_line::Pen;
use crate::log_words::is_same;
use crate::mark::{Mark, mark_at, set_mark};
use crate::rooms::Rooms;
use agent_standing::Agent;
use base_log::{Level, LineWord};
use program_lines::name_of;
use watch_machine::{Millis, Operation, Watch, WatchRequest};

/// Says that an entry was looked up, and how many seconds it has left.
#[tactic(auto, unfolding(watch_machine::specs::Clocks::sec))]
pub(crate) fn say_ahead(pen: &Pen, agent: &Agent, entry: u32, end: u64, room: &mut Rooms)
    ensures { LineIsSaid pen.now.form pen.now.moment (ahead_line agent.now entry end) room.old room.new }
{
    let left = LineWord::Number(end.saturating_sub(agent.watch().clocks().at / 1000));
    let name = name_of(agent.inventory().forest(), entry);
    pen.say_of(Level::Info, "ahead", name, left, room);
}

/// Says for which entries the agent steps in, where that was not said.
pub(crate) fn say_steps(
    pen: &Pen,
    agent: &Agent,
    lead: Millis,
    requests: &[WatchRequest],
    marks: &[Mark],
    room: &mut Rooms,
)
    ensures { AreSaid pen.now.form pen.now.moment (steps_in_lines agent.now lead marks.now requests.now) room.old room.new }
{
    for request in requests {
        say_step(pen, agent, lead, *request, marks, room);
    }
}

// Says so of the entry of a request, where that is a renewal by which the agent steps in.
fn say_step(
    pen: &Pen,
    agent: &Agent,
    lead: Millis,
    request: WatchRequest,
    marks: &[Mark],
    room: &mut Rooms,
)
    ensures { AreSaid pen.now.form pen.now.moment (steps_in_line agent.now lead marks.now request) room.old room.new }
{
    let is_first = is_first_step(agent.watch(), lead, request, marks);
    let name = name_of(agent.inventory().forest(), request.entry);
    pen.say_if(is_first, Level::Warning, "steps-in", name, room);
}

/// Of how many entries that is said.
pub(crate) fn count_steps(
    watch: &Watch,
    lead: Millis,
    requests: &[WatchRequest],
    marks: &[Mark],
) -> usize
    ensures { result ≡ steps_in_count watch.now lead marks.now requests.now }
{
    requests
        .iter()
        .filter(|request| is_first_step(watch, lead, **request, marks))
        .count()
}

// Whether the agent steps in by it for an entry of which that was not said.
fn is_first_step(watch: &Watch, lead: Millis, request: WatchRequest, marks: &[Mark]) -> bool
    ensures { result ≡ is_first_step watch.now lead marks.now request }
{
    is_step(watch, lead, request) && !mark_at(marks, request.entry).steps_in
}

// Whether it is a renewal of an entry of which the look moment has come. One that a round asks along before that may still be renewed in front.
fn is_step(watch: &Watch, lead: Millis, request: WatchRequest) -> bool
    ensures { result ≡ is_step watch.now lead request }
{
    is_same(request.operation, Operation::Renew)
        && request.entry < watch.forest().len()
        && (watch.time_of(request.entry) * 1000).saturating_sub(lead) <= watch.clocks().at
}

/// Marks the entries of which that was said.
pub(crate) fn mark_steps(watch: &Watch, lead: Millis, requests: &[WatchRequest], marks: &mut [Mark])
    ensures { marks.new ≡ with_steps watch.now lead requests.now marks.old }
{
    for request in requests {
        mark_step(watch, lead, *request, marks);
    }
}

fn mark_step(watch: &Watch, lead: Millis, request: WatchRequest, marks: &mut [Mark])
    ensures { marks.new ≡ with_step_by watch.now lead request marks.old }
{
    if is_step(watch, lead, request) {
        set_step(marks, request.entry, true);
    }
}

/// Sets whether it was said of an entry, where there is a mark of it.
pub(crate) fn set_step(marks: &mut [Mark], entry: u32, steps_in: bool)
    ensures { marks.new ≡ with_step entry steps_in marks.old }
{
    let mark = Mark {
        steps_in,
        ..mark_at(marks, entry)
    };
    set_mark(marks, entry, mark);
}
