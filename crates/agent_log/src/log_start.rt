//! What is said of a start, or of a state folder that is opened later.
ghost use Rattle.agent_log.specs.AtStart.{AreSaidAtStart, IsSaidAtStart};

use crate::desk::Desk;
use agent_words::SaidLine;
use base_clock::Reading;
use std::alloc::Global;

/// Says each of these, one after another, at a moment at which the agent may have heard no clock yet.
pub fn say_at_start(alloc: Global, now: Reading, said: &[SaidLine], desk: &mut Desk)
    ensures { AreSaidAtStart now said.now desk.old desk.new }
{
    for line in said {
        say(alloc, now, line, desk);
    }
}

fn say(alloc: Global, now: Reading, line: &SaidLine, desk: &mut Desk)
    ensures { IsSaidAtStart now line.now desk.old desk.new }
{
    desk.hear_at_start(alloc, now, line.level, line.about.word(), line.text.list());
}
