//! Where it is said what happens to an agent.
ghost use Rattle.std.specs.Prelude.{◌≡◌, IfOk, length};
ghost use Rattle.agent_log.specs.Changed.{entry_log_line, fault_lines, reread_lines, settled_line};
ghost use Rattle.agent_log.specs.LinesBehind.{steps_in_count};
ghost use Rattle.agent_log.specs.LinesOfClocks.{marks_anew};
ghost use Rattle.agent_log.specs.LogDesk.{HearsAhead, HearsAnswer, HearsAtStart, HearsClock, HearsNoSocket, HearsRefusal, HearsShorts, HearsSteps, HearsWant, SaysLine, SaysLines, begun_desk};
ghost use Rattle.agent_words.specs.Moments.{now_of, second_of};
ghost use Rattle.agent_log.specs.Sockets.{need_log_line};

use crate::log_answers::say_answered;
use crate::log_behind::{count_steps, mark_steps, say_ahead, say_steps, set_step};
use crate::log_changes::{say_each, say_reread};
use crate::log_clock::{say_clocked, say_memory, say_shorts};
use crate::log_ended::{mark_anew, mark_ended, trouble_at};
use crate::log_line::Pen;
use crate::log_sockets::{say_need, say_no_socket};
use crate::mark::{Mark, Want, fresh_marks, mark_at, set_mark};
use crate::rooms::Rooms;
use agent_standing::{Agent, Short};
use agent_words::{Reread, now_of, second_of};
use base_clock::Reading;
use base_log::{Form, Level, LogRoom};
use base_moment::Text;
use std::alloc::{AllocError, Global};
use std::marker::Model;
use vault_asking::HandedIn;
use watch_machine::{Millis, Notes, WatchRequest};

/// How lines are written, those that wait, and what was said last of each entry, and of a lack of memory. Lack of memory costs the
/// line for which it is wanting: that is dropped and counted.
#[derive(Debug, Drop)]
pub struct Desk {
    pub(crate) form: Form,
    /// Where the broker is reached.
    pub(crate) place: Vec<u8>,
    /// The room of the log, and that of each of those who follow it.
    pub room: Rooms,
    pub(crate) marks: Vec<Mark>,
    pub(crate) want: Want,
}

impl Model for Desk {
    ghost use Rattle.agent_log.specs.LogDesk.{Desk};

    ghost Value = { Desk };

    ghost view = { λ d. record { form = d.form; place = d.place.items; room = d.room; marks = d.marks.items; want = d.want } };
}

impl Desk {
    /// A desk for so many entries of a broker that is reached at this place, at which nothing was said. The only error is lack of
    /// memory.
    pub fn new(alloc: Global, form: Form, place: Vec<u8>, count: u32) -> Result<Desk, AllocError>
        ensures { IfOk result (λ desk. desk ≡ begun_desk form place.items count) }
    {
        Ok(Desk {
            form,
            place,
            room: Rooms::new(alloc)?,
            marks: fresh_marks(alloc, count)?,
            want: Want::Over,
        })
    }

    /// The lines that wait for the log's reader.
    pub fn room(&self) -> &LogRoom
        ensures { result.now ≡ self.now.room.log }
    {
        &self.room.log
    }

    /// Says what is noted of the time that was handed in, whom is asked what, and whose ends are past.
    pub fn hear_clock(
        &mut self,
        alloc: Global,
        agent: &Agent,
        notes: &Notes,
        requests: &[WatchRequest],
    )
        ensures { HearsClock agent.now notes.now requests.now self.old self.new }
    {
        let pen = self.pen(alloc, agent);
        say_clocked(&pen, agent, notes, requests, &self.marks, &mut self.room);
        mark_ended(agent, &mut self.marks);
    }

    /// Says which needs are past what their entries reach.
    pub fn hear_shorts(&mut self, alloc: Global, agent: &Agent, shorts: &[Short])
        ensures { HearsShorts agent.now shorts.now self.old self.new }
    {
        let pen = self.pen(alloc, agent);
        say_shorts(&pen, agent, shorts, &mut self.room);
    }

    /// Says what came of a request of the entry at an index, and what is noted of that.
    pub fn hear_answer(&mut self, alloc: Global, agent: &Agent, handed: &HandedIn<'_>)
        ensures { HearsAnswer agent.now handed.now.entry handed.now.operation handed.now.said handed.now.notes.now self.old self.new }
    {
        let pen = self.pen(alloc, agent);
        let was = mark_at(&self.marks, handed.entry);
        let before = was.trouble;
        say_answered(&pen, &self.place, agent, handed, before, &mut self.room);
        let trouble = trouble_at(agent, handed.entry as usize);
        set_mark(&mut self.marks, handed.entry, Mark { trouble, ..was });
    }

    /// Says that an end of an entry was looked up and handed in, for an agent that stands behind another.
    #[tactic(auto, using(crate::proofs::Said::one_said))]
    pub fn hear_ahead(&mut self, alloc: Global, agent: &Agent, entry: u32, end: u64)
        ensures { HearsAhead agent.now entry end self.old self.new }
    {
        let pen = self.pen(alloc, agent);
        say_ahead(&pen, agent, entry, end, &mut self.room);
        set_step(&mut self.marks, entry, false);
    }

    /// Of how many entries it will be said that an agent steps in, by what it asks; `lead` is how long before its time it looks an entry up.
    pub fn count_steps(&self, agent: &Agent, lead: Millis, requests: &[WatchRequest]) -> usize
        ensures { result ≡ steps_in_count agent.now.machine lead self.now.marks requests.now }
    {
        count_steps(agent.watch(), lead, requests, &self.marks)
    }

    /// Says for which entries an agent steps in that stands behind another, by what it asks.
    pub fn hear_steps(
        &mut self,
        alloc: Global,
        agent: &Agent,
        lead: Millis,
        requests: &[WatchRequest],
    )
        ensures { HearsSteps agent.now lead requests.now self.old self.new }
    {
        let pen = self.pen(alloc, agent);
        say_steps(&pen, agent, lead, requests, &self.marks, &mut self.room);
        mark_steps(agent.watch(), lead, requests, &mut self.marks);
    }

    /// Says that memory was refused.
    pub fn hear_refusal(&mut self, alloc: Global, agent: &Agent)
        ensures { HearsRefusal agent.now self.old self.new }
    {
        let pen = self.pen(alloc, agent);
        say_memory(&pen, &mut self.room);
    }

    /// Says that memory was refused, where it did not suffice.
    pub fn hear_want(&mut self, alloc: Global, agent: &Agent, is_enough: bool)
        ensures { HearsWant agent.now is_enough self.old self.new }
    {
        if !is_enough {
            self.hear_refusal(alloc, agent);
        }
    }

    /// Says that a client has set another need.
    #[tactic(auto, using(crate::proofs::Said::one_said))]
    pub fn hear_need(&mut self, alloc: Global, agent: &Agent, name: &[u8], until: u64)
        ensures { SaysLine agent.now (need_log_line name.now until) self.old self.new }
    {
        let pen = self.pen(alloc, agent);
        say_need(&pen, name, until, &mut self.room);
    }

    /// Says that an entry has another credential, is added, or is dropped, as the event has it.
    #[tactic(auto, using(crate::proofs::Said::one_said))]
    pub fn hear_entry(&mut self, alloc: Global, agent: &Agent, event: &'static str, name: &[u8])
        ensures { SaysLine agent.now (entry_log_line event.now name.now) self.old self.new }
    {
        let pen = self.pen(alloc, agent);
        pen.say_text(Level::Info, event, name, &mut self.room);
    }

    /// Says that the file holds every change.
    #[tactic(auto, using(crate::proofs::Said::one_said))]
    pub fn hear_settled(&mut self, alloc: Global, agent: &Agent)
        ensures { SaysLine agent.now settled_line self.old self.new }
    {
        let pen = self.pen(alloc, agent);
        pen.say(Level::Info, "settle", Vec::new(alloc), &mut self.room);
    }

    /// Says that the file was read anew, and which changes do not hold any more.
    pub fn hear_reread(&mut self, alloc: Global, agent: &Agent, reread: &Reread)
        ensures { SaysLines agent.now (reread_lines reread.now) self.old.marks self.old self.new }
    {
        let pen = self.pen(alloc, agent);
        say_reread(&pen, reread, &mut self.room);
    }

    /// Says why the file is not served, a line for each reason.
    pub fn hear_faults(&mut self, alloc: Global, agent: &Agent, whys: &[Text])
        ensures { SaysLines agent.now (fault_lines whys.now) self.old.marks self.old self.new }
    {
        let pen = self.pen(alloc, agent);
        say_each(&pen, Level::Alert, "file", whys, &mut self.room);
    }

    /// The agent serves another inventory from now on: these marks are made those of its entries.
    pub fn serve(&mut self, agent: &Agent, marks: Vec<Mark>)
        ensures { self.new ≡ record self.old { marks = marks_anew agent.now (length marks.items) } }
    {
        self.marks = marks;
        mark_anew(agent, &mut self.marks);
    }

    /// Says something of the state folder or the file at a moment at which the agent may have heard no clock yet.
    pub fn hear_at_start(
        &mut self,
        alloc: Global,
        now: Reading,
        level: Level,
        event: &'static str,
        text: &[u8],
    )
        ensures { HearsAtStart now level event.now text.now self.old self.new }
    {
        let pen = self.pen_at(alloc, now);
        pen.say_text(level, event, text, &mut self.room);
    }

    /// Says that a socket cannot be had, why, and what that costs, at a moment at which the agent may have heard no clock yet.
    pub fn hear_no_socket(
        &mut self,
        alloc: Global,
        now: Reading,
        socket: &[u8],
        why: &[u8],
        cost: &[u8],
    )
        ensures { HearsNoSocket now socket.now why.now cost.now self.old self.new }
    {
        let pen = self.pen_at(alloc, now);
        say_no_socket(&pen, socket, why, cost, &mut self.room);
    }

    // With what lines are written of the agent as it is.
    pub(crate) fn pen(&self, alloc: Global, agent: &Agent) -> Pen
        ensures form { result.form ≡ self.now.form }
        ensures moment { result.moment ≡ now_of agent.now.machine }
    {
        Pen {
            alloc,
            form: self.form,
            moment: now_of(agent.watch()),
        }
    }

    // With what they are written where the agent may have heard no clock yet.
    pub(crate) fn pen_at(&self, alloc: Global, now: Reading) -> Pen
        ensures form { result.form ≡ self.now.form }
        ensures moment { result.moment ≡ second_of now.wall }
    {
        Pen {
            alloc,
            form: self.form,
            moment: second_of(now.wall),
        }
    }
}
