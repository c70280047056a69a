//! A lack of memory that costs turns of the loop is said once, as long as it goes on.
ghost use Rattle.std.specs.Prelude.{◌≡◌};
ghost use Rattle.agent_log.specs.Wants.{HearsTime, HearsUnmade, HearsWanting, SaysWant, said_or};

use crate::desk::Desk;
use crate::mark::Want;
use agent_standing::Agent;
use base_log::Level;
use std::alloc::Global;

impl Desk {
    /// Memory was wanting in a turn: that is said, unless it was said when that began. Where memory is wanting for the line too, it is
    /// said once it can be.
    pub fn hear_wanting(&mut self, alloc: Global, agent: &Agent)
        ensures { HearsWanting agent.now self.old self.new }
    {
        match self.want {
            Want::Over | Want::Unsaid => self.say_want(alloc, agent, Want::Said),
            Want::Said | Want::Passing => self.want = Want::Said,
        }
    }

    /// The same of a change that was not made.
    pub fn hear_unmade(&mut self, alloc: Global, agent: &Agent, is_made: bool)
        ensures { HearsUnmade is_made agent.now self.old self.new }
    {
        if !is_made {
            self.hear_wanting(alloc, agent);
        }
    }

    /// The time was handed in: what could not be said before is said now. A lack of memory is over once the time was handed in twice
    /// with none between.
    pub fn hear_time(&mut self, alloc: Global, agent: &Agent)
        ensures { HearsTime agent.now self.old self.new }
    {
        match self.want {
            Want::Over => {}
            Want::Unsaid => self.say_want(alloc, agent, Want::Passing),
            Want::Said => self.want = Want::Passing,
            Want::Passing => self.want = Want::Over,
        }
    }

    // Says that memory was refused, which leaves `said`. Where memory is wanting for that too, it is left to say.
    fn say_want(&mut self, alloc: Global, agent: &Agent, said: Want)
        ensures { SaysWant agent.now said self.old self.new }
    {
        let pen = self.pen(alloc, agent);
        let is_said = pen.try_text(Level::Warning, "memory", b"refused", &mut self.room);
        self.want = said_or(is_said, said);
    }
}

// What is left where it was said, and where it could not be.
fn said_or(is_said: bool, said: Want) -> Want
    ensures { result ≡ said_or is_said said }
{
    if is_said { said } else { Want::Unsaid }
}
