//! Ends that are kept over a restart.
ghost use Rattle.std.specs.Prelude.{◌≡◌, option_map};
ghost use Rattle.agent_house.specs.Ends.{EndsGoOn, HearsEnd, HearsServed, KeepsEnds, is_failing, to_be_kept};

use crate::house::House;
use agent_ends::EndsFile;
use agent_standing::Agent;
use base_clock::Reading;
use base_disk::{Disk, DiskFault};
use std::alloc::Global;
use watch_machine::WatchReply;

impl<S, T, D, K, E> House<S, T, D, K, E> {
    /// An answer was handed in.
    pub fn hear_end(&mut self, reply: WatchReply)
        ensures { HearsEnd reply self.old self.new }
    {
        if let Some(ends) = &mut self.ends {
            ends.hear(reply);
        }
    }

    /// Another inventory is served from now on: the next time is said anew, and the ends are kept anew.
    pub fn hear_served(&mut self)
        ensures { HearsServed self.old self.new }
    {
        self.next = None;
        spoil(&mut self.ends);
    }
}

impl<S, T, D, K, E: Disk> House<S, T, D, K, E> {
    /// Keeps the ends that were told in this boot, where that is due. Where it fails, that is said, unless the try before failed too.
    pub fn agent_ends(&mut self, alloc: Global, agent: &Agent, now: Reading)
        ensures { KeepsEnds E.is_known E.state agent.now now.elapsed self.old self.new }
    {
        let was_failing = is_failing(&self.ends);
        let tried = go_on(alloc, &mut self.ends, agent, now.elapsed);
        self.desk.hear_tried(alloc, agent, was_failing, tried);
    }
}

// The file, where there is one, is to be kept anew.
pub(crate) fn spoil<E>(ends: &mut Option<EndsFile<E>>)
    ensures { ends.new ≡ option_map to_be_kept ends.old }
{
    if let Some(ends) = ends {
        ends.spoil();
    }
}

// Whether the last try failed.
fn is_failing<E>(ends: &Option<EndsFile<E>>) -> bool
    ensures { result ≡ is_failing ends.now }
{
    match ends {
        None => false,
        Some(ends) => ends.is_failing,
    }
}

// Goes on with the file, where there is one.
fn go_on<E: Disk>(
    alloc: Global,
    ends: &mut Option<EndsFile<E>>,
    agent: &Agent,
    now: u64,
) -> Option<Result<(), DiskFault>>
    ensures { EndsGoOn E.is_known E.state agent.now now result ends.old ends.new }
{
    match ends {
        None => None,
        Some(ends) => ends.go_on(alloc, agent, now),
    }
}
