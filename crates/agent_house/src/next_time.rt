//! The next time of an entry.
ghost use Rattle.std.specs.Prelude.{◌≡◌};
ghost use Rattle.agent_house.specs.Nexts.{HearsNext, next_there, next_wake_of};

use crate::house::House;
use agent_standing::Agent;
use std::alloc::Global;
use watch_machine::{Next, Watch};

impl<S, T, D, K, E> House<S, T, D, K, E> {
    /// Says the next time of an entry, where it was told and is another than was said last.
    pub fn hear_next(&mut self, alloc: Global, agent: &Agent, next: Option<Option<Next>>)
        ensures { HearsNext agent.now next self.old self.new }
    {
        if let Some(next) = next {
            let there = next_there(agent.watch(), next);
            self.desk.hear_next(alloc, agent, self.next, there);
            self.next = Some(there);
        }
    }
}

// The next time of an entry, by the broker's clock.
fn next_there(watch: &Watch, next: Option<Next>) -> Option<Next>
    ensures { result ≡ next_there watch.now next }
{
    match next {
        None => None,
        Some(next) => Some(Next {
            at: watch.broker_moment(next.at),
            ..next
        }),
    }
}

/// The next time that was said last, for onlookers.
pub(crate) fn next_wake_of(next: Option<Option<Next>>) -> Option<u64>
    ensures { result ≡ next_wake_of next }
{
    match next {
        None | Some(None) => None,
        Some(Some(next)) => Some(next.at),
    }
}
