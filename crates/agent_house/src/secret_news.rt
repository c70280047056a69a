//! Files of credentials are looked at.
ghost use Rattle.agent_house.specs.Looks.{AsksToLook, LooksAround};

use crate::house::House;
use agent_ledger::{FileLook, Keeping};
use agent_standing::Agent;
use base_clock::Reading;
use state_secrets::Looked;
use std::alloc::Global;

impl<S, T, D, K: Keeping, E> House<S, T, D, K, E> {
    /// Looks at files of credentials, where something keeps changes, and says what came of that. Whether the look can go on at once.
    pub fn look(&mut self, alloc: Global, agent: &Agent, now: Reading) -> bool
        ensures { LooksAround K.does agent.now now result self.old self.new }
    {
        let look = look_at(alloc, &mut self.state, now);
        self.desk
            .hear_look(alloc, agent, &look.looked, look.unproved);
        look.looked.goes_on
    }
}

// Looks at them, where something keeps changes.
fn look_at<K: Keeping>(alloc: Global, state: &mut Option<K>, now: Reading) -> FileLook
    ensures { AsksToLook K.does now result state.old state.new }
{
    match state {
        None => FileLook {
            looked: Looked {
                news: None,
                goes_on: false,
                is_enough: true,
            },
            unproved: None,
        },
        Some(state) => state.look(alloc, now),
    }
}
