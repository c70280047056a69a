//! A client asks that an entry is needed until then.
ghost use Rattle.std.specs.Prelude.{◌≡◌};
ghost use Rattle.agent_house.specs.Commands.{EntryIsThere, GivesNeed, NeedIsKept, Needs, TakesIfThere, TakesNeedBy};
ghost use Rattle.agent_words.specs.Telling.{until_of_need};
ghost use Rattle.plan_forest.specs.Forest.{index_named};

use crate::given::{Given, GivenNeed};
use crate::house::House;
use agent_ledger::Keeping;
use agent_standing::Agent;
use agent_turns::AgentChange;
use agent_words::need_line;
use base_clients::{Door, Talk};
use base_clock::Reading;
use base_moment::{LAST, Text};
use state_changes::ChangeKind;
use std::alloc::Global;
use vault_inventory::Need;

impl<S, T: Talk, D: Door<T>, K: Keeping, E> House<S, T, D, K, E> {
    /// The entry of that name is needed until then from now on, where that can be kept, or nothing keeps changes.
    pub(crate) fn need(
        &mut self,
        alloc: Global,
        agent: &Agent,
        now: Reading,
        name: &[u8],
        need: &Need,
    ) -> AgentChange
        ensures { Needs K.does K.keeps agent.now now name.now need.now result self.old self.new }
    {
        match keep_need(alloc, &mut self.state, agent, now, name, *need) {
            Ok(()) => self.give_need(alloc, agent, now, name, until_of(*need)),
            Err(why) => {
                self.will_tell(alloc, Err(why), now.elapsed);
                AgentChange::Kept
            }
        }
    }

    // Gives it, where the agent has the entry; otherwise it holds with the inventory that is to come.
    fn give_need(
        &mut self,
        alloc: Global,
        agent: &Agent,
        now: Reading,
        name: &[u8],
        until: u64,
    ) -> AgentChange
        ensures { GivesNeed agent.now now name.now until (index_named agent.now.inventory.forest.entries name.now) result self.old self.new }
    {
        let Some(entry) = agent.inventory().forest().find(name) else {
            let line = need_line(alloc, name, until).ok();
            self.desk.hear_need(alloc, agent, name, until);
            self.will_tell(alloc, Ok(line), now.elapsed);
            return AgentChange::Kept;
        };
        self.given = Some(Given::Need(GivenNeed {
            entry,
            until,
            at: now.elapsed,
        }));
        AgentChange::Need { entry, until }
    }
}

// Keeps the need, where something keeps changes; where nothing does, the agent has to have the entry.
fn keep_need<K: Keeping>(
    alloc: Global,
    state: &mut Option<K>,
    agent: &Agent,
    now: Reading,
    name: &[u8],
    need: Need,
) -> Result<(), Option<Text>>
    ensures { NeedIsKept K.does K.keeps agent.now now name.now need result state.old state.new }
{
    match state {
        None => entry_is_there(alloc, agent, name),
        Some(state) => take_need(alloc, state, agent, now, name, need),
    }
}

// Whoever keeps changes takes the need; where they do not yet, the agent has to have the entry.
fn take_need<K: Keeping>(
    alloc: Global,
    state: &mut K,
    agent: &Agent,
    now: Reading,
    name: &[u8],
    need: Need,
) -> Result<(), Option<Text>>
    ensures { TakesNeedBy K.does (K.keeps state.old) agent.now now name.now need result state.old state.new }
{
    if state.keeps() {
        return state.take(alloc, now.elapsed, name, ChangeKind::Need(need));
    }
    let there = entry_is_there(alloc, agent, name);
    take_if_there(alloc, state, there, now, name, need)
}

fn take_if_there<K: Keeping>(
    alloc: Global,
    state: &mut K,
    there: Result<(), Option<Text>>,
    now: Reading,
    name: &[u8],
    need: Need,
) -> Result<(), Option<Text>>
    ensures { TakesIfThere K.does now name.now need there result state.old state.new }
{
    match there {
        Ok(()) => state.take(alloc, now.elapsed, name, ChangeKind::Need(need)),
        Err(why) => Err(why),
    }
}

// The agent has the entry; otherwise why not.
fn entry_is_there(alloc: Global, agent: &Agent, name: &[u8]) -> Result<(), Option<Text>>
    ensures { EntryIsThere (index_named agent.now.inventory.forest.entries name.now) result }
{
    is_there(alloc, agent.inventory().forest().find(name))
}

fn is_there(alloc: Global, entry: Option<u32>) -> Result<(), Option<Text>>
    ensures { EntryIsThere entry result }
{
    match entry {
        None => Err(Text::of(alloc, b"no entry has that name").ok()),
        Some(_) => Ok(()),
    }
}

/// Until when that is, in seconds since 1970-01-01T00:00:00Z: 0 where there is none, and [`LAST`] where it always is.
pub(crate) fn until_of(need: Need) -> u64
    ensures { result ≡ until_of_need need }
{
    match need {
        Need::Until(moment) => moment.get(),
        Need::Always => LAST,
    }
}
