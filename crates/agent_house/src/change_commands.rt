//! Clients ask that an entry has another credential, or is dropped, and that the file holds every change.
ghost use Rattle.std.specs.Prelude.{◌≡◌, IfSome};
ghost use Rattle.state_changes.specs.Rows.{named};
ghost use Rattle.state_changes.specs.declared.change.ChangeKind.TheVariants as kinds;
ghost use Rattle.agent_house.specs.Awaiting.{Replaces};
ghost use Rattle.agent_log.specs.Changed.{entry_log_line};
ghost use Rattle.agent_house.specs.Commands.{DropsEntry, SettlesFile, end_known_at, end_named};
ghost use Rattle.agent_house.specs.Houses.{Concludes};
ghost use Rattle.agent_ledger.specs.Keeping.{KeeperIsAsked, Settle, Take};
ghost use Rattle.agent_words.specs.Telling.{IsDropLine, replaced_text, settle_line};
ghost use Rattle.agent_log.specs.LookupLosses.{line_with_loss};

use crate::house::House;
use agent_ledger::Keeping;
use agent_log::line_with_loss;
use agent_standing::Agent;
use agent_turns::AgentAt;
use agent_words::{drop_line, replace_line, settle_line, why_not_kept};
use base_clients::{Door, Talk};
use base_clock::Reading;
use base_moment::Text;
use state_changes::ChangeKind;
use std::alloc::Global;
use vault_lanes::Loss;

impl<S, T: Talk, D: Door<T>, K: Keeping, E> House<S, T, D, K, E> {
    /// The credential of the entry of that name is this one from now on. `why` says why the broker has said nothing of it, where it was
    /// asked and has not.
    pub(crate) fn replace(
        &mut self,
        alloc: Global,
        at: AgentAt<'_>,
        name: &[u8],
        credential: Text,
        why: Option<Loss>,
    )
        ensures { Replaces K.does K.rows at.entry.agent.now at.entry.now name.now credential why self.old self.new }
    {
        let now = at.now.elapsed;
        let outcome = replace(alloc, &mut self.state, now, name, credential, why);
        self.conclude(alloc, at, "replace", name, outcome);
    }

    /// The entry of that name is kept no more.
    pub(crate) fn drop_entry(&mut self, alloc: Global, agent: &Agent, now: Reading, name: &[u8])
        ensures { DropsEntry K.does agent.now now name.now self.old self.new }
    {
        let end = end_named(agent, name);
        let outcome = drop_entry(alloc, &mut self.state, now.elapsed, name, end);
        self.conclude(alloc, AgentAt { agent, now }, "drop", name, outcome);
    }

    /// The file is to hold every change.
    pub(crate) fn settle_file(&mut self, alloc: Global, agent: &Agent, now: Reading)
        ensures { SettlesFile K.does K.path agent.now now self.old self.new }
    {
        let outcome = settle_file(alloc, &mut self.state);
        if outcome.is_ok() {
            self.desk.hear_settled(alloc, agent);
        }
        self.will_tell(alloc, outcome, now.elapsed);
    }
}

impl<S, T: Talk, D: Door<T>, K, E> House<S, T, D, K, E> {
    /// Where it was done the log says that of the entry; and the client is told what came of it.
    pub(crate) fn conclude(
        &mut self,
        alloc: Global,
        at: AgentAt<'_>,
        event: &'static str,
        name: &[u8],
        outcome: Result<Option<Text>, Option<Text>>,
    )
        ensures { Concludes at.entry.agent.now (entry_log_line event.now name.now) outcome at.entry.now.elapsed self.old self.new }
    {
        if outcome.is_ok() {
            self.desk.hear_entry(alloc, at.agent, event, name);
        }
        self.will_tell(alloc, outcome, at.now.elapsed);
    }
}

// That the entry of that name has another credential; `None` where memory was wanting.
fn replaced<K: Keeping>(alloc: Global, name: &[u8], state: &K, why: Option<Loss>) -> Option<Text>
    ensures { IfSome result (λ line. line ≡ line_with_loss why (replaced_text name.now (named (K.rows state.now) name.now))) }
{
    let line = replace_line(alloc, name, state.named(name)).ok()?;
    line_with_loss(alloc, line, why).ok()
}

// That the file holds every change; `None` where memory was wanting.
fn settled<K: Keeping>(alloc: Global, state: &K) -> Option<Text>
    ensures { IfSome result (λ line. line ≡ settle_line (K.path state.now)) }
{
    settle_line(alloc, state.path()).ok()
}

#[tactic(auto, using(crate::proofs::Told::says_done))]
fn replace<K: Keeping>(
    alloc: Global,
    state: &mut Option<K>,
    now: u64,
    name: &[u8],
    credential: Text,
    why: Option<Loss>,
) -> Result<Option<Text>, Option<Text>>
    ensures { KeeperIsAsked K.does (λ done. Take now name.now (kinds.Replace credential) done) (λ k line. line ≡ line_with_loss why (replaced_text name.now (named (K.rows k) name.now))) result state.old state.new }
{
    let Some(state) = state else {
        return Err(why_not_kept(alloc));
    };
    match state.take(alloc, now, name, ChangeKind::Replace(credential)) {
        Ok(()) => Ok(replaced(alloc, name, state, why)),
        Err(refused) => Err(refused),
    }
}

fn drop_entry<K: Keeping>(
    alloc: Global,
    state: &mut Option<K>,
    now: u64,
    name: &[u8],
    end: Option<u64>,
) -> Result<Option<Text>, Option<Text>>
    ensures { KeeperIsAsked K.does (λ done. Take now name.now kinds.Drop done) (λ k line. IsDropLine name.now end line) result state.old state.new }
{
    let Some(state) = state else {
        return Err(why_not_kept(alloc));
    };
    match state.take(alloc, now, name, ChangeKind::Drop) {
        Ok(()) => Ok(drop_line(alloc, name, end).ok()),
        Err(why) => Err(why),
    }
}

#[tactic(auto, using(crate::proofs::Told::says_done))]
fn settle_file<K: Keeping>(
    alloc: Global,
    state: &mut Option<K>,
) -> Result<Option<Text>, Option<Text>>
    ensures { KeeperIsAsked K.does Settle (λ k line. line ≡ settle_line (K.path k)) result state.old state.new }
{
    let Some(state) = state else {
        return Err(why_not_kept(alloc));
    };
    match state.settle(alloc) {
        Ok(()) => Ok(settled(alloc, state)),
        Err(why) => Err(why),
    }
}

// The end of the entry of that name, where the agent knows it.
fn end_named(agent: &Agent, name: &[u8]) -> Option<u64>
    ensures { result ≡ end_named agent.now name.now }
{
    let entry = agent.inventory().forest().find(name)?;
    agent.status(entry).end
}
