//! A client asks that one more entry is kept.
ghost use Rattle.std.specs.Prelude.{◌≡◌, IfErr, IfOk, IfSome, None};
ghost use Rattle.state_changes.specs.declared.change.ChangeKind.TheVariants as kinds;
ghost use Rattle.agent_house.specs.Commands.{AddsEntry, ReadsRow, row_in};
ghost use Rattle.agent_house.specs.Awaiting.{AddsRow, IsAddedLine};
ghost use Rattle.agent_ledger.specs.Keeping.{KeeperIsAsked, Take};
ghost use Rattle.agent_words.specs.Telling.{until_of_need};

use crate::house::House;
use crate::need_command::until_of;
use agent_ledger::Keeping;
use agent_log::line_with_loss;
use agent_standing::Agent;
use agent_turns::AgentAt;
use agent_words::{add_line, why_not_kept};
use base_clients::{Door, Talk};
use base_clock::Reading;
use base_moment::{Name, Text};
use state_changes::{ChangeKind, Row};
use std::alloc::Global;
use vault_lanes::Loss;

impl<S, T: Talk, D: Door<T>, K: Keeping, E> House<S, T, D, K, E> {
    /// The entry is kept from now on that this table writes.
    pub(crate) fn add(&mut self, alloc: Global, agent: &Agent, now: Reading, table: &[u8])
        ensures { AddsEntry K.does K.rows K.reads agent.now now table.now self.old self.new }
    {
        match read_row(alloc, &self.state, table) {
            Ok((name, row)) => self.look_up_first(alloc, agent, now, name, ChangeKind::Add(row)),
            Err(why) => self.will_tell(alloc, Err(why), now.elapsed),
        }
    }

    /// The entry of that name is kept from now on that this row writes. `why` says why the broker has said nothing of its credential,
    /// where it was asked and has not.
    pub(crate) fn add_row(
        &mut self,
        alloc: Global,
        at: AgentAt<'_>,
        name: &[u8],
        row: Row,
        why: Option<Loss>,
    )
        ensures { AddsRow K.does at.entry.agent.now at.entry.now name.now row why self.old self.new }
    {
        let outcome = add_row(alloc, &mut self.state, at.now.elapsed, name, row, why);
        self.conclude(alloc, at, "add", name, outcome);
    }
}

// The row that a table writes, and its name once more.
fn read_row<K: Keeping>(
    alloc: Global,
    state: &Option<K>,
    table: &[u8],
) -> Result<(Name, Row), Option<Text>>
    ensures read { ReadsRow K.reads table.now (row_in result) state.now }
    ensures named { IfOk result (λ r. r.0 ≡ r.1.name) }
{
    let Some(state) = state else {
        return Err(why_not_kept(alloc));
    };
    match state.read_row(alloc, table) {
        Ok(row) => with_name(row),
        Err(why) => Err(why),
    }
}

fn with_name(row: Row) -> Result<(Name, Row), Option<Text>>
    ensures named { IfOk result (λ r. (r.0 ≡ row.name) × (r.1 ≡ row)) }
    ensures memory { IfErr result (λ why. why ≡ None) }
{
    match row.name.clone() {
        Ok(name) => Ok((name, row)),
        Err(_) => Err(None),
    }
}

fn add_row<K: Keeping>(
    alloc: Global,
    state: &mut Option<K>,
    now: u64,
    name: &[u8],
    row: Row,
    why: Option<Loss>,
) -> Result<Option<Text>, Option<Text>>
    ensures { KeeperIsAsked K.does (λ done. Take now name.now (kinds.Add row) done) (λ k line. IsAddedLine name.now (until_of_need row.need) why line) result state.old state.new }
{
    let Some(state) = state else {
        return Err(why_not_kept(alloc));
    };
    let until = until_of(row.need);
    match state.take(alloc, now, name, ChangeKind::Add(row)) {
        Ok(()) => Ok(added(alloc, name, until, why)),
        Err(refused) => Err(refused),
    }
}

// That the entry of that name is kept; `None` where memory was wanting.
fn added(alloc: Global, name: &[u8], until: u64, why: Option<Loss>) -> Option<Text>
    ensures { IfSome result (λ line. IsAddedLine name.now until why line) }
{
    let line = add_line(alloc, name, until).ok()?;
    line_with_loss(alloc, line, why).ok()
}
