//! A board is written from an agent, and from the entries that its inventory names.
ghost use Rattle.std.specs.Prelude.{◌≡◌, ◌<◌, IfOk, length, map};
ghost use Rattle.plan_needs.specs.Carried.{load_at};
ghost use Rattle.plan_forest.specs.Carried.{carried};
ghost use Rattle.agent_pages.specs.Board.{board_of, moment_of_reading, row_of, rows_of, served_rows, success_of};
ghost use Rattle.agent_pages.specs.Naming.{beside, named_by};

use crate::board::{Board, BoardRow, Surroundings};
use crate::state::state_of;
use crate::waiting::push_waiting;
use agent_standing::Agent;
use base_moment::Moment;
use plan_forest::Listed;
use plan_needs::{Carried, carry};
use state_changes::Row as Named;
use std::alloc::{AllocError, Global};
use watch_machine::Watch;

/// What an agent shows, beside what is around it: `named` are the entries that its inventory names, after every change, of which those wait
/// that are not served. The only error is out of memory.
#[tactic(auto, unfolding(watch_machine::specs::Clocks::sec))]
pub fn board_of(
    alloc: Global,
    agent: &Agent,
    surroundings: Surroundings,
    named: &[Named],
) -> Result<Board, AllocError>
    ensures { IfOk result (λ board. board ≡ board_of agent.now (beside surroundings named.now)) }
{
    let rows = rows_of(alloc, agent, named)?;
    let watch = agent.watch();
    Ok(Board {
        surroundings,
        broker_now: watch.broker_moment(watch.clocks().at / 1000),
        beginnings: agent.beginnings(),
        margin: agent.inventory().forest().margin(),
        rows: Listed::from_vec(rows),
    })
}

/// A row for each entry that is served, and then one for each that waits.
#[tactic(auto, unfolding(crate::specs::Board::rows_of))]
fn rows_of(alloc: Global, agent: &Agent, named: &[Named]) -> Result<Vec<BoardRow>, AllocError>
    ensures { IfOk result (λ rows. rows.items ≡ rows_of agent.now (map named_by named.now)) }
{
    let mut rows = served_rows(alloc, agent)?;
    push_waiting(alloc, agent.inventory().forest(), named, &mut rows)?;
    Ok(rows)
}

/// A row for each entry that is served.
#[tactic(auto, unfolding(crate::specs::Board::served_rows))]
fn served_rows(alloc: Global, agent: &Agent) -> Result<Vec<BoardRow>, AllocError>
    ensures { IfOk result (λ rows. rows.items ≡ served_rows agent.now) }
{
    let Ok(carried) = carry(alloc, agent.watch().forest(), Moment::new(0).unwrap()) else {
        return Err(AllocError);
    };
    let mut rows = Vec::new(alloc);
    for index in 0..agent.inventory().forest().len() {
        rows.push(row_of(agent, &carried, index)?)?;
    }
    Ok(rows)
}

/// The row of an entry, which carries what `carried` has of it.
#[tactic(auto, unfolding(crate::specs::Board::row_of))]
fn row_of(agent: &Agent, needs: &Carried, index: u32) -> Result<BoardRow, AllocError>
    requires served { index < length agent.now.inventory.forest.entries }
    requires watched { index < length agent.now.machine.forest.entries }
    requires within { index < length needs.now }
    requires carried { (load_at needs.now index).need ≡ carried agent.now.machine.forest.entries 0 index }
    ensures { IfOk result (λ row. row ≡ row_of agent.now index) }
{
    let entry = agent.inventory().forest().get(index);
    let standing = agent.standing(index);
    let status = agent.status(index);
    Ok(BoardRow {
        name: entry.name.clone()?,
        kind: entry.kind,
        state: state_of(status.condition, status.end),
        end: status.end,
        need: agent.watch().forest().get(index).need,
        carried: needs.need(index),
        in_force: status.in_force,
        last_success: success_of(agent.watch(), standing.granted_at),
        trouble: standing.trouble,
        granted: standing.granted,
        refused: standing.refused,
        lost: standing.lost,
    })
}

/// When an entry was last renewed, by the broker's clock.
fn success_of(watch: &Watch, granted_at: Option<u64>) -> Option<u64>
    ensures { result ≡ success_of watch.now granted_at }
{
    match granted_at {
        None => None,
        Some(reading) => Some(moment_of_reading(watch, reading)),
    }
}

/// The moment by the broker's clock of a reading of the clock that never steps.
#[tactic(auto, unfolding(watch_machine::specs::Clocks::sec))]
fn moment_of_reading(watch: &Watch, reading: u64) -> u64
    ensures { result ≡ moment_of_reading watch.now reading }
{
    let at = reading.saturating_add(u64::from(watch.clocks().phase));
    watch.broker_moment(at / 1000)
}
