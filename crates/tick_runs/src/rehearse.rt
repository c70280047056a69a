//! The command `rehearse`.
ghost use Rattle.tick_runs.specs.Rehearse.{RehearseRun, RehearseTold, RehearsesTo};
ghost use Rattle.vault_start.specs.Start.{inventory_at};

pub(crate) mod fault_words;
pub(crate) mod playing;
mod waking;

use crate::agent::KeeperAgent;
use crate::agent::lines::push_short_lines;
use crate::agent::refused::opened;
use crate::rehearse::fault_words::set_faults;
use crate::rehearse::playing::play;
use base_device::{Sink, Watched};
use base_moment::{Moment, Text};
use broker_memory::MemoryExchange;
use broker_table::Table;
use program_report::{Exit, PROGRAM, Stop};
use std::alloc::Global;
use tick_keeper::Keeper;
use vault_start::read_at;

/// What a rehearsal plays: from when on, and the FAULT words that say what goes wrong.
#[derive(Debug, Drop)]
pub struct Script<'a> {
    /// The moment of the first plan.
    pub start: Moment,
    /// The FAULT words, as `2=drop`.
    pub faults: &'a [Text],
}

/// The command `rehearse`: plays the keeper of an inventory by the script against a broker's table of the same inventory, and
/// writes what happens: each wake-up with who is asked, each answer, each need that is shortened, and at last how many wake-ups
/// and requests it took.
///
/// The inventory is judged first (exit 1), then the FAULT words: `K=short:SECONDS`, `K=drop` or `K=deny` is what goes wrong at
/// the renewal request number `K` (exit 2, with the place of the first that is malformed or repeats a number). Then `exchange`
/// is given the table of the inventory with these faults and no bytes carried.
///
/// Exit 0: the lines of the whole run were written, and `exchange` is as the run leaves it: its table, and the bytes of the
/// last request and its reply. Exit 5: the plan of the opening is too long, and nothing is written; or the run has made
/// 100,000 wake-ups and another is due, and their lines are written. The lines are written as the run goes, wake-up by
/// wake-up, and flushed at its end; so exits 6 and 7 leave a front of them, 6 only where a write of `out` failed. The exits 3
/// and 4 never come.
///
/// Source: Vault, "Lease, renew, and revoke"; Vault, "Tokens".
#[tactic(auto, using(crate::proofs::Rehearsed::run_stopped, crate::proofs::Rehearsed::stopped_told))]
pub fn run_rehearse<W: Sink, F: Sink>(
    alloc: Global,
    inventory: &[u8],
    script: &Script<'_>,
    out: &mut W,
    errors: &mut F,
    exchange: &mut MemoryExchange,
) -> Exit
    ensures run { RehearseRun (inventory_at script.now.start inventory.now) script.now.start script.now.faults.now result (⟦<W as Watched>⟧.change out.old out.new) exchange.old exchange.new }
    ensures told { RehearseTold (inventory_at script.now.start inventory.now) script.now.faults.now result (⟦<F as Watched>⟧.change errors.old errors.new) }
{
    match rehearse(alloc, inventory, script, out, exchange) {
        Ok(()) => Exit::Done,
        Err(stop) => stop.report(PROGRAM, errors),
    }
}

/// The rehearsal without its fault line.
fn rehearse<W: Sink>(
    alloc: Global,
    inventory: &[u8],
    script: &Script<'_>,
    out: &mut W,
    exchange: &mut MemoryExchange,
) -> Result<(), Stop>
    ensures { RehearsesTo (inventory_at script.now.start inventory.now) script.now.start script.now.faults.now result (⟦<W as Watched>⟧.change out.old out.new) exchange.old exchange.new }
{
    let inventory = read_at(alloc, inventory, script.start)?;
    let mut table = Table::load(alloc, &inventory)?;
    set_faults(&mut table, script.faults)?;
    exchange.give(table);
    let (forest, credentials) = inventory.into_parts();
    let made = Keeper::new(alloc, forest, script.start);
    let mut keeper = opened(made)?;
    let short = keeper.take_shortened();
    let mut lines = Vec::new(alloc);
    push_short_lines(alloc, keeper.forest(), short.list(), &mut lines)?;
    let mut agent = KeeperAgent::new(keeper, credentials);
    play(alloc, &mut agent, exchange, script.start.get(), &lines, out)
}
