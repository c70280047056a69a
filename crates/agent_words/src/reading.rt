//! What is served by the text of an inventory.
ghost use Rattle.std.specs.Prelude.{◌≡◌, ◌⊎◌, List, ℕ, IfErr, IfOk, Ok, false, string_bytes};
ghost use Rattle.std.specs.List.{list_all};
ghost use Rattle.vault_inventory.specs.Inventory.{read_served};
ghost use Rattle.vault_inventory.specs.Served.{Served};
ghost use Rattle.vault_served.specs.ForGood.{inventory_for_good};
ghost use Rattle.agent_words.specs.Filling.{names_no_file};
ghost use Rattle.agent_words.specs.Reading.{IsFilledText, IsToServe, IsUnfilled, IsWide, IsWideText, NotTogether, is_as_written, is_full, keeps_margin, margin_for};
ghost use Rattle.agent_words.specs.declared.fault.StartFault.TheVariants.{OutOfMemory};

use crate::demands::Demands;
use crate::fault::StartFault;
use crate::first_fault::first_fault;
use crate::secret_files::fill_all;
use base_files::Inputs;
use plan_spread::{margin_by, margin_with};
use state_changes::listed_rows;
use state_file::settle;
use std::alloc::{AllocError, Global};
use vault_inventory::{EntryNote, Inventory, MOST_INVENTORY, ServedInventory, read_served};
use vault_served::{read_for_good, served_for_good};

/// How much longer a margin may be written than another: it has four digits at most, and a unit.
const MORE_DIGITS: usize = 3;

/// What is served by the text of an inventory: its entries, with what the files of their credentials hold, where a need that is
/// `always` lasts to the last moment. A path of a file that does not begin with `/` starts at `folder`, which ends in one, or is
/// empty. The margin is as much wider as it is demanded that the agent wakes up earlier, by no more than itself, and as far as three
/// quarters of each step have room for it; behind another it is that of an agent there.
///
/// # Errors
///
/// The first in the order of [`StartFault`], of the first entry that has it.
#[tactic(auto, using(crate::proofs::Read::no_inventory, crate::proofs::Read::not_served, crate::proofs::Read::served_plain, crate::proofs::Read::lacks_memory, crate::proofs::Read::served_filled, crate::proofs::Read::not_filled, crate::proofs::Read::none_filled))]
pub fn read_to_serve<I: Inputs>(
    alloc: Global,
    bytes: &[u8],
    demands: Demands,
    folder: &str,
    inputs: &mut I,
) -> Result<Inventory, StartFault>
    ensures served { IsToServe demands (I.bytes_at inputs.old) folder.now bytes.now result }
    ensures same { (path : List ℕ) → I.bytes_at inputs.new path ≡ I.bytes_at inputs.old path }
{
    let served = read_served(alloc, bytes)?;
    if let Some(fault) = first_fault(demands, &served) {
        return Err(fault);
    }
    if is_as_written(demands, served.notes()) {
        return Ok(served_for_good(alloc, served)?);
    }
    let text = filled_text(alloc, &served, demands, folder, inputs)?;
    serve_text(alloc, text.as_bytes())
}

// Whether the inventory is served just as it is written.
fn is_as_written(demands: Demands, notes: &[EntryNote]) -> bool
    ensures { result ≡ is_as_written demands notes.now }
{
    keeps_margin(demands) && names_no_file(notes)
}

// Whether the agent wakes up by the margin that is written.
fn keeps_margin(demands: Demands) -> bool
    ensures { result ≡ keeps_margin demands }
{
    demands.behind.is_none() && demands.earlier == 0
}

// The margin with which the agent wakes up.
fn margin_for(demands: Demands, served: &ServedInventory) -> u32
    ensures { result ≡ margin_for demands served.now }
{
    let forest = served.inventory().forest();
    match demands.behind {
        None => margin_with(forest, demands.earlier),
        Some(number) => margin_by(forest.margin(), number),
    }
}

// Whether no entry names a file.
fn names_no_file(notes: &[EntryNote]) -> bool
    ensures { result ≡ names_no_file notes.now }
{
    notes.iter().all(|note| note.file.is_none())
}

// What is served by a text that can be read. The only error is lack of memory.
#[tactic(auto, using(crate::proofs::Read::only_memory))]
fn serve_text(alloc: Global, text: &[u8]) -> Result<Inventory, StartFault>
    requires { (v : Served) × (read_served text.now ≡ Ok v) }
    ensures served { IfOk result (λ inventory. inventory_for_good text.now ≡ Ok inventory) }
    ensures memory { IfErr result (λ fault. fault ≡ OutOfMemory) }
{
    Ok(read_for_good(alloc, text)?)
}

// A text that says what the entries say with what their files hold, and the margin that is demanded.
#[tactic(auto, using(crate::proofs::Read::not_together))]
fn filled_text<I: Inputs>(
    alloc: Global,
    served: &ServedInventory,
    demands: Demands,
    folder: &str,
    inputs: &mut I,
) -> Result<String, StartFault>
    ensures filled { IfOk result (λ text. IsFilledText (I.bytes_at inputs.old) folder.now demands served.now (string_bytes text)) }
    ensures unfilled { IfErr result (λ fault. (fault ≡ OutOfMemory) ⊎ (IsUnfilled (I.bytes_at inputs.old) folder.now served.now fault ⊎ NotTogether demands (I.bytes_at inputs.old) folder.now served.now fault)) }
    ensures same { (path : List ℕ) → I.bytes_at inputs.new path ≡ I.bytes_at inputs.old path }
{
    let rows = listed_rows(alloc, served)?;
    let filled = fill_all(alloc, &rows, folder.as_bytes(), inputs)?;
    let margin = margin_for(demands, served);
    let settled = settle(alloc, Some(margin), None, &filled)?;
    Ok(settled.text)
}

/// The inventory of a text that was settled, with a margin as much wider as it is demanded that the agent wakes up earlier, or that of an
/// agent behind another; as it is, where the text has no room for that. The only error is out of memory.
#[tactic(auto, using(crate::proofs::Read::stays_narrow, crate::proofs::Read::stays_full, crate::proofs::Read::widens))]
pub fn wide(
    alloc: Global,
    demands: Demands,
    text: &str,
    inventory: Inventory,
) -> Result<Inventory, AllocError>
    ensures { IfOk result (IsWide demands text.now inventory) }
{
    if keeps_margin(demands) {
        return Ok(inventory);
    }
    match wide_text(alloc, demands, text.as_bytes()) {
        Ok(text) => match read_for_good(alloc, text.as_bytes()) {
            Ok(wide) => Ok(wide),
            Err(_) => Err(AllocError),
        },
        Err(StartFault::OutOfMemory) => Err(AllocError),
        Err(_) if is_full(text) => Ok(inventory),
        // A settled text that has room for another margin is settled with that, too.
        Err(_) => Err(AllocError),
    }
}

// Whether a text has no room for a margin of more digits.
fn is_full(text: &str) -> bool
    ensures { result ≡ is_full text.now }
{
    text.len() > MOST_INVENTORY - MORE_DIGITS
}

// A text that says the same, but for the margin.
fn wide_text(alloc: Global, demands: Demands, text: &[u8]) -> Result<String, StartFault>
    ensures { IfOk result (λ wide. IsWideText demands text.now (string_bytes wide)) }
{
    let served = read_served(alloc, text)?;
    let rows = listed_rows(alloc, &served)?;
    let margin = margin_for(demands, &served);
    let settled = settle(alloc, Some(margin), None, &rows)?;
    Ok(settled.text)
}
