ghost use Rattle.std.specs.Prelude.{◌≡◌, IfErr, IfOk, Ok, is_some, string_bytes, true, unwrap_or};
ghost use Rattle.vault_inventory.specs.Inventory.{read_served};
ghost use Rattle.state_file.specs.FileText.{IsPrinted};
ghost use Rattle.state_file.specs.Order.{in_order};
ghost use Rattle.state_file.specs.Settled.{TextIsSettled};
ghost use Rattle.state_file.specs.Unwritten.{IsWhyNoInventory, IsWhyUnprinted, IsWhyUnread, IsWhyUnwritten};

use crate::fault::SettleFault;
use crate::order::in_order;
use crate::same::{are_same, is_same_span};
use crate::text::{Form, file_text};
use base_moment::Span;
use state_changes::{Row, listed_rows};
use std::alloc::Global;
use vault_inventory::{InvFault, MOST_INVENTORY, ServedInventory, read_served};

/// The text of a file, and the inventory that is read of it. It has no `Debug`: the text holds credentials.
#[derive(Drop)]
pub struct Settled {
    /// TOML in UTF-8, at most 1 MiB.
    pub text: String,
    pub served: ServedInventory,
}

/// The text of a file that says what the rows say, with that margin and that maximum TTL of the system in seconds, where they are
/// to be written; and the inventory that is read of it. Its rows are these, tokens before leases.
///
/// # Errors
///
/// The first in the order of [`SettleFault`]. Out of memory tells nothing of the rows.
#[tactic(auto, using(crate::proofs::Refusing::refusing))]
pub fn settle(
    alloc: Global,
    margin: Option<u32>,
    system_max: Option<Span>,
    rows: &[Row],
) -> Result<Settled, SettleFault>
    ensures settled { IfOk result (λ s. TextIsSettled margin system_max rows.now (string_bytes s.text) s.served) }
    ensures text { IfOk result (λ s. IsPrinted margin system_max (in_order rows.now) (string_bytes s.text)) }
    ensures refused { IfErr result (IsWhyUnwritten margin system_max rows.now) }
{
    let ordered = in_order(alloc, rows)?;
    let text = print(alloc, margin, system_max, &ordered)?;
    let served = read_back(alloc, margin, system_max, text.as_bytes())?;
    let listed = listed_rows(alloc, &served)?;
    if !are_same(&listed, &ordered) {
        return Err(SettleFault::Differs);
    }
    Ok(Settled { text, served })
}

// The text of a file that is not too long: in words, or in seconds where only that fits.
#[tactic(auto, using(crate::proofs::Refusing::printing))]
fn print(
    alloc: Global,
    margin: Option<u32>,
    system_max: Option<Span>,
    rows: &[Row],
) -> Result<String, SettleFault>
    ensures printed { IfOk result (λ text. IsPrinted margin system_max rows.now (string_bytes text)) }
    ensures refused { IfErr result (IsWhyUnprinted margin system_max rows.now) }
{
    let text = file_text(alloc, Form::Words, margin, system_max, rows)?;
    if text.len() <= MOST_INVENTORY {
        return Ok(text);
    }
    let text = file_text(alloc, Form::Seconds, margin, system_max, rows)?;
    if text.len() > MOST_INVENTORY {
        return Err(SettleFault::TooLong);
    }
    Ok(text)
}

// What is served by a text that writes that margin and that maximum TTL of the system, or none.
#[tactic(auto, unfolding(crate::specs::Unwritten::IsWhyUnread, crate::specs::Unwritten::IsWhyNoInventory))]
fn read_back(
    alloc: Global,
    margin: Option<u32>,
    system_max: Option<Span>,
    text: &[u8],
) -> Result<ServedInventory, SettleFault>
    ensures read { IfOk result (λ served. read_served text.now ≡ Ok served) }
    ensures margin { IfOk result (λ served. served.inventory.forest.margin ≡ unwrap_or margin 1) }
    ensures has_margin { IfOk result (λ served. served.has_margin ≡ is_some margin) }
    ensures most { IfOk result (λ served. served.system_max ≡ system_max) }
    ensures refused { IfErr result (IsWhyUnread margin system_max text.now) }
{
    let served = read(alloc, text)?;
    if !is_with(margin, &served) || !is_same_span(served.system_max(), system_max) {
        return Err(SettleFault::Differs);
    }
    Ok(served)
}

// What is served by a text.
#[tactic(auto, unfolding(crate::specs::Unwritten::IsWhyNoInventory))]
fn read(alloc: Global, text: &[u8]) -> Result<ServedInventory, SettleFault>
    ensures read { IfOk result (λ served. read_served text.now ≡ Ok served) }
    ensures refused { IfErr result (IsWhyNoInventory text.now) }
{
    match read_served(alloc, text) {
        Ok(served) => Ok(served),
        Err(InvFault::OutOfMemory) => Err(SettleFault::OutOfMemory),
        Err(fault) => Err(SettleFault::Refused(fault)),
    }
}

// Whether it has that margin, and one that is written where that is.
fn is_with(margin: Option<u32>, served: &ServedInventory) -> bool
    ensures margin { result ≡ true → served.now.inventory.forest.margin ≡ unwrap_or margin 1 }
    ensures has_margin { result ≡ true → served.now.has_margin ≡ is_some margin }
    ensures only { served.now.inventory.forest.margin ≡ unwrap_or margin 1 → served.now.has_margin ≡ is_some margin → result ≡ true }
{
    served.inventory().forest().margin() == margin.unwrap_or(1)
        && served.has_margin() == margin.is_some()
}
