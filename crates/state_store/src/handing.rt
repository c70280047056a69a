ghost use Rattle.std.specs.Prelude.{◌≡◌, IfOk, option_copied};
ghost use Rattle.state_changes.specs.Secrets.{taken_from};
ghost use Rattle.state_store.specs.Handed.{all_filled, all_ready, filled, filled_from, filled_with, handed, holds_if_parent, is_ready};

use base_moment::{Name, Text};
use plan_forest::MAX_DEPTH;
use state_changes::{Row, Rows, Secret, taken_from};
use std::alloc::{AllocError, Global};

/// The rows that are handed to a watch: with what their files have given, and without those whose file has given nothing yet and all
/// under them. The only error is lack of memory.
#[tactic(auto, unfolding(crate::specs::Handed::handed))]
pub fn handed(alloc: Global, secrets: &[Secret], rows: &[Row]) -> Result<Vec<Row>, AllocError>
    ensures { IfOk result (λ left. left.items ≡ handed secrets.now rows.now) }
{
    let filled = all_filled(alloc, secrets, rows)?;
    let filled = Rows::of(alloc, filled)?;
    all_ready(alloc, &filled)
}

// Each row with what its file has given.
#[tactic(auto, using(crate::proofs::Lists::filled_none, crate::proofs::Lists::filled_more, crate::proofs::Lists::filled_all))]
fn all_filled(alloc: Global, secrets: &[Secret], rows: &[Row]) -> Result<Vec<Row>, AllocError>
    ensures { IfOk result (λ copies. copies.items ≡ all_filled secrets.now rows.now) }
{
    let mut copies = Vec::new(alloc);
    for row in rows {
        copies.push(filled(secrets, row)?)?;
    }
    Ok(copies)
}

#[tactic(auto, unfolding(crate::specs::Handed::filled))]
fn filled(secrets: &[Secret], row: &Row) -> Result<Row, AllocError>
    ensures { IfOk result (λ copy. copy ≡ filled secrets.now row.now) }
{
    match &row.file {
        None => row.copy(),
        Some(file) => filled_with(row, taken_from(secrets, row.name.list(), file.list())),
    }
}

fn filled_with(row: &Row, secret: Option<&Secret>) -> Result<Row, AllocError>
    ensures { IfOk result (λ copy. copy ≡ filled_with row.now (option_copied secret.entry)) }
{
    let mut copy = row.copy()?;
    let Some(secret) = secret else {
        return Ok(copy);
    };
    copy.credential = secret.credential.clone()?;
    copy.file = None;
    Ok(copy)
}

// The rows whose credential is there, and that of each over them.
#[tactic(auto, using(crate::proofs::Lists::ready_in, crate::proofs::Lists::ready_out, crate::proofs::Lists::ready_all), unfolding(crate::specs::Handed::all_ready))]
fn all_ready(alloc: Global, rows: &Rows) -> Result<Vec<Row>, AllocError>
    ensures { IfOk result (λ left. left.items ≡ all_ready rows.now) }
{
    let mut left = Vec::new(alloc);
    for row in rows.list() {
        if is_ready(MAX_DEPTH, rows, row) {
            left.push(row.copy()?)?;
        }
    }
    Ok(left)
}

// Whether its credential is there, and that of each over it, of which there are fewer than so many.
#[tactic(auto, using(crate::proofs::Ready::ready_never, crate::proofs::Ready::ready_not, crate::proofs::Ready::ready_by))]
fn is_ready(most: usize, rows: &Rows, row: &Row) -> bool
    ensures { result ≡ is_ready most rows.now row.now }
{
    if most == 0 {
        return false;
    }
    if row.file.is_some() {
        return false;
    }
    match &row.parent {
        None => true,
        Some(parent) => match rows.named(parent.list()) {
            None => false,
            Some(above) => is_ready(most - 1, rows, above),
        },
    }
}
