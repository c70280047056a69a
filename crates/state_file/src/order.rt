ghost use Rattle.std.specs.Prelude.{◌≡◌, ◌++◌, IfOk, OnOk};
ghost use Rattle.std.specs.List.{filter};
ghost use Rattle.state_file.specs.Order.{in_order, is_lease_row, is_token_row};

use state_changes::Row;
use std::alloc::{AllocError, Global};

/// The rows as the tables of a file stand: tokens before leases, and each kind in its order. The only error is out of memory.
#[tactic(auto, unfolding(crate::specs::Order::in_order))]
pub fn in_order(alloc: Global, rows: &[Row]) -> Result<Vec<Row>, AllocError>
    ensures { IfOk result (λ ordered. ordered.items ≡ in_order rows.now) }
{
    let mut ordered = Vec::new(alloc);
    push_tokens(rows, &mut ordered)?;
    push_leases(rows, &mut ordered)?;
    Ok(ordered)
}

// Appends the rows of the tokens.
#[tactic(auto, using(crate::proofs::Ordered::token_in, crate::proofs::Ordered::token_out))]
fn push_tokens(rows: &[Row], ordered: &mut Vec<Row>) -> Result<(), AllocError>
    ensures { OnOk result (ordered.new.items ≡ ordered.old.items ++ filter is_token_row rows.now) }
{
    for row in rows {
        if !row.kind.is_lease() {
            ordered.push(row.copy()?)?;
        }
    }
    Ok(())
}

// Appends the rows of the leases.
#[tactic(auto, using(crate::proofs::Ordered::lease_in, crate::proofs::Ordered::lease_out))]
fn push_leases(rows: &[Row], ordered: &mut Vec<Row>) -> Result<(), AllocError>
    ensures { OnOk result (ordered.new.items ≡ ordered.old.items ++ filter is_lease_row rows.now) }
{
    for row in rows {
        if row.kind.is_lease() {
            ordered.push(row.copy()?)?;
        }
    }
    Ok(())
}
