//! Whether entries that are to be handed on go together.
ghost use Rattle.std.specs.Prelude.{◌≡◌, ◌∷◌, IfOk, List};
ghost use Rattle.std.specs.List.{list_any};
ghost use Rattle.plan_forest.specs.Push.{is_lease};
ghost use Rattle.state_changes.specs.declared.row.Row.{Row};
ghost use Rattle.state_store.specs.Handed.{handed};
ghost use Rattle.agent_ledger.specs.Shared.{has_of_kind, is_any_shared, may_be_apart};
ghost use Rattle.agent_ledger.specs.code.OfKinds.{AreCredentialsOf};

use crate::secret_changes::ALWAYS_FIT;
use base_moment::Text;
use state_changes::{Row, Secret};
use state_store::handed;
use std::alloc::{AllocError, Global};
use std::collections::BTreeSet;

// The credential of an entry of a kind. It has no `Debug`: the credential is secret.
#[derive(PartialEq, Eq, PartialOrd, Ord, Drop)]
struct OfKind {
    is_lease: bool,
    credential: Text,
}

/// Whether what is handed on of these rows, with what their files have given, may not go together. The only error is out of memory.
pub(crate) fn may_be_apart(
    alloc: Global,
    secrets: &[Secret],
    rows: &[Row],
) -> Result<bool, AllocError>
    ensures { IfOk result (λ may. may ≡ may_be_apart (handed secrets.now rows.now)) }
{
    let handed = handed(alloc, secrets, rows)?;
    is_any_apart(alloc, &handed)
}

// Whether there are more rows than always fit, or two of a kind have one credential.
#[tactic(auto, unfolding(crate::specs::Shared::may_be_apart))]
fn is_any_apart(alloc: Global, rows: &[Row]) -> Result<bool, AllocError>
    ensures { IfOk result (λ may. may ≡ may_be_apart rows.now) }
{
    Ok(rows.len() > ALWAYS_FIT || is_any_shared(alloc, rows)?)
}

// Whether two of these rows of one kind have one credential.
#[tactic(auto, using(crate::proofs::Sharing::none_shared, crate::proofs::Sharing::none_held, crate::proofs::Sharing::all_shared))]
fn is_any_shared(alloc: Global, rows: &[Row]) -> Result<bool, AllocError>
    ensures { IfOk result (λ any. any ≡ is_any_shared rows.now) }
{
    let mut later = BTreeSet::new(alloc);
    let mut is_any = false;
    let mut index = rows.len();
    while index > 0 {
        index -= 1;
        let shared = is_shared(&mut later, &rows[index])?;
        is_any |= shared;
    }
    Ok(is_any)
}

// Whether a later row of its kind has its credential; it is among the later ones from then on.
fn is_shared(later: &mut BTreeSet<OfKind>, earlier: &Row) -> Result<bool, AllocError>
    ensures { IfOk result (λ shared. (rows : List Row) → AreCredentialsOf later.old rows
        → (shared ≡ list_any (has_of_kind (is_lease earlier.now.kind) earlier.now.credential) rows) × AreCredentialsOf later.new (earlier.now ∷ rows)) }
{
    let key = OfKind {
        is_lease: earlier.kind.is_lease(),
        credential: earlier.credential.clone()?,
    };
    let is_new = later.insert(key)?;
    Ok(!is_new)
}
