ghost use Rattle.serde_json.specs.View.{view};
ghost use Rattle.vault_json.specs.Answer.{GivesOrReplyFault};
ghost use Rattle.vault_json.specs.Renewed.{renewed_in_object, renewed_lease_in, renew_self_answer, renew_lease_answer};

use crate::body::reply;
use crate::fault::ReplyFault;
use crate::field::{Field, flag, object, span, text};
use base_moment::{Span, Text};
use serde_json::Value;
use std::alloc::Global;
use std::fmt;

/// What a broker says of a token's renewal.
#[derive(Clone, Copy, Debug, PartialEq, Eq)]
pub struct Renewed {
    /// The seconds from the renewal to the token's end.
    pub seconds: Span,
    /// Whether the token can be renewed again.
    pub renewable: bool,
}

/// What a broker says of a lease's renewal.
#[derive(PartialEq, Eq, Drop)]
pub struct RenewedLease {
    /// The lease that was renewed.
    pub lease_id: Text,
    /// The seconds from the renewal to the lease's end.
    pub seconds: Span,
    /// Whether the lease can be renewed again.
    pub renewable: bool,
}

impl fmt::Debug for RenewedLease {
    /// Shows all but the lease's id, which is secret.
    fn fmt<W: fmt::Write>(&self, f: &mut fmt::Formatter<W>) -> fmt::Result {
        f.debug_struct("RenewedLease")
            .field("seconds", &self.seconds)
            .field("renewable", &self.renewable)
            .finish_non_exhaustive()
    }
}

/// Reads the body of a reply to `auth/token/renew-self` (Vault, HTTP API `auth/token`, "Renew a token (self)").
///
/// The fields are, in the object `auth`, `lease_duration` and `renewable`; an absent `renewable` is false. Faults come
/// in the order NotJson, Wrapped, then Missing or BadField of the first field at fault.
#[tactic(auto, unfolding(crate::specs::Renewed::renew_self_answer))]
pub fn read_renew_self(alloc: Global, bytes: &[u8]) -> Result<Renewed, ReplyFault>
    ensures { GivesOrReplyFault (λ x. x) result (renew_self_answer bytes.now) }
{
    renewed_token(&reply(alloc, bytes)?)
}

/// Reads the body of a reply to `sys/leases/renew` (Vault, HTTP API `sys/leases`, "Renew lease").
///
/// The fields are, at the top level, `lease_id`, `lease_duration` and `renewable`; an absent `renewable` is false.
/// Faults come in the order NotJson, Wrapped, then Missing or BadField of the first field at fault.
#[tactic(auto, unfolding(crate::specs::Renewed::renew_lease_answer))]
pub fn read_renew_lease(alloc: Global, bytes: &[u8]) -> Result<RenewedLease, ReplyFault>
    ensures { GivesOrReplyFault (λ x. x) result (renew_lease_answer bytes.now) }
{
    renewed_lease(alloc, &reply(alloc, bytes)?)
}

#[tactic(auto, unfolding(crate::specs::Renewed::renewed_in_object))]
fn renewed_token(body: &Value) -> Result<Renewed, ReplyFault>
    ensures { GivesOrReplyFault (λ x. x) result (renewed_in_object (view body.now)) }
{
    let auth = object(body, Field::Auth)?;
    let seconds = span(auth, Field::LeaseDuration)?;
    let renewable = flag(auth, Field::Renewable)?;
    Ok(Renewed { seconds, renewable })
}

#[tactic(auto, unfolding(crate::specs::Renewed::renewed_lease_in))]
fn renewed_lease(alloc: Global, body: &Value) -> Result<RenewedLease, ReplyFault>
    ensures { GivesOrReplyFault (λ x. x) result (renewed_lease_in (view body.now)) }
{
    let lease_id = text(alloc, body, Field::LeaseId)?;
    let seconds = span(body, Field::LeaseDuration)?;
    let renewable = flag(body, Field::Renewable)?;
    Ok(RenewedLease {
        lease_id,
        seconds,
        renewable,
    })
}
