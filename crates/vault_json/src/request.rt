ghost use Rattle.vault_json.specs.Answer.{GivesOrReplyFault};
ghost use Rattle.vault_json.specs.Request.{increment_answer, lease_id_answer, asked_duration};
ghost use Rattle.vault_json.specs.Field.{optional};
ghost use Rattle.std.specs.Prelude.{◌≡◌, None};
ghost use Rattle.serde_json.specs.View.{view};

use crate::body::body;
use crate::duration::duration;
use crate::fault::ReplyFault;
use crate::field::{Field, member, text};
use base_moment::{Span, Text};
use serde_json::Value;
use std::alloc::Global;

/// Reads the increment, in seconds, that the body of a renewal request asks for (Vault, HTTP API `auth/token`, "Renew
/// a token (self)"; `sys/leases`, "Renew lease").
///
/// It is `None` where there are no bytes, and where the field `increment` is absent or null. Faults: NotJson, and
/// BadField of `increment`.
#[tactic(auto, unfolding(crate::specs::Request::increment_answer))]
pub fn read_increment(alloc: Global, bytes: &[u8]) -> Result<Option<Span>, ReplyFault>
    ensures { GivesOrReplyFault (λ x. x) result (increment_answer bytes.now) }
{
    if bytes.is_empty() {
        return Ok(None);
    }
    increment(&body(alloc, bytes)?)
}

/// Reads the lease id that a request's body names (Vault, HTTP API `sys/leases`, "Renew lease" and "Read lease").
///
/// Faults: NotJson (so also where there are no bytes), Missing and BadField of `lease_id`.
#[tactic(auto, unfolding(crate::specs::Request::lease_id_answer))]
pub fn read_lease_id(alloc: Global, bytes: &[u8]) -> Result<Text, ReplyFault>
    ensures { GivesOrReplyFault (λ t. t) result (lease_id_answer bytes.now) }
{
    text(alloc, &body(alloc, bytes)?, Field::LeaseId)
}

#[tactic(auto, unfolding(crate::specs::Field::optional))]
fn increment(body: &Value) -> Result<Option<Span>, ReplyFault>
    ensures { result ≡ optional Field.Increment None asked_duration (view body.now) }
{
    match member(body, Field::Increment) {
        None => Ok(None),
        Some(value) => match duration(value) {
            Some(seconds) => Ok(Some(seconds)),
            None => Err(ReplyFault::BadField(Field::Increment)),
        },
    }
}
