ghost use Rattle.std.specs.Prelude.{◌≡◌, ◌<◌, true, IfOk, IfSome, length, option_map};
ghost use Rattle.broker_table.specs.Found.{subject_at, IsFoundWithin};
ghost use Rattle.broker_table.specs.Slots.{listed_rows, slot_at};
ghost use Rattle.broker_rule.specs.Subject.{bearer, belongs, named_subject, subject};

use crate::asked::read_asked;
use crate::slot::slot_in;
use crate::slots::Slots;
use base_moment::{Name, Span, Text};
use broker_rule::{ApiCall, AskedBody, Refusal};
use std::alloc::{AllocError, Global};
use vault_http::Request;

/// The slot of the row that a request speaks of, and the increment that it asks for.
#[derive(Clone, Copy, Debug)]
pub struct Found {
    pub place: usize,
    pub increment: Option<Span>,
}

/// Of which row a request speaks, or why it is refused. The only error is out of memory.
#[tactic(auto, unfolding(broker_rule::specs::Subject::subject))]
pub(crate) fn subject(
    alloc: Global,
    slots: &Slots,
    call: ApiCall,
    request: &Request,
) -> Result<Result<Found, Refusal>, AllocError>
    ensures found { IfOk result (λ found. subject_at slots.now found ≡ subject (listed_rows slots.now) call request.now) }
    ensures within { IfOk result (λ found. IsFoundWithin slots.now found) }
{
    let Some(token) = bearer(slots, &request.token) else {
        return Ok(Err(Refusal::PermissionDenied));
    };
    let Some(asked) = read_asked(alloc, call, request.body.list())? else {
        return Ok(Err(Refusal::BadRequest));
    };
    Ok(named(slots, token, &asked))
}

/// The place of the token row that a request's token names.
fn bearer(slots: &Slots, credential: &Option<Text>) -> Option<usize>
    ensures row { option_map (λ i. (slot_at slots.now i).row) result ≡ bearer (listed_rows slots.now) credential.now }
    ensures within { IfSome result (λ i. (i < length slots.now) × ((slot_at slots.now i).listed ≡ true)) }
{
    match credential {
        None => None,
        Some(credential) => slots.token(credential.list()),
    }
}

/// The place of the row that a body asks about: the token's own, or that of the lease that it names.
fn named(slots: &Slots, token: usize, asked: &AskedBody) -> Result<Found, Refusal>
    requires { token < length slots.now }
    ensures found { subject_at slots.now result ≡ named_subject (listed_rows slots.now) (slot_at slots.now token).row asked.now.increment asked.now.lease_id }
    ensures within { IsFoundWithin slots.now result }
{
    let increment = asked.increment;
    match &asked.lease_id {
        None => Ok(Found {
            place: token,
            increment,
        }),
        Some(id) => match slots.lease(id.list()) {
            None => Err(Refusal::UnknownLease),
            Some(place) => {
                let lease = slot_in(slots.list(), place);
                if belongs(
                    &lease.row.parent,
                    slot_in(slots.list(), token).row.name.list(),
                ) {
                    Ok(Found { place, increment })
                } else {
                    Err(Refusal::PermissionDenied)
                }
            }
        },
    }
}

/// Whether a row with that parent belongs to the token of that name.
fn belongs(parent: &Option<Name>, name: &[u8]) -> bool
    ensures { result ≡ belongs parent.now name.now }
{
    match parent {
        None => false,
        Some(parent) => parent.list() == name,
    }
}
