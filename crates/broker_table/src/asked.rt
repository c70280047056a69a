ghost use Rattle.std.specs.Prelude.{◌≡◌, IfOk};
ghost use Rattle.std.specs.Str.{is_utf8};
ghost use Rattle.broker_rule.specs.Request.{increment_in, lease_id_in, asked};

use base_moment::{Span, Text};
use broker_rule::{ApiCall, AskedBody};
use std::alloc::{AllocError, Global};
use vault_json::{ReplyFault, read_increment, read_lease_id};

/// What the body of a call asks, `None` where it is not as the call wants it. The only error is out of memory.
#[tactic(auto, unfolding(broker_rule::specs::Request::asked))]
pub(crate) fn read_asked(
    alloc: Global,
    call: ApiCall,
    body: &[u8],
) -> Result<Option<AskedBody>, AllocError>
    ensures { IfOk result (λ a. a ≡ asked call body.now) }
{
    match call {
        ApiCall::RenewSelf => match increment_in(alloc, body)? {
            None => Ok(None),
            Some(increment) => Ok(Some(AskedBody {
                lease_id: None,
                increment,
            })),
        },
        ApiCall::RenewLease => {
            let Some(lease_id) = lease_id_in(alloc, body)? else {
                return Ok(None);
            };
            let Some(increment) = increment_in(alloc, body)? else {
                return Ok(None);
            };
            Ok(Some(AskedBody {
                lease_id: Some(lease_id),
                increment,
            }))
        }
        ApiCall::LookupSelf => Ok(Some(AskedBody {
            lease_id: None,
            increment: None,
        })),
        ApiCall::LookupLease => match lease_id_in(alloc, body)? {
            None => Ok(None),
            Some(lease_id) => Ok(Some(AskedBody {
                lease_id: Some(lease_id),
                increment: None,
            })),
        },
    }
}

/// The increment that a body asks for, `None` where it cannot be read.
#[tactic(auto, unfolding(broker_rule::specs::Request::increment_in))]
fn increment_in(alloc: Global, body: &[u8]) -> Result<Option<Option<Span>>, AllocError>
    ensures { IfOk result (λ increment. increment ≡ increment_in body.now) }
{
    match read_increment(alloc, body) {
        Ok(increment) => Ok(Some(increment)),
        Err(ReplyFault::OutOfMemory) => Err(AllocError),
        Err(
            ReplyFault::NotJson
            | ReplyFault::Missing(_)
            | ReplyFault::BadField(_)
            | ReplyFault::Wrapped,
        ) => Ok(None),
    }
}

/// The lease id that a body names, `None` where it cannot be read or is no text.
#[tactic(auto, unfolding(broker_rule::specs::Request::lease_id_in))]
fn lease_id_in(alloc: Global, body: &[u8]) -> Result<Option<Text>, AllocError>
    ensures { IfOk result (λ id. id ≡ lease_id_in body.now) }
{
    match read_lease_id(alloc, body) {
        Ok(id) => {
            if is_text(id.list()) {
                Ok(Some(id))
            } else {
                Ok(None)
            }
        }
        Err(ReplyFault::OutOfMemory) => Err(AllocError),
        Err(
            ReplyFault::NotJson
            | ReplyFault::Missing(_)
            | ReplyFault::BadField(_)
            | ReplyFault::Wrapped,
        ) => Ok(None),
    }
}

/// Whether the bytes are UTF-8.
fn is_text(bytes: &[u8]) -> bool
    ensures { result ≡ is_utf8 bytes.now }
{
    let Ok(_text) = std::str::from_utf8(bytes) else {
        return false;
    };
    true
}
