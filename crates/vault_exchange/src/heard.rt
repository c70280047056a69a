//! What a reply comes to, for who keeps a watch.
ghost use Rattle.std.specs.Prelude.{◌≡◌, IfOk};
ghost use Rattle.vault_exchange.specs.Heard.{has_no_end, looked_in, looked_up_by_reply, refused_by_status, renewed_by_reply, renewed_in};

use crate::looking::lookup_in;
use base_moment::Moment;
use plan_forest::Kind;
use std::alloc::{AllocError, Global};
use vault_http::{DatedReply, Reply};
use vault_json::{Lookup, Renewed, ReplyFault, never_ends, read_renew_lease, read_renew_self};

/// What a reply comes to.
#[derive(Debug, Drop)]
pub enum Heard<T> {
    /// A 200 that says what was asked, and the reply's date.
    Told(T, Option<Moment>),
    /// Status 400, 403, 404 or 405, and the reply's date: these alone mean the request itself (Vault, HTTP API, "HTTP status
    /// codes").
    Refused(u16, Option<Moment>),
    /// Status 429: the broker has too much to do.
    Busy,
    /// Anything else: a body that cannot be read or is of another lease, or another status. 412 wants another try, and 472 and
    /// 473 are a standby's.
    Lost,
}

/// What a lookup tells.
#[derive(Debug, Drop)]
pub struct ToldTerms {
    /// What the broker says of the entry.
    pub lookup: Lookup,
    /// Whether it is a token that never ends.
    pub never_ends: bool,
}

/// What the reply to the renewal of an entry of that kind and credential comes to. The only error is out of memory.
#[tactic(auto, unfolding(crate::specs::Heard::renewed_by_reply))]
pub fn hear_renewal(
    alloc: Global,
    kind: Kind,
    id: &[u8],
    dated: &DatedReply,
) -> Result<Heard<Renewed>, AllocError>
    ensures { IfOk result (λ heard. heard ≡ renewed_by_reply kind id.now dated.now) }
{
    if dated.reply.status != 200 {
        return Ok(refused(dated.reply.status, dated.date));
    }
    match renewed_in(alloc, kind, id, dated.reply.body.list())? {
        Some(renewed) => Ok(Heard::Told(renewed, dated.date)),
        None => Ok(Heard::Lost),
    }
}

/// What the reply to the lookup of an entry of that kind comes to. The only error is out of memory.
#[tactic(auto, unfolding(crate::specs::Heard::looked_up_by_reply))]
pub fn hear_lookup(
    alloc: Global,
    kind: Kind,
    dated: &DatedReply,
) -> Result<Heard<ToldTerms>, AllocError>
    ensures { IfOk result (λ heard. heard ≡ looked_up_by_reply kind dated.now) }
{
    if dated.reply.status != 200 {
        return Ok(refused(dated.reply.status, dated.date));
    }
    match looked_in(alloc, kind, dated.reply.body.list())? {
        Some(looked) => Ok(Heard::Told(looked, dated.date)),
        None => Ok(Heard::Lost),
    }
}

/// What a reply comes to that does not say what was asked.
fn refused<T>(status: u16, date: Option<Moment>) -> Heard<T>
    ensures { result ≡ refused_by_status status date }
{
    match status {
        400 | 403 | 404 | 405 => Heard::Refused(status, date),
        429 => Heard::Busy,
        _ => Heard::Lost,
    }
}

/// What the body of a reply to the renewal of an entry of that kind and credential tells; `None` where it cannot be read, or is of
/// another lease (Vault, HTTP API: `auth/token`, "Renew a token (self)"; `sys/leases`, "Renew lease"). The only error is out of memory.
pub fn renewed_in(
    alloc: Global,
    kind: Kind,
    id: &[u8],
    body: &[u8],
) -> Result<Option<Renewed>, AllocError>
    ensures { IfOk result (λ renewed. renewed ≡ renewed_in kind id.now body.now) }
{
    match kind {
        Kind::Token => match read_renew_self(alloc, body) {
            Ok(renewed) => Ok(Some(renewed)),
            Err(ReplyFault::OutOfMemory) => Err(AllocError),
            Err(_) => Ok(None),
        },
        Kind::Lease => match read_renew_lease(alloc, body) {
            Ok(renewed) if renewed.lease_id.list() == id => Ok(Some(Renewed {
                seconds: renewed.seconds,
                renewable: renewed.renewable,
            })),
            Ok(_) => Ok(None),
            Err(ReplyFault::OutOfMemory) => Err(AllocError),
            Err(_) => Ok(None),
        },
    }
}

/// What the body of a lookup tells of the entry; `None` where it cannot be read.
fn looked_in(alloc: Global, kind: Kind, body: &[u8]) -> Result<Option<ToldTerms>, AllocError>
    ensures { IfOk result (λ looked. looked ≡ looked_in kind body.now) }
{
    let lookup = match lookup_in(alloc, kind, body) {
        Ok(lookup) => lookup,
        Err(ReplyFault::OutOfMemory) => return Err(AllocError),
        Err(_) => return Ok(None),
    };
    let never_ends = has_no_end(alloc, kind, body)?;
    Ok(Some(ToldTerms { lookup, never_ends }))
}

/// Whether the body of a lookup says that the entry never ends, which a lease never does.
fn has_no_end(alloc: Global, kind: Kind, body: &[u8]) -> Result<bool, AllocError>
    ensures { IfOk result (λ never. never ≡ has_no_end kind body.now) }
{
    match kind {
        Kind::Token => match never_ends(alloc, body) {
            Ok(never) => Ok(never),
            Err(ReplyFault::OutOfMemory) => Err(AllocError),
            Err(_) => Ok(false),
        },
        Kind::Lease => Ok(false),
    }
}
