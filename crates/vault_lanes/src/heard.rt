//! What the answers come to, for who keeps a watch.
ghost use Rattle.std.specs.Prelude.{◌≡◌, IfOk};
ghost use Rattle.vault_lanes.specs.Heard.{heard_with, looked_up_by_answer, renewed_by_answer};

use crate::loss::{Loss, lost_by};
use base_moment::Moment;
use plan_forest::Kind;
use std::alloc::{AllocError, Global};
use vault_exchange::ToldTerms;
use vault_http::DatedReply;
use vault_json::Renewed;

/// What an answer comes to.
#[derive(Debug, Drop)]
pub enum HeardAnswer<T> {
    /// A 200 that says what was asked, and the reply's date.
    Told(T, Option<Moment>),
    /// Status 400, 403, 404 or 405, and the reply's date: these alone mean the request itself (Vault, HTTP API, "HTTP status
    /// codes").
    Refused(u16, Option<Moment>),
    /// Status 429: the broker has too much to do.
    Busy,
    /// Anything else, and why.
    Lost(Loss),
}

/// What an answer to the renewal of an entry of that kind and credential comes to. The only error is out of memory.
pub fn hear_renewal(
    alloc: Global,
    kind: Kind,
    id: &[u8],
    answer: &Result<DatedReply, Loss>,
) -> Result<HeardAnswer<Renewed>, AllocError>
    ensures { IfOk result (λ heard. heard ≡ renewed_by_answer kind id.now answer.now) }
{
    match answer {
        Err(loss) => Ok(HeardAnswer::Lost(*loss)),
        Ok(dated) => {
            let heard = vault_exchange::hear_renewal(alloc, kind, id, dated)?;
            Ok(heard_with(lost_by(dated.reply.status), heard))
        }
    }
}

/// What an answer to the lookup of an entry of that kind comes to. The only error is out of memory.
pub fn hear_lookup(
    alloc: Global,
    kind: Kind,
    answer: &Result<DatedReply, Loss>,
) -> Result<HeardAnswer<ToldTerms>, AllocError>
    ensures { IfOk result (λ heard. heard ≡ looked_up_by_answer kind answer.now) }
{
    match answer {
        Err(loss) => Ok(HeardAnswer::Lost(*loss)),
        Ok(dated) => {
            let heard = vault_exchange::hear_lookup(alloc, kind, dated)?;
            Ok(heard_with(lost_by(dated.reply.status), heard))
        }
    }
}

/// What a reply comes to, with why it counts as none where it does.
fn heard_with<T>(why: Loss, heard: vault_exchange::Heard<T>) -> HeardAnswer<T>
    ensures { result ≡ heard_with why heard }
{
    match heard {
        vault_exchange::Heard::Told(told, date) => HeardAnswer::Told(told, date),
        vault_exchange::Heard::Refused(status, date) => HeardAnswer::Refused(status, date),
        vault_exchange::Heard::Busy => HeardAnswer::Busy,
        vault_exchange::Heard::Lost => HeardAnswer::Lost(why),
    }
}
