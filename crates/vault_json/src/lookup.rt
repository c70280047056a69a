ghost use Rattle.serde_json.specs.View.{view};
ghost use Rattle.vault_json.specs.Answer.{GivesOrReplyFault};
ghost use Rattle.vault_json.specs.Lookup.{looked_self_in, looked_lease_in, never_ends_in, lookup_self_answer, lookup_lease_answer, never_ends_answer};

use crate::body::reply;
use crate::fault::ReplyFault;
use crate::field::{
    Field, date, flag, member, object, object_or_itself, span, span_or_zero, text, timestamp,
};
use base_moment::{Moment, Span, Text};
use serde_json::Value;
use std::alloc::Global;
use std::fmt;

/// What a broker says of a token or of a lease that it is asked about.
#[derive(PartialEq, Eq, Drop)]
pub enum Lookup {
    /// A token.
    Token {
        /// The seconds to the token's end.
        ttl: Span,
        /// When the token was created.
        created: Moment,
        /// The explicit max TTL in seconds, 0 where none is set.
        explicit_max: Span,
        /// Whether the token has no parent.
        orphan: bool,
        /// Whether the token can be renewed.
        renewable: bool,
        /// The period in seconds, 0 where the token is not periodic.
        period: Span,
    },
    /// A lease.
    Lease {
        /// The lease's id.
        id: Text,
        /// When the lease was issued.
        issued: Moment,
        /// Whether the lease can be renewed.
        renewable: bool,
        /// The seconds to the lease's end.
        ttl: Span,
    },
}

impl fmt::Debug for Lookup {
    /// Shows all but a lease's id, which is secret.
    fn fmt<W: fmt::Write>(&self, f: &mut fmt::Formatter<W>) -> fmt::Result {
        match self {
            Lookup::Token {
                ttl,
                created,
                explicit_max,
                orphan,
                renewable,
                period,
            } => f
                .debug_struct("Token")
                .field("ttl", ttl)
                .field("created", created)
                .field("explicit_max", explicit_max)
                .field("orphan", orphan)
                .field("renewable", renewable)
                .field("period", period)
                .finish(),
            Lookup::Lease {
                id: _,
                issued,
                renewable,
                ttl,
            } => f
                .debug_struct("Lease")
                .field("issued", issued)
                .field("renewable", renewable)
                .field("ttl", ttl)
                .finish_non_exhaustive(),
        }
    }
}

/// Reads the body of a reply to `auth/token/lookup-self` (Vault, HTTP API `auth/token`, "Lookup a token (self)").
///
/// The fields are, in the object `data`, `ttl`, `creation_time`, `explicit_max_ttl`, `orphan`, `renewable` and
/// `period`. An absent `orphan` or `renewable` is false, an absent `explicit_max_ttl` or `period` is 0. Faults come in
/// the order NotJson, Wrapped, then Missing or BadField of the first field at fault.
#[tactic(auto, unfolding(crate::specs::Lookup::lookup_self_answer))]
pub fn read_lookup_self(alloc: Global, bytes: &[u8]) -> Result<Lookup, ReplyFault>
    ensures { GivesOrReplyFault (λ x. x) result (lookup_self_answer bytes.now) }
{
    looked_self(&reply(alloc, bytes)?)
}

/// Whether the body of a reply to `auth/token/lookup-self` says that the token never ends: its `ttl` is 0, and it has no
/// `expire_time`, or a null one (Vault, HTTP API `auth/token`, "Lookup a token (self)"; a root token is such a one).
///
/// The fields are, in the object `data`, `ttl` and `expire_time`, of whatever form this is. Faults come in the order NotJson,
/// Wrapped, then Missing or BadField of `data`, then of `ttl`.
#[tactic(auto, unfolding(crate::specs::Lookup::never_ends_answer))]
pub fn never_ends(alloc: Global, bytes: &[u8]) -> Result<bool, ReplyFault>
    ensures { GivesOrReplyFault (λ x. x) result (never_ends_answer bytes.now) }
{
    has_no_end(&reply(alloc, bytes)?)
}

/// Reads the body of a reply to `sys/leases/lookup` (Vault, HTTP API `sys/leases`, "Read lease").
///
/// The fields are, in the object `data`, or at the top level where `data` is absent or null, `id`, `issue_time` (a text
/// by RFC 3339, section 5.6, as `base_moment::read_rfc3339` reads it), `renewable` and `ttl`; an absent `renewable` is
/// false. Faults come in the order NotJson, Wrapped, then Missing or BadField of the first field at fault.
#[tactic(auto, unfolding(crate::specs::Lookup::lookup_lease_answer))]
pub fn read_lookup_lease(alloc: Global, bytes: &[u8]) -> Result<Lookup, ReplyFault>
    ensures { GivesOrReplyFault (λ x. x) result (lookup_lease_answer bytes.now) }
{
    looked_lease(alloc, &reply(alloc, bytes)?)
}

#[tactic(auto, unfolding(crate::specs::Lookup::looked_lease_in))]
fn looked_lease(alloc: Global, body: &Value) -> Result<Lookup, ReplyFault>
    ensures { GivesOrReplyFault (λ x. x) result (looked_lease_in (view body.now)) }
{
    let lease = object_or_itself(body, Field::Data)?;
    let id = text(alloc, lease, Field::Id)?;
    let issued = date(lease, Field::IssueTime)?;
    let renewable = flag(lease, Field::Renewable)?;
    let ttl = span(lease, Field::Ttl)?;
    Ok(Lookup::Lease {
        id,
        issued,
        renewable,
        ttl,
    })
}

#[tactic(auto, unfolding(crate::specs::Lookup::looked_self_in))]
fn looked_self(body: &Value) -> Result<Lookup, ReplyFault>
    ensures { GivesOrReplyFault (λ x. x) result (looked_self_in (view body.now)) }
{
    let token = object(body, Field::Data)?;
    let ttl = span(token, Field::Ttl)?;
    let created = timestamp(token, Field::CreationTime)?;
    let explicit_max = span_or_zero(token, Field::ExplicitMaxTtl)?;
    let orphan = flag(token, Field::Orphan)?;
    let renewable = flag(token, Field::Renewable)?;
    let period = span_or_zero(token, Field::Period)?;
    Ok(Lookup::Token {
        ttl,
        created,
        explicit_max,
        orphan,
        renewable,
        period,
    })
}

#[tactic(auto, unfolding(crate::specs::Lookup::never_ends_in))]
fn has_no_end(body: &Value) -> Result<bool, ReplyFault>
    ensures { GivesOrReplyFault (λ x. x) result (never_ends_in (view body.now)) }
{
    let about = object(body, Field::Data)?;
    let left = span(about, Field::Ttl)?;
    Ok(left == 0 && member(about, Field::ExpireTime).is_none())
}
