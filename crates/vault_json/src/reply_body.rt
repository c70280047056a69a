ghost use Rattle.std.specs.Prelude.{◌≡◌, ◌<◌, IfOk, IsUtf8};
ghost use Rattle.serde_json.specs.View.{view};
ghost use Rattle.vault_json.specs.Trees.{renewed_self_tree, renewed_lease_tree, looked_plain_tree, looked_periodic_tree, looked_lease_tree, errors_tree};
ghost use Rattle.vault_json.specs.Written.{renewed_self_text, renewed_lease_text, looked_self_text, errors_text, IsLookedLease};

use crate::write::{text_of, written};
use base_moment::{Moment, Span, Text, date_text};
use serde_json::{Value, json};
use std::alloc::{AllocError, Global};

/// What a broker's reply to a token's lookup tells of the token.
#[derive(Clone, Copy, Debug, PartialEq, Eq)]
pub struct LookedToken {
    /// The seconds to the token's end.
    pub ttl: Span,
    /// When the token was created.
    pub created: Moment,
    /// The explicit max TTL in seconds, 0 where none is set.
    pub explicit_max: Span,
    /// Whether the token has no parent.
    pub orphan: bool,
    /// Whether the token can be renewed.
    pub renewable: bool,
    /// The period in seconds, 0 where the token is not periodic.
    pub period: Span,
}

/// The body of a broker's reply to a token's renewal, as `{"auth":{"lease_duration":60,"renewable":true}}`: the seconds
/// to its end, and whether it can be renewed again (Vault, HTTP API `auth/token`, "Renew a token (self)"). The only
/// error is lack of memory.
pub fn renewed_self(alloc: Global, seconds: Span, renewable: bool) -> Result<Text, AllocError>
    ensures { IfOk result (λ t. t ≡ renewed_self_text seconds renewable) }
{
    written(alloc, &renewed_self_value(alloc, seconds, renewable)?)
}

/// The body of a broker's reply to a lease's renewal, as
/// `{"lease_duration":60,"lease_id":"db/creds/app/1","renewable":true}` (Vault, HTTP API `sys/leases`, "Renew lease").
/// The id must be UTF-8. The only error is out of memory.
pub fn renewed_lease(
    alloc: Global,
    id: &[u8],
    seconds: Span,
    renewable: bool,
) -> Result<Text, AllocError>
    requires { IsUtf8 id.now }
    ensures { IfOk result (λ t. t ≡ renewed_lease_text id.now seconds renewable) }
{
    written(
        alloc,
        &renewed_lease_value(alloc, text_of(id), seconds, renewable)?,
    )
}

/// The body of a broker's reply to a token's lookup, as
/// `{"data":{"creation_time":900,"explicit_max_ttl":200,"orphan":true,"period":60,"renewable":true,"ttl":60}}`, with
/// `period` only where it is not 0 (Vault, HTTP API `auth/token`, "Lookup a token (self)"). The only error is want of
/// memory.
pub fn looked_self(alloc: Global, token: LookedToken) -> Result<Text, AllocError>
    ensures { IfOk result (λ t.
        t ≡ looked_self_text token.ttl token.created token.explicit_max token.orphan token.renewable token.period) }
{
    if token.period == 0 {
        written(alloc, &plain_value(alloc, token)?)
    } else {
        written(alloc, &periodic_value(alloc, token)?)
    }
}

/// The body of a broker's reply to a lease's lookup, as
/// `{"data":{"id":"db/creds/app/1","issue_time":"1970-01-01T00:15:00Z","renewable":true,"ttl":60}}` (Vault, HTTP API
/// `sys/leases`, "Read lease"). The id must be UTF-8. The only error is out of memory.
pub fn looked_lease(
    alloc: Global,
    id: &[u8],
    issued: Moment,
    renewable: bool,
    ttl: Span,
) -> Result<Text, AllocError>
    requires { IsUtf8 id.now }
    ensures { IfOk result (λ t. IsLookedLease t id.now issued renewable ttl) }
{
    let Ok(issue_time) = date_text(alloc, issued) else {
        return Err(AllocError);
    };
    let date = text_of(issue_time.list());
    written(
        alloc,
        &lease_value(alloc, text_of(id), date, renewable, ttl)?,
    )
}

/// The body of a broker's reply that refuses a request, as `{"errors":["permission denied"]}` (Vault, HTTP API, "Error
/// response"). The only error is out of memory.
pub fn errors(alloc: Global, text: &str) -> Result<Text, AllocError>
    ensures { IfOk result (λ t. t ≡ errors_text text.now) }
{
    written(alloc, &errors_value(alloc, text)?)
}

fn renewed_self_value(alloc: Global, seconds: Span, renewable: bool) -> Result<Value, AllocError>
    ensures { IfOk result (λ v. view v ≡ renewed_self_tree seconds renewable) }
{
    json!(in alloc; {"auth": {"lease_duration": seconds, "renewable": renewable}})
}

fn renewed_lease_value(
    alloc: Global,
    id: &str,
    seconds: Span,
    renewable: bool,
) -> Result<Value, AllocError>
    ensures { IfOk result (λ v. view v ≡ renewed_lease_tree id.now seconds renewable) }
{
    json!(in alloc; {"lease_duration": seconds, "lease_id": id, "renewable": renewable})
}

fn plain_value(alloc: Global, token: LookedToken) -> Result<Value, AllocError>
    ensures { IfOk result (λ v.
        view v ≡ looked_plain_tree token.ttl token.created token.explicit_max token.orphan token.renewable) }
{
    json!(in alloc; {"data": {
        "creation_time": token.created.get(),
        "explicit_max_ttl": token.explicit_max,
        "orphan": token.orphan,
        "renewable": token.renewable,
        "ttl": token.ttl
    }})
}

fn periodic_value(alloc: Global, token: LookedToken) -> Result<Value, AllocError>
    ensures { IfOk result (λ v. view v
        ≡ looked_periodic_tree token.ttl token.created token.explicit_max token.orphan token.renewable token.period) }
{
    json!(in alloc; {"data": {
        "creation_time": token.created.get(),
        "explicit_max_ttl": token.explicit_max,
        "orphan": token.orphan,
        "period": token.period,
        "renewable": token.renewable,
        "ttl": token.ttl
    }})
}

fn lease_value(
    alloc: Global,
    id: &str,
    issue_time: &str,
    renewable: bool,
    ttl: Span,
) -> Result<Value, AllocError>
    ensures { IfOk result (λ v. view v ≡ looked_lease_tree id.now issue_time.now renewable ttl) }
{
    json!(in alloc; {"data": {
        "id": id,
        "issue_time": issue_time,
        "renewable": renewable,
        "ttl": ttl
    }})
}

fn errors_value(alloc: Global, text: &str) -> Result<Value, AllocError>
    ensures { IfOk result (λ v. view v ≡ errors_tree text.now) }
{
    json!(in alloc; {"errors": [text]})
}
