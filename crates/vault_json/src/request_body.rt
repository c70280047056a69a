ghost use Rattle.std.specs.Prelude.{◌≡◌, IfOk, IsUtf8};
ghost use Rattle.serde_json.specs.View.{view};
ghost use Rattle.vault_json.specs.Trees.{renew_tree, lease_tree, lookup_tree};
ghost use Rattle.vault_json.specs.Written.{renew_text, lease_text, lookup_text};

use crate::write::{text_of, written};
use base_moment::{Span, Text};
use serde_json::{Value, json};
use std::alloc::{AllocError, Global};

/// The body of a request to renew the own token by `step` seconds, as `{"increment":60}` (Vault, HTTP API
/// `auth/token`, "Renew a token (self)"). The only error is out of memory.
pub fn renew_body(alloc: Global, step: Span) -> Result<Text, AllocError>
    ensures { IfOk result (λ t. t ≡ renew_text step) }
{
    written(alloc, &renew_value(alloc, step)?)
}

/// The body of a request to renew a lease by `step` seconds, as `{"increment":60,"lease_id":"db/creds/app/1"}` (Vault,
/// HTTP API `sys/leases`, "Renew lease"). A JSON text holds no id that is not UTF-8, so it must be. The only error is
/// lack of memory.
pub fn lease_body(alloc: Global, id: &[u8], step: Span) -> Result<Text, AllocError>
    requires { IsUtf8 id.now }
    ensures { IfOk result (λ t. t ≡ lease_text id.now step) }
{
    written(alloc, &lease_value(alloc, text_of(id), step)?)
}

/// The body of a request to look up a lease, as `{"lease_id":"db/creds/app/1"}` (Vault, HTTP API `sys/leases`, "Read
/// lease"). The id must be UTF-8. The only error is out of memory.
pub fn lookup_body(alloc: Global, id: &[u8]) -> Result<Text, AllocError>
    requires { IsUtf8 id.now }
    ensures { IfOk result (λ t. t ≡ lookup_text id.now) }
{
    written(alloc, &lookup_value(alloc, text_of(id))?)
}

fn renew_value(alloc: Global, step: Span) -> Result<Value, AllocError>
    ensures { IfOk result (λ v. view v ≡ renew_tree step) }
{
    json!(in alloc; {"increment": step})
}

fn lease_value(alloc: Global, id: &str, step: Span) -> Result<Value, AllocError>
    ensures { IfOk result (λ v. view v ≡ lease_tree id.now step) }
{
    json!(in alloc; {"increment": step, "lease_id": id})
}

fn lookup_value(alloc: Global, id: &str) -> Result<Value, AllocError>
    ensures { IfOk result (λ v. view v ≡ lookup_tree id.now) }
{
    json!(in alloc; {"lease_id": id})
}
