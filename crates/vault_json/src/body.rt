ghost use Rattle.std.specs.Prelude.{◌≡◌, IfErr, IfOk, Ok, Err};
ghost use Rattle.serde_json.specs.Errors.{IsMemory};
ghost use Rattle.serde_json.specs.View.{view};
ghost use Rattle.vault_json.specs.Answer.{GivesOrReplyFault};
ghost use Rattle.vault_json.specs.declared.fault.ReplyFault.TheVariants as faults;
ghost use Rattle.vault_json.specs.Body.{object_of_bytes, reply_object, json_tree, or_not_json, unwrapped};

use crate::fault::ReplyFault;
use crate::field::present;
use serde_json::Value;
use std::alloc::Global;

/// The object that a body's bytes are.
#[tactic(auto, unfolding(crate::specs::Body::object_of_bytes))]
pub(crate) fn body(alloc: Global, bytes: &[u8]) -> Result<Value, ReplyFault>
    ensures { GivesOrReplyFault (λ v. view v) result (object_of_bytes bytes.now) }
{
    let value = tree(alloc, bytes)?;
    if value.is_object() {
        Ok(value)
    } else {
        Err(ReplyFault::NotJson)
    }
}

/// The tree that a body's bytes are, as serde_json reads it.
fn tree(alloc: Global, bytes: &[u8]) -> Result<Value, ReplyFault>
    ensures { GivesOrReplyFault (λ v. view v) result (or_not_json (json_tree bytes.now)) }
{
    let Ok(text) = std::str::from_utf8(bytes) else {
        return Err(ReplyFault::NotJson);
    };
    judged(Value::from_str(alloc, text))
}

/// The tree that serde_json read; and why there is none: memory ran out only where serde_json says so.
fn judged(read: serde_json::Result<Value>) -> Result<Value, ReplyFault>
    ensures tree { IfOk read (λ value. result ≡ Ok value) }
    ensures memory { IfErr read (λ error. IsMemory error → result ≡ Err faults.OutOfMemory) }
    ensures malformed { IfErr read (λ error. ¬ IsMemory error → result ≡ Err faults.NotJson) }
{
    match read {
        Ok(value) => Ok(value),
        Err(error) if error.is_memory() => Err(ReplyFault::OutOfMemory),
        Err(_) => Err(ReplyFault::NotJson),
    }
}

/// The object that a reply's bytes are, where the reply is not wrapped.
#[tactic(auto, unfolding(crate::specs::Body::reply_object))]
pub(crate) fn reply(alloc: Global, bytes: &[u8]) -> Result<Value, ReplyFault>
    ensures { GivesOrReplyFault (λ v. view v) result (reply_object bytes.now) }
{
    let body = body(alloc, bytes)?;
    unwrapped(&body)?;
    Ok(body)
}

#[tactic(auto, unfolding(crate::specs::Body::unwrapped))]
fn unwrapped(body: &Value) -> Result<(), ReplyFault>
    ensures { GivesOrReplyFault (λ _. view body.now) result (unwrapped (view body.now)) }
{
    match present(body.get("wrap_info")) {
        None => Ok(()),
        Some(_) => Err(ReplyFault::Wrapped),
    }
}
