ghost use Rattle.std.specs.Prelude.{◌≡◌, IfErr, IfOk, Ok, Err};
ghost use Rattle.serde_json.specs.Errors.{IsMemory};
ghost use Rattle.serde_json.specs.View.{view};
ghost use Rattle.vault_json.specs.Body.{json_tree};
ghost use Rattle.agent_control.specs.Answer.{GivesOrRequestFault};
ghost use Rattle.agent_control.specs.Words.{or_not_words};
ghost use Rattle.agent_control.specs.declared.fault.RequestFault.TheVariants as faults;

use crate::fault::RequestFault;
use serde_json::Value;
use std::alloc::Global;

/// The tree that bytes are, as serde_json reads it.
pub(crate) fn tree(alloc: Global, bytes: &[u8]) -> Result<Value, RequestFault>
    ensures { GivesOrRequestFault (λ v. view v) result (or_not_words (json_tree bytes.now)) }
{
    let Ok(text) = std::str::from_utf8(bytes) else {
        return Err(RequestFault::NotWords);
    };
    judged(Value::from_str(alloc, text))
}

// The tree that serde_json read; and why there is none: memory ran out only where serde_json says so.
fn judged(read: serde_json::Result<Value>) -> Result<Value, RequestFault>
    ensures tree { IfOk read (λ value. result ≡ Ok value) }
    ensures memory { IfErr read (λ error. IsMemory error → result ≡ Err faults.OutOfMemory) }
    ensures malformed { IfErr read (λ error. ¬ IsMemory error → result ≡ Err faults.NotWords) }
{
    match read {
        Ok(value) => Ok(value),
        Err(error) if error.is_memory() => Err(RequestFault::OutOfMemory),
        Err(_) => Err(RequestFault::NotWords),
    }
}
