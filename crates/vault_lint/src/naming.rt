//! What entries are called.
ghost use Rattle.std.specs.Prelude.{◌≡◌, IfOk, string_bytes};
ghost use Rattle.vault_lint.specs.FaultNames.{label};

use crate::judging::is_token_like;
use crate::subject::Subject;
use std::alloc::{AllocError, Global};

/// The name of an entry, unless it may be a token's value. The only error is lack of memory.
pub(crate) fn shown_name(
    alloc: Global,
    subject: &Subject,
    index: u32,
) -> Result<String, AllocError> {
    let forest = subject.inventory.forest();
    if index < forest.len() {
        label(alloc, forest.get(index).name.list())
    } else {
        Ok(String::new(alloc))
    }
}

/// A name, unless it may be a token's value, or is no text. The only error is lack of memory, here and in what follows.
pub fn label(alloc: Global, name: &[u8]) -> Result<String, AllocError> {
    label_of(alloc, std::str::from_utf8(name).unwrap_or(""))
}

/// A name, unless it may be a token's value.
pub(crate) fn label_of(alloc: Global, name: &str) -> Result<String, AllocError>
    ensures { IfOk result (λ text. string_bytes text ≡ label name.now) }
{
    if is_token_like(name.as_bytes()) {
        String::from_str(alloc, "(a name like a token's value)")
    } else {
        String::from_str(alloc, name)
    }
}

/// Whose something is that stands over the entry at an index.
pub(crate) fn whose(
    alloc: Global,
    subject: &Subject,
    index: u32,
    over: u32,
) -> Result<String, AllocError> {
    if over == index {
        return String::from_str(alloc, "its");
    }
    let name = shown_name(alloc, subject, over)?;
    format!(in alloc; "{name}'s")
}
