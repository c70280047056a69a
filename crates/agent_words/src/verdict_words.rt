//! What a client is told by the verdict on the credential that it has brought.
ghost use Rattle.std.specs.Prelude.{◌≡◌, ◌++◌, IfOk, IfSome, OnOk};
ghost use Rattle.agent_words.specs.VerdictWords.{endless_words, kept_words, later_words, status_words};

use base_moment::Text;
use base_words::push_number;
use state_changes::ChangeKind;
use std::alloc::{AllocError, Global};

/// That another credential is being looked up; `None` where memory was wanting.
pub fn why_later(alloc: Global) -> Option<Text>
    ensures { IfSome result (λ why. why ≡ later_words) }
{
    Text::of(alloc, b"another credential is being looked up; try again").ok()
}

/// That the broker refuses to look the credential up which this change of the entry of that name brings. The only error is lack of
/// memory, here and in what follows.
pub fn why_refused(
    alloc: Global,
    name: &[u8],
    what: &ChangeKind,
    status: u16,
) -> Result<Text, AllocError>
    ensures { IfOk result (λ why. why ≡ status_words status ++ kept_words name.now what.now) }
{
    let mut text = status_text(alloc, status)?;
    push_kept(name, what, &mut text)?;
    Ok(Text::from_vec(text))
}

/// That the broker refuses to look it up.
pub fn status_text(alloc: Global, status: u16) -> Result<Vec<u8>, AllocError>
    ensures { IfOk result (λ text. text.items ≡ status_words status) }
{
    let mut text = Vec::from_slice(alloc, b"the broker answers ")?;
    push_number(alloc, u64::from(status), &mut text)?;
    text.extend_from_slice(b" to its lookup")?;
    Ok(text)
}

/// That it is that of a token which never ends.
pub fn why_endless(alloc: Global, name: &[u8], what: &ChangeKind) -> Result<Text, AllocError>
    ensures { IfOk result (λ why. why ≡ endless_words ++ kept_words name.now what.now) }
{
    let mut text = endless_text(alloc)?;
    push_kept(name, what, &mut text)?;
    Ok(Text::from_vec(text))
}

/// That it is that of a token which never ends, and nothing more.
pub fn endless_text(alloc: Global) -> Result<Vec<u8>, AllocError>
    ensures { IfOk result (λ text. text.items ≡ endless_words) }
{
    Vec::from_slice(alloc, b"it never ends (ttl 0) and needs no keeping")
}

// Appends that the entry keeps the old one, where it was to have another.
fn push_kept(name: &[u8], what: &ChangeKind, text: &mut Vec<u8>) -> Result<(), AllocError>
    ensures { OnOk result (text.new.items ≡ text.old.items ++ kept_words name.now what.now) }
{
    match what {
        ChangeKind::Replace(_) => {
            text.extend_from_slice(b": ")?;
            text.extend_from_slice(name)?;
            text.extend_from_slice(b" keeps the old one")
        }
        ChangeKind::Need(_) | ChangeKind::Add(_) | ChangeKind::Drop => Ok(()),
    }
}
