//! What a file of a credential holds.
ghost use Rattle.std.specs.Prelude.{◌≡◌, IfOk};
ghost use Rattle.std.specs.List.{list_all};
ghost use Rattle.std.specs.Int.{is_in_range};
ghost use Rattle.vault_inventory.specs.Values.{is_credential};
ghost use Rattle.base_words.specs.Texts.{stripped};
ghost use Rattle.state_secrets.specs.Credentials.{credential_in};

use base_moment::Text;
use std::alloc::{AllocError, Global};
use vault_inventory::CREDENTIAL_MAX;

/// The bytes of a file with a credential at most.
pub const MOST_SECRET: usize = 4096;

/// The credential that a text is, without the white space around it; `None` where it is none. The only error is out of memory.
pub fn credential_in(alloc: Global, text: &[u8]) -> Result<Option<Text>, AllocError>
    ensures { IfOk result (λ credential. credential ≡ credential_in text.now) }
{
    let credential = stripped(text);
    if !is_credential(credential) {
        return Ok(None);
    }
    Ok(Some(Text::of(alloc, credential)?))
}

fn stripped(text: &[u8]) -> &[u8]
    ensures { result.now ≡ stripped text.now }
{
    text.trim_ascii()
}

// Whether these bytes are a credential: 1 to 256 bytes from 0x21 to 0x7E.
fn is_credential(text: &[u8]) -> bool
    ensures { result ≡ is_credential text.now }
{
    !text.is_empty() && text.len() <= CREDENTIAL_MAX && is_visible(text)
}

fn is_visible(text: &[u8]) -> bool
    ensures { result ≡ list_all (is_in_range 0x21 0x7E) text.now }
{
    text.iter().all(|b| *b >= 0x21 && *b <= 0x7e)
}
