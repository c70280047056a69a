//! What is said where the broker has said nothing of a credential that was looked up.
ghost use Rattle.std.specs.Prelude.{◌≡◌, ◌++◌, IfOk, OnOk};
ghost use Rattle.agent_log.specs.LookupLosses.{line_with_loss, loss_text};

use crate::log_words::reason_text;
use base_moment::Text;
use base_words::push_number;
use std::alloc::{AllocError, Global};
use vault_lanes::Loss;

/// The line, and that the broker has said nothing of the credential, where it was asked and has not. The only error is lack of memory.
pub fn line_with_loss(alloc: Global, line: Text, why: Option<Loss>) -> Result<Text, AllocError>
    ensures { IfOk result (λ text. text ≡ line_with_loss why line) }
{
    let Some(why) = why else {
        return Ok(line);
    };
    let mut text = line.into_vec();
    text.extend_from_slice(b" (it could not be looked up: ")?;
    push_loss(alloc, why, &mut text)?;
    text.extend_from_slice(b")")?;
    Ok(Text::from_vec(text))
}

// Appends the word of a loss.
fn push_loss(alloc: Global, why: Loss, text: &mut Vec<u8>) -> Result<(), AllocError>
    ensures { OnOk result (text.new.items ≡ text.old.items ++ loss_text why) }
{
    match why {
        Loss::Connect(reason) => {
            text.extend_from_slice(b"connect: ")?;
            text.extend_from_slice(reason_text(reason))
        }
        Loss::Timeout => text.extend_from_slice(b"timeout"),
        Loss::Closed => text.extend_from_slice(b"closed"),
        Loss::Reply => text.extend_from_slice(b"reply"),
        Loss::Status(status) => push_number(alloc, u64::from(status), text),
    }
}
