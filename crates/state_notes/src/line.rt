ghost use Rattle.std.specs.Prelude.{◌≡◌, ◌++◌, IfOk, OnOk};
ghost use Rattle.state_notes.specs.Lines.{change_word, note_line, reason_text};

use crate::reason::push_why;
use base_moment::Text;
use state_changes::{Change, ChangeKind, NotMadeReason};
use std::alloc::{AllocError, Global};

/// The line about a change of a journal that was not made again, for that reason, in an inventory of that margin in seconds: what it
/// would change, the name of its entry, and why it was not. The only error is out of memory.
#[tactic(auto, unfolding(crate::specs::Lines::note_line))]
pub fn note_line(
    alloc: Global,
    margin: u32,
    change: &Change,
    why: NotMadeReason,
) -> Result<Text, AllocError>
    ensures { IfOk result (λ line. line ≡ note_line margin change.now why) }
{
    let mut text = Vec::new(alloc);
    text.extend_from_slice(change_word(&change.what))?;
    text.extend_from_slice(change.name.list())?;
    text.extend_from_slice(b": ")?;
    push_reason(alloc, margin, change, why, &mut text)?;
    Ok(Text::from_vec(text))
}

// Appends why a change of a journal was not made.
fn push_reason(
    alloc: Global,
    margin: u32,
    change: &Change,
    why: NotMadeReason,
    text: &mut Vec<u8>,
) -> Result<(), AllocError>
    ensures { OnOk result (text.new.items ≡ text.old.items ++ reason_text margin change.now why) }
{
    match why {
        NotMadeReason::FileWins => text.extend_from_slice(b"the file has changed since, and wins"),
        NotMadeReason::Refused(fault) => {
            push_why(alloc, margin, change.name.list(), &change.what, fault, text)
        }
    }
}

fn change_word(what: &ChangeKind) -> &'static [u8]
    ensures { result.now ≡ change_word what.now }
{
    match what {
        ChangeKind::Need(_) => b"need ",
        ChangeKind::Replace(_) => b"replace ",
        ChangeKind::Add(_) => b"add ",
        ChangeKind::Drop => b"drop ",
    }
}
