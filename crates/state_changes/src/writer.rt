ghost use Rattle.std.specs.Prelude.{◌≡◌, ◌++◌, IfOk, OnOk};
ghost use Rattle.std.specs.List.{join_with_byte};
ghost use Rattle.state_changes.specs.Records.{change_words, record_text};

use crate::change::{Change, ChangeKind, Record};
use crate::words::{push_need, push_row, push_word};
use base_moment::Text;
use std::alloc::{AllocError, Global};

/// The line that writes a record, without a line feed. It may hold a credential.
///
/// The only error is out of memory.
#[tactic(auto, unfolding(crate::specs::Records::record_text))]
pub fn text_of(alloc: Global, written: &Record) -> Result<Text, AllocError>
    ensures { IfOk result (λ text. text ≡ record_text written.now) }
{
    let mut text = Vec::new(alloc);
    match written {
        Record::Made(change) => push_change(alloc, change, &mut text)?,
        Record::Settling(mark) => {
            push_word(b"settling", &mut text)?;
            text.extend_from_slice(mark.list())?;
        }
    }
    Ok(Text::from_vec(text))
}

fn push_change(alloc: Global, change: &Change, text: &mut Vec<u8>) -> Result<(), AllocError>
    ensures { OnOk result (text.new.items ≡ text.old.items ++ join_with_byte 32 (change_words change.now.name change.now.was change.now.what)) }
{
    let (name, was) = (change.name.list(), change.was.list());
    match &change.what {
        ChangeKind::Need(until) => {
            push_word(b"need", text)?;
            push_word(name, text)?;
            push_word(was, text)?;
            push_need(alloc, *until, text)
        }
        ChangeKind::Replace(credential) => {
            push_word(b"replace", text)?;
            push_word(name, text)?;
            push_word(was, text)?;
            text.extend_from_slice(credential.list())
        }
        ChangeKind::Add(row) => {
            push_word(b"add", text)?;
            push_word(was, text)?;
            push_row(alloc, row, text)
        }
        ChangeKind::Drop => {
            push_word(b"drop", text)?;
            push_word(name, text)?;
            text.extend_from_slice(was)
        }
    }
}
