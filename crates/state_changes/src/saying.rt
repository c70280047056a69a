ghost use Rattle.std.specs.Prelude.{◌≡◌, IfOk};
ghost use Rattle.state_changes.specs.Said.{said, said_of};

use crate::change::ChangeKind;
use crate::row::Row;
use crate::rows::Rows;
use crate::words::{fingerprint, push_need, push_row};
use base_moment::Text;
use std::alloc::{AllocError, Global};

/// What an inventory says of the word that a change is about: of a need, that need; of a credential, its fingerprint; of
/// a whole entry, the fingerprint of that; and `absent` where no entry has the name. A change stands beside what the file
/// says so when the change is made.
///
/// The only error is out of memory.
#[tactic(auto, unfolding(crate::specs::Said::said))]
pub fn said(alloc: Global, rows: &Rows, name: &[u8], what: &ChangeKind) -> Result<Text, AllocError>
    ensures { IfOk result (λ word. word ≡ said rows.now name.now what.now) }
{
    match rows.named(name) {
        None => Text::of(alloc, b"absent"),
        Some(row) => said_of(alloc, row, what),
    }
}

fn said_of(alloc: Global, row: &Row, what: &ChangeKind) -> Result<Text, AllocError>
    ensures { IfOk result (λ word. word ≡ said_of row.now what.now) }
{
    let mut text = Vec::new(alloc);
    match what {
        ChangeKind::Need(_) => {
            push_need(alloc, row.need, &mut text)?;
            Ok(Text::from_vec(text))
        }
        ChangeKind::Replace(_) => fingerprint(alloc, row.credential.list()),
        ChangeKind::Add(_) | ChangeKind::Drop => {
            push_row(alloc, row, &mut text)?;
            fingerprint(alloc, &text)
        }
    }
}
