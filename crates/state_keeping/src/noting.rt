ghost use Rattle.std.specs.Prelude.{◌≡◌, ◌++◌, IfOk, OnOk, option_copied};
ghost use Rattle.state_keeping.specs.Noted.{line_about, lines_in_note, note_lines};

use base_moment::Text;
use state_changes::{JournalNote, NotMadeReason, Record};
use state_notes::note_line;
use std::alloc::{AllocError, Global};

/// The lines about these changes of a journal that were not made again, by the places of their records, in an inventory of that margin
/// in seconds. A note of no change has none. The only error is lack of memory.
#[tactic(auto, using(crate::proofs::Noticed::lines_none, crate::proofs::Noticed::lines_more, crate::proofs::Noticed::lines_all))]
pub(crate) fn note_lines(
    alloc: Global,
    margin: u32,
    records: &[Record],
    notes: &[JournalNote],
) -> Result<Vec<Text>, AllocError>
    ensures { IfOk result (λ lines. lines.items ≡ note_lines margin records.now notes.now) }
{
    let mut lines = Vec::new(alloc);
    for note in notes {
        push_noted(alloc, margin, records, note, &mut lines)?;
    }
    Ok(lines)
}

// Appends the line about the record at the place of a note.
fn push_noted(
    alloc: Global,
    margin: u32,
    records: &[Record],
    note: &JournalNote,
    lines: &mut Vec<Text>,
) -> Result<(), AllocError>
    ensures { OnOk result (lines.new.items ≡ lines.old.items ++ lines_in_note margin records.now note.now) }
{
    push_line(alloc, margin, records.get(note.at), note.why, lines)
}

// Appends the line about a change, where the record is one.
fn push_line(
    alloc: Global,
    margin: u32,
    noted: Option<&Record>,
    why: NotMadeReason,
    lines: &mut Vec<Text>,
) -> Result<(), AllocError>
    ensures { OnOk result (lines.new.items ≡ lines.old.items ++ line_about margin why (option_copied noted.entry)) }
{
    let Some(Record::Made(change)) = noted else {
        return Ok(());
    };
    lines.push(note_line(alloc, margin, change, why)?)?;
    Ok(())
}
