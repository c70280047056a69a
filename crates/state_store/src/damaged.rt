ghost use Rattle.std.specs.Prelude.{◌≡◌, ◌-◌, ◌++◌, ℕ, List, IfOk, IsTrue, OnErr, OnOk, false, length, is_none};
ghost use Rattle.std.specs.Str.{bytes_eq};
ghost use Rattle.state_changes.specs.Records.{record_of};
ghost use Rattle.base_disk.specs.State.{LeavesOnly, TellsFailure};
ghost use Rattle.base_journal.specs.Journals.{Exchanging, FileIsThere, JournalHolds, JournalIsWhole, bytes_of_file, lines_of_journal, path_of_journal};
ghost use Rattle.base_journal.specs.Records.{StandsFor, lines_taken_out};
ghost use Rattle.state_store.specs.Compacted.{damages, undamaged};
ghost use Rattle.state_store.specs.Records.{records_in};
ghost use Rattle.state_store.specs.code.Moving.{written};

use crate::records::records_in;
use base_disk::{Disk, DiskFault};
use base_journal::Journal;
use base_moment::Text;
use state_changes::read_record;
use std::alloc::{AllocError, Global};

/// How many lines of a journal write no record, as no command has made them. The only error is lack of memory.
pub fn count_damaged(alloc: Global, journal: &Journal<'_>) -> Result<usize, AllocError>
    ensures { IfOk result (λ count. count ≡ length (lines_of_journal journal.now) - length (records_in (lines_of_journal journal.now))) }
{
    let lines = journal.records();
    let records = records_in(alloc, lines)?;
    Ok(lines.len().saturating_sub(records.len()))
}

/// Takes the lines out of a journal that write no record, once they are in the file at `aside` after what was there. The records are as
/// before.
///
/// `TooLong`: one of the two files has more than 128 MiB.
#[tactic(auto, using(crate::proofs::Undamaged::same_records))]
pub fn set_damaged_aside<D: Disk>(
    alloc: Global,
    disk: &mut D,
    journal: &mut Journal<'_>,
    aside: &str,
) -> Result<(), DiskFault>
    requires apart { bytes_eq (path_of_journal journal.old) aside.now ≡ false }
    requires held { JournalHolds D.is_known journal.old (D.state disk.old) }
    ensures taken_out { OnOk result ((lines_of_journal journal.new ≡ undamaged (lines_of_journal journal.old)) × (IsTrue D.is_known → JournalIsWhole journal.new (D.state disk.new))) }
    ensures there { OnOk result (IsTrue D.is_known → FileIsThere aside.now
        (record { mode = 384; bytes = bytes_of_file ((D.state disk.old).seen aside.now) ++ lines_taken_out (lines_of_journal journal.old) (damages (lines_of_journal journal.old)) }) (D.state disk.new)) }
    ensures refused { OnErr result (lines_of_journal journal.new ≡ lines_of_journal journal.old) }
    ensures records { records_in (lines_of_journal journal.new) ≡ records_in (lines_of_journal journal.old) }
    ensures path { path_of_journal journal.new ≡ path_of_journal journal.old }
    ensures held { JournalHolds D.is_known journal.new (D.state disk.new) }

    // A crash at any moment leaves the damaged lines in the journal, or in the file aside, or in both.
    ensures any_moment { IsTrue D.is_known → LeavesOnly (D.state disk.old) (D.state disk.new) (Exchanging (path_of_journal journal.old) aside.now
        (record { mode = 384; bytes = bytes_of_file ((D.state disk.old).seen aside.now) ++ lines_taken_out (lines_of_journal journal.old) (damages (lines_of_journal journal.old)) })
        (λ file. StandsFor file (undamaged (lines_of_journal journal.old))) (D.state disk.old)) }
    ensures others { IsTrue D.is_known → (other : List ℕ) → bytes_eq (path_of_journal journal.old) other ≡ false → bytes_eq aside.now other ≡ false
        → ((D.state disk.new).seen other ≡ (D.state disk.old).seen other) × ((D.state disk.new).is_sound other ≡ (D.state disk.old).is_sound other) }
    ensures cause { TellsFailure (D.state disk.old) (D.state disk.new) result }
{
    let damages = damages(alloc, journal.records())?;
    journal.set_aside(disk, aside, &damages)
}

// Of each line, whether it writes no record.
#[tactic(auto, using(crate::proofs::Undamaged::damages_none, crate::proofs::Undamaged::damages_more, crate::proofs::Undamaged::damages_all))]
fn damages(alloc: Global, lines: &[Text]) -> Result<Vec<bool>, AllocError>
    ensures { IfOk result (λ outs. outs.items ≡ damages lines.now) }
{
    let mut outs = Vec::new(alloc);
    for line in lines {
        outs.push(is_damaged(alloc, line.list())?)?;
    }
    Ok(outs)
}

/// Of each line, whether it writes a record. The only error is lack of memory.
#[tactic(auto, using(crate::proofs::Staying::written_none, crate::proofs::Staying::written_more, crate::proofs::Staying::written_all))]
pub(crate) fn written(alloc: Global, lines: &[Text]) -> Result<Vec<bool>, AllocError>
    ensures { IfOk result (λ outs. outs.items ≡ written lines.now) }
{
    let mut outs = Vec::new(alloc);
    for line in lines {
        outs.push(!is_damaged(alloc, line.list())?)?;
    }
    Ok(outs)
}

// Whether a line writes no record.
fn is_damaged(alloc: Global, line: &[u8]) -> Result<bool, AllocError>
    ensures { IfOk result (λ damaged. damaged ≡ is_none (record_of line.now)) }
{
    match read_record(alloc, line)? {
        None => Ok(true),
        Some(_) => Ok(false),
    }
}
