ghost use Rattle.std.specs.Prelude.{◌≡◌, IfOk, MatchOption, false, filter, length, true};
ghost use Rattle.state_changes.specs.Compaction.{voids};
ghost use Rattle.state_store.specs.Compacted.{is_worth};
ghost use Rattle.state_store.specs.Records.{records_in};

use crate::records::records_in;
use crate::store::Store;
use base_disk::{Disk, DiskFault};
use base_journal::COMPACT_AT;
use base_moment::Text;
use state_changes::voids;
use std::alloc::{AllocError, Global};

/// Once in so many lines it is time to look whether a compaction is worth while.
const LOOK_EVERY: usize = 1000;

impl<'a> Store<'a> {
    ghost use Rattle.std.specs.Prelude.{◌≡◌, IfOk, IsTrue, OnErr, if◌then◌else◌};
    ghost use Rattle.base_disk.specs.State.{LeavesOnly, TellsFailure};
    ghost use Rattle.base_journal.specs.Journals.{CrashLeaves, JournalHolds, KeepsOthers};
    ghost use Rattle.base_journal.specs.Records.{StandsFor};
    ghost use Rattle.state_store.specs.Compacted.{compacted_lines, is_worth};
    ghost use Rattle.state_store.specs.Stores.{IsReplayed, book_of, is_kept, is_sure, journal_of, lines_in, path_of_store};

    /// Takes out of the journal each record that a later one makes void, where that is worth while: [`COMPACT_AT`] or more are void, and
    /// each line writes a record. `true` then. What is kept stays as it is, and so does what any file gives with the journal.
    ///
    /// It looks only where the number of lines is a multiple of 1,000, so that it may be called after each change. The only errors are
    /// those of the disk, and lack of memory; the lines are as they were then.
    #[tactic(auto, using(crate::proofs::Undamaged::compacted_is))]
    pub fn compact<D: Disk>(&mut self, disk: &mut D) -> Result<bool, DiskFault>
        requires held { JournalHolds D.is_known (journal_of self.old) (D.state disk.old) }
        requires replayed { IsReplayed self.old }
        ensures worth { IfOk result (λ done. done ≡ is_worth (lines_in self.old)) }
        ensures lines { IfOk result (λ done. lines_in self.new ≡ (if done then compacted_lines (lines_in self.old) else lines_in self.old)) }
        ensures refused { OnErr result (lines_in self.new ≡ lines_in self.old) }
        ensures book { book_of self.new ≡ book_of self.old }
        ensures sure { is_sure self.new ≡ is_sure self.old }
        ensures kept { is_kept self.new ≡ is_kept self.old }
        ensures path { path_of_store self.new ≡ path_of_store self.old }
        ensures held { JournalHolds D.is_known (journal_of self.new) (D.state disk.new) }
        ensures replayed { IsReplayed self.new }

        // A crash at any moment leaves the lines, or those that stay.
        ensures any_moment { IsTrue D.is_known → LeavesOnly (D.state disk.old) (D.state disk.new)
            (CrashLeaves (path_of_store self.old) (λ file. StandsFor file (compacted_lines (lines_in self.old))) (D.state disk.old)) }
        ensures others { IsTrue D.is_known → KeepsOthers (path_of_store self.old) (D.state disk.old) (D.state disk.new) }
        ensures cause { TellsFailure (D.state disk.old) (D.state disk.new) result }
    {
        let Some(voids) = worth(self.alloc, self.journal.records())? else {
            return Ok(false);
        };
        self.journal.compact(disk, &voids)?;
        Ok(true)
    }
}

// Of each line, whether a later one makes its record void, where it is worth while to take those out.
#[tactic(auto, unfolding(crate::specs::Compacted::is_worth))]
fn worth(alloc: Global, lines: &[Text]) -> Result<Option<Vec<bool>>, AllocError>
    ensures { IfOk result (λ found. MatchOption found (is_worth lines.now ≡ false)
        (λ outs. (outs.items ≡ voids (records_in lines.now)) × (is_worth lines.now ≡ true))) }
{
    if lines.len() % LOOK_EVERY != 0 {
        return Ok(None);
    }
    let records = records_in(alloc, lines)?;
    if records.len() != lines.len() {
        return Ok(None);
    }
    let outs = voids(alloc, &records)?;
    if count_of(&outs) < COMPACT_AT {
        return Ok(None);
    }
    Ok(Some(outs))
}

// How many of these are true.
fn count_of(outs: &[bool]) -> usize
    ensures { result ≡ length (filter (λ void. void) outs.now) }
{
    outs.iter().filter(|void| **void).count()
}
