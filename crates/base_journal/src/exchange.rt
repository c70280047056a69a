ghost use Rattle.std.specs.Prelude.{◌≡◌, ◌++◌, true, false, IsTrue, IfOk, OnOk, OnErr, List, ℕ};
ghost use Rattle.std.specs.Str.{bytes_eq};
ghost use Rattle.base_disk.specs.State.{LeavesAlone, Elapses, LeavesOnly, TellsFailure};
ghost use Rattle.base_journal.specs.Records.{AreLines, StandsFor, lines_kept, lines_taken_out};
ghost use Rattle.base_journal.specs.Journals.{JournalIsWhole, JournalHolds, CrashLeaves, Exchanging, KeepsOthers, FileIsThere, bytes_of_file, path_of_journal, lines_of_journal};

use crate::Journal;
use crate::journal::{MOST_BYTES, write_anew};
use crate::records::{with_taken, without};
use base_disk::{Disk, DiskFault, FILE_MODE, replace};
use base_moment::Text;
use std::alloc::Global;

/// From so many void records on it is worth while to take them out.
pub const COMPACT_AT: usize = 1000;

impl<'a> Journal<'a> {
    /// Takes out the records that the caller says are void; the others stay, in their order. It is worth while from
    /// [`COMPACT_AT`] void ones on.
    pub fn compact<D: Disk>(&mut self, disk: &mut D, is_void: &[bool]) -> Result<(), DiskFault>
        requires held { JournalHolds D.is_known self.old (D.state disk.old) }
        ensures taken_out { OnOk result ((lines_of_journal self.new ≡ lines_kept (lines_of_journal self.old) is_void.now)
            × (IsTrue D.is_known → JournalIsWhole self.new (D.state disk.new))) }
        ensures refused { OnErr result (lines_of_journal self.new ≡ lines_of_journal self.old) }
        ensures path { path_of_journal self.new ≡ path_of_journal self.old }
        ensures held { JournalHolds D.is_known self.new (D.state disk.new) }

        // A crash at any moment leaves the file as it might have been left before, or the records that stay.
        ensures any_moment { IsTrue D.is_known → LeavesOnly (D.state disk.old) (D.state disk.new)
            (CrashLeaves (path_of_journal self.old) (λ file. StandsFor file (lines_kept (lines_of_journal self.old) is_void.now)) (D.state disk.old)) }
        ensures others { IsTrue D.is_known → KeepsOthers (path_of_journal self.old) (D.state disk.old) (D.state disk.new) }
        ensures cause { TellsFailure (D.state disk.old) (D.state disk.new) result }
    {
        let left = without(self.alloc, &self.lines, is_void)?;
        self.rewrite(disk, left)
    }

    /// Takes out the records that the caller says are damaged, once they are in the file at `aside`, each a line after what was
    /// there; the others stay, in their order.
    ///
    /// `TooLong`: one of the two files has more than 128 MiB.
    pub fn set_aside<D: Disk>(
        &mut self,
        disk: &mut D,
        aside: &str,
        is_damaged: &[bool],
    ) -> Result<(), DiskFault>
        requires apart { bytes_eq (path_of_journal self.old) aside.now ≡ false }
        requires held { JournalHolds D.is_known self.old (D.state disk.old) }
        ensures taken_out { OnOk result ((lines_of_journal self.new ≡ lines_kept (lines_of_journal self.old) is_damaged.now)
            × (IsTrue D.is_known → JournalIsWhole self.new (D.state disk.new))) }
        ensures there { OnOk result (IsTrue D.is_known → FileIsThere aside.now
            (record { mode = 384; bytes = bytes_of_file ((D.state disk.old).seen aside.now) ++ lines_taken_out (lines_of_journal self.old) is_damaged.now }) (D.state disk.new)) }
        ensures refused { OnErr result (lines_of_journal self.new ≡ lines_of_journal self.old) }
        ensures path { path_of_journal self.new ≡ path_of_journal self.old }
        ensures held { JournalHolds D.is_known self.new (D.state disk.new) }

        // A crash at any moment leaves the damaged records in the journal, or in the file aside, or in both.
        ensures any_moment { IsTrue D.is_known → LeavesOnly (D.state disk.old) (D.state disk.new) (Exchanging (path_of_journal self.old) aside.now
            (record { mode = 384; bytes = bytes_of_file ((D.state disk.old).seen aside.now) ++ lines_taken_out (lines_of_journal self.old) is_damaged.now })
            (λ file. StandsFor file (lines_kept (lines_of_journal self.old) is_damaged.now)) (D.state disk.old)) }
        ensures others { IsTrue D.is_known → (other : List ℕ) → bytes_eq (path_of_journal self.old) other ≡ false → bytes_eq aside.now other ≡ false
            → ((D.state disk.new).seen other ≡ (D.state disk.old).seen other) × ((D.state disk.new).is_sound other ≡ (D.state disk.old).is_sound other) }
        ensures cause { TellsFailure (D.state disk.old) (D.state disk.new) result }
    {
        let before = bytes_at(self.alloc, disk, aside)?;
        let bytes = with_taken(before, &self.lines, is_damaged)?;
        let left = without(self.alloc, &self.lines, is_damaged)?;
        self.exchange(disk, aside, FILE_MODE, &bytes, left)
    }

    /// Makes `target` a file with these bytes, and then takes out the records that the caller says are handed over with it; the others
    /// stay, in their order.
    ///
    /// After an `Err` the journal has its records.
    pub fn hand_over<D: Disk>(
        &mut self,
        disk: &mut D,
        target: &str,
        mode: u32,
        bytes: &[u8],
        is_handed: &[bool],
    ) -> Result<(), DiskFault>
        requires apart { bytes_eq (path_of_journal self.old) target.now ≡ false }
        requires held { JournalHolds D.is_known self.old (D.state disk.old) }
        ensures there { OnOk result (IsTrue D.is_known → FileIsThere target.now (record { mode = mode; bytes = bytes.now }) (D.state disk.new)) }
        ensures taken_out { OnOk result ((lines_of_journal self.new ≡ lines_kept (lines_of_journal self.old) is_handed.now)
            × (IsTrue D.is_known → JournalIsWhole self.new (D.state disk.new))) }
        ensures refused { OnErr result (lines_of_journal self.new ≡ lines_of_journal self.old) }
        ensures path { path_of_journal self.new ≡ path_of_journal self.old }
        ensures held { JournalHolds D.is_known self.new (D.state disk.new) }

        // A crash at any moment leaves the two as they were; or the new file, and the journal as it was or with the records that stay.
        ensures any_moment { IsTrue D.is_known → LeavesOnly (D.state disk.old) (D.state disk.new) (Exchanging (path_of_journal self.old) target.now
            (record { mode = mode; bytes = bytes.now }) (λ file. StandsFor file (lines_kept (lines_of_journal self.old) is_handed.now)) (D.state disk.old)) }
        ensures others { IsTrue D.is_known → (other : List ℕ) → bytes_eq (path_of_journal self.old) other ≡ false → bytes_eq target.now other ≡ false
            → ((D.state disk.new).seen other ≡ (D.state disk.old).seen other) × ((D.state disk.new).is_sound other ≡ (D.state disk.old).is_sound other) }
        ensures cause { TellsFailure (D.state disk.old) (D.state disk.new) result }
    {
        let left = without(self.alloc, &self.lines, is_handed)?;
        self.exchange(disk, target, mode, bytes, left)
    }

    /// Makes `target` this file, and then these the records.
    fn exchange<D: Disk>(
        &mut self,
        disk: &mut D,
        target: &str,
        mode: u32,
        bytes: &[u8],
        lines: Vec<Text>,
    ) -> Result<(), DiskFault>
        requires apart { bytes_eq (path_of_journal self.old) target.now ≡ false }
        requires lines { AreLines lines.items }
        requires held { JournalHolds D.is_known self.old (D.state disk.old) }
        ensures there { OnOk result (IsTrue D.is_known → FileIsThere target.now (record { mode = mode; bytes = bytes.now }) (D.state disk.new)) }
        ensures taken { OnOk result ((lines_of_journal self.new ≡ lines.items) × (IsTrue D.is_known → JournalIsWhole self.new (D.state disk.new))) }
        ensures refused { OnErr result (lines_of_journal self.new ≡ lines_of_journal self.old) }
        ensures path { path_of_journal self.new ≡ path_of_journal self.old }
        ensures held { JournalHolds D.is_known self.new (D.state disk.new) }
        ensures any_moment { IsTrue D.is_known → LeavesOnly (D.state disk.old) (D.state disk.new)
            (Exchanging (path_of_journal self.old) target.now (record { mode = mode; bytes = bytes.now }) (λ file. StandsFor file lines.items) (D.state disk.old)) }
        ensures others { IsTrue D.is_known → (other : List ℕ) → bytes_eq (path_of_journal self.old) other ≡ false → bytes_eq target.now other ≡ false
            → ((D.state disk.new).seen other ≡ (D.state disk.old).seen other) × ((D.state disk.new).is_sound other ≡ (D.state disk.old).is_sound other) }
        ensures cause { TellsFailure (D.state disk.old) (D.state disk.new) result }
    {
        replace(disk, target, mode, bytes)?;
        self.rewrite(disk, lines)
    }

    /// Makes these the records.
    fn rewrite<D: Disk>(&mut self, disk: &mut D, lines: Vec<Text>) -> Result<(), DiskFault>
        requires lines { AreLines lines.items }
        requires old { AreLines (lines_of_journal self.old) }
        ensures taken { OnOk result ((lines_of_journal self.new ≡ lines.items) × (IsTrue D.is_known → JournalIsWhole self.new (D.state disk.new))) }
        ensures refused { OnErr result (lines_of_journal self.new ≡ lines_of_journal self.old) }
        ensures path { path_of_journal self.new ≡ path_of_journal self.old }
        ensures held { JournalHolds D.is_known self.new (D.state disk.new) }
        ensures any_moment { IsTrue D.is_known → LeavesOnly (D.state disk.old) (D.state disk.new)
            (CrashLeaves (path_of_journal self.old) (λ file. StandsFor file lines.items) (D.state disk.old)) }
        ensures others { IsTrue D.is_known → KeepsOthers (path_of_journal self.old) (D.state disk.old) (D.state disk.new) }
        ensures cause { TellsFailure (D.state disk.old) (D.state disk.new) result }
    {
        self.is_whole = false;
        let size = write_anew(self.alloc, disk, self.path, &lines)?;
        self.lines = lines;
        self.size = size;
        self.is_whole = true;
        Ok(())
    }
}

/// The bytes of the file at `path`; none where there is no file.
pub(crate) fn bytes_at<D: Disk>(
    alloc: Global,
    disk: &mut D,
    path: &str,
) -> Result<Vec<u8>, DiskFault>
    ensures bytes { IfOk result (λ bytes. IsTrue D.is_known → bytes.items ≡ bytes_of_file ((D.state disk.old).seen path.now)) }
    ensures alone { IsTrue D.is_known → LeavesAlone (D.state disk.old) (D.state disk.new) }
    ensures time { IsTrue D.is_known → Elapses (D.state disk.old) (D.state disk.new) }
    ensures cause { TellsFailure (D.state disk.old) (D.state disk.new) result }
{
    let Some(text) = disk.read(alloc, path, MOST_BYTES)? else {
        return Ok(Vec::new(alloc));
    };
    Ok(text.into_vec())
}
