ghost use Rattle.std.specs.Prelude.{◌≡◌, ◌∷◌, [], ◌++◌, ◌≤◌, ◌<◌, ◌+◌, length, IsTrue, IfErr, IfOk, OnOk, OnErr, List, ℕ, ◌^◌, Some, false, true};
ghost use Rattle.base_disk.specs.State.{Elapses, IsNotTooLong, LeavesAlone, LeavesOnly, TellsFailure, Touches};
ghost use Rattle.base_journal.specs.Records.{IsRecordLine, AreLines, StandsFor, IsBeforeOrAfter, at_rest};
ghost use Rattle.base_journal.specs.Journals.{JournalIsAtRest, JournalIsWhole, JournalHolds, CrashLeaves, KeepsOthers, TellsLength, bytes_of_file, path_of_journal, lines_of_journal, may_have};

use crate::exchange::bytes_at;
use crate::records::{OPEN, read_records, tail_of, text_of};
use base_disk::{Disk, DiskFault, FILE_MODE, replace, write_synced};
use base_moment::Text;
use std::alloc::Global;

/// The most bytes that a journal's file has: 128 MiB.
pub const MOST_BYTES: usize = 1 << 27;

/// A journal of records, each a line of text, in a file that holds over a crash at any moment.
///
/// A record is written after a closed gate, a byte, and synced; and then the gate is opened by a write of its own, which
/// is synced too. So no crash leaves a part of a record that counts, and no sum over it has to be trusted. It has no `Debug`: a
/// record may hold a secret.
#[derive(Drop)]
pub struct Journal<'a> {
    pub(crate) alloc: Global,
    pub(crate) path: &'a str,
    pub(crate) lines: Vec<Text>,
    // Where its closed gate stands.
    pub(crate) size: usize,
    // This process has written its file, and no call has failed since.
    pub(crate) is_whole: bool,
    // The gate of the record that was put last may be open on the disk.
    pub(crate) may_be_open: bool,
}

impl<'a> Journal<'a> {
    /// Reads the journal at `path`; where there is no file it has no record. What stands after its records is a record of which a crash
    /// left a part, which was never acknowledged. Nothing is written: the first record that is put makes the file anew, so that no
    /// earlier process's word is taken for what is on the disk.
    ///
    /// `TooLong`: the file has more than 128 MiB.
    pub fn open<D: Disk>(
        alloc: Global,
        disk: &mut D,
        path: &'a str,
    ) -> Result<Journal<'a>, DiskFault>
        ensures read { IfOk result (λ journal. IsTrue D.is_known
            → StandsFor (bytes_of_file ((D.state disk.old).seen path.now)) (lines_of_journal journal)) }
        ensures path { IfOk result (λ journal. path_of_journal journal ≡ path.now) }
        ensures held { IfOk result (λ journal. JournalHolds D.is_known journal (D.state disk.new)) }
        ensures alone { IsTrue D.is_known → LeavesAlone (D.state disk.old) (D.state disk.new) }
        ensures time { IsTrue D.is_known → Elapses (D.state disk.old) (D.state disk.new) }
        ensures cause { TellsFailure (D.state disk.old) (D.state disk.new) result }
    {
        let bytes = bytes_at(alloc, disk, path)?;
        Ok(Journal {
            alloc,
            path,
            lines: read_records(alloc, &bytes)?,
            size: 0,
            is_whole: false,
            may_be_open: false,
        })
    }

    /// The records, in their order.
    pub fn records(&self) -> &[Text]
        ensures { result.now ≡ lines_of_journal self.now }
    {
        &self.lines
    }

    /// Whether the disk may have the record that was put last, also where it was refused.
    pub fn may_have(&self) -> bool
        ensures { result ≡ may_have self.now }
    {
        self.may_be_open
    }

    /// Adds a record. At `Ok` it is acknowledged: from then on each crash leaves a file that has it. After a call that failed,
    /// the file is written anew first, since nobody knows what the disk keeps of the old one.
    ///
    /// A record that is refused is on the disk at most where [`Journal::may_have`] says so: the call failed that opens its gate.
    ///
    /// `TooLong`: the file would have more than 128 MiB.
    pub fn put<D: Disk>(&mut self, disk: &mut D, line: Text) -> Result<(), DiskFault>
        requires line { IsRecordLine line }
        requires held { JournalHolds D.is_known self.old (D.state disk.old) }
        ensures acknowledged { OnOk result ((lines_of_journal self.new ≡ lines_of_journal self.old ++ line ∷ [])
            × (IsTrue D.is_known → JournalIsWhole self.new (D.state disk.new))) }
        ensures refused { OnErr result (lines_of_journal self.new ≡ lines_of_journal self.old) }
        ensures path { path_of_journal self.new ≡ path_of_journal self.old }
        ensures held { JournalHolds D.is_known self.new (D.state disk.new) }

        // A crash at any moment leaves the records, with the new one or without; or the file as it might have been left before.
        ensures any_moment { IsTrue D.is_known → LeavesOnly (D.state disk.old) (D.state disk.new)
            (CrashLeaves (path_of_journal self.old) (IsBeforeOrAfter (lines_of_journal self.old) line) (D.state disk.old)) }
        ensures gone { OnErr result (may_have self.new ≡ false → IsTrue D.is_known → LeavesOnly (D.state disk.old) (D.state disk.new)
            (CrashLeaves (path_of_journal self.old) (λ file. StandsFor file (lines_of_journal self.old)) (D.state disk.old))) }
        ensures others { IsTrue D.is_known → KeepsOthers (path_of_journal self.old) (D.state disk.old) (D.state disk.new) }
        ensures cause { TellsFailure (D.state disk.old) (D.state disk.new) result }
        ensures long { IfErr result (λ fault. IsTrue D.is_known → TellsLength (length (at_rest (lines_of_journal self.old ++ line ∷ []))) fault) }
    {
        self.may_be_open = false;
        self.lines.reserve(1)?;
        self.write(disk, &line)?;
        // There is room for it.
        self.lines.push(line)?;
        self.is_whole = true;
        Ok(())
    }

    /// Makes sure of the file, and writes a record. That the file is at rest is left for the caller to say, who adds the record to
    /// those that are held.
    #[tactic(auto, using(crate::proofs::Writing::longer_still, crate::proofs::Steps::not_long))]
    fn write<D: Disk>(&mut self, disk: &mut D, line: &Text) -> Result<(), DiskFault>
        requires line { IsRecordLine line.now }
        requires held { JournalHolds D.is_known self.old (D.state disk.old) }
        ensures written { OnOk result (IsTrue D.is_known
            → JournalIsAtRest (path_of_journal self.old) (lines_of_journal self.old ++ line.now ∷ []) self.new.size (D.state disk.new)) }
        ensures opened { OnOk result (may_have self.new ≡ true) }
        ensures lines { lines_of_journal self.new ≡ lines_of_journal self.old }
        ensures path { path_of_journal self.new ≡ path_of_journal self.old }
        ensures held { JournalHolds D.is_known self.new (D.state disk.new) }
        ensures any_moment { IsTrue D.is_known → LeavesOnly (D.state disk.old) (D.state disk.new)
            (CrashLeaves (path_of_journal self.old) (IsBeforeOrAfter (lines_of_journal self.old) line.now) (D.state disk.old)) }
        ensures gone { OnErr result (may_have self.new ≡ false → IsTrue D.is_known → LeavesOnly (D.state disk.old) (D.state disk.new)
            (CrashLeaves (path_of_journal self.old) (λ file. StandsFor file (lines_of_journal self.old)) (D.state disk.old))) }
        ensures others { IsTrue D.is_known → KeepsOthers (path_of_journal self.old) (D.state disk.old) (D.state disk.new) }
        ensures cause { TellsFailure (D.state disk.old) (D.state disk.new) result }
        ensures long { IfErr result (λ fault. IsTrue D.is_known → TellsLength (length (at_rest (lines_of_journal self.old ++ line.now ∷ []))) fault) }
    {
        self.refresh(disk)?;
        let len = line.list().len();
        let size = self.size.saturating_add(len).saturating_add(3);
        if size > MOST_BYTES {
            return Err(DiskFault::TooLong);
        }
        let tail = tail_of(self.alloc, line.list())?;
        self.is_whole = false;
        self.append(disk, line, &tail)?;
        self.size += len + 2;
        Ok(())
    }

    /// Writes a record after the closed gate, and opens the gate.
    fn append<D: Disk>(&mut self, disk: &mut D, line: &Text, tail: &[u8]) -> Result<(), DiskFault>
        requires line { IsRecordLine line.now }
        requires tail { tail.now ≡ line.now ++ 10 ∷ 45 ∷ [] }
        requires room { self.old.size < 2 ^ 60 }
        requires whole { IsTrue D.is_known → JournalIsWhole self.old (D.state disk.old) }
        ensures acknowledged { OnOk result (IsTrue D.is_known → JournalIsAtRest (path_of_journal self.old) (lines_of_journal self.old ++ line.now ∷ [])
            (self.old.size + (length line.now + 2)) (D.state disk.new)) }
        ensures opened { OnOk result (may_have self.new ≡ true) }
        ensures rest { self.new ≡ record self.old { may_be_open = self.new.may_be_open } }
        ensures any_moment { IsTrue D.is_known → LeavesOnly (D.state disk.old) (D.state disk.new)
            (CrashLeaves (path_of_journal self.old) (IsBeforeOrAfter (lines_of_journal self.old) line.now) (D.state disk.old)) }
        ensures gone { OnErr result (may_have self.new ≡ false → IsTrue D.is_known → LeavesOnly (D.state disk.old) (D.state disk.new)
            (CrashLeaves (path_of_journal self.old) (λ file. StandsFor file (lines_of_journal self.old)) (D.state disk.old))) }
        ensures touches { IsTrue D.is_known → Touches (path_of_journal self.old) (D.state disk.old) (D.state disk.new) }
        ensures cause { TellsFailure (D.state disk.old) (D.state disk.new) result }
        ensures which { IfErr result IsNotTooLong }
    {
        write_synced(disk, self.path, self.size + 1, tail)?;
        self.may_be_open = true;
        write_synced(disk, self.path, self.size, &[OPEN])
    }

    /// Writes the file anew with the records, unless this process has written it and no call has failed since.
    pub(crate) fn refresh<D: Disk>(&mut self, disk: &mut D) -> Result<(), DiskFault>
        requires held { JournalHolds D.is_known self.old (D.state disk.old) }
        ensures whole { OnOk result (IsTrue D.is_known → JournalIsWhole self.new (D.state disk.new)) }
        ensures lines { lines_of_journal self.new ≡ lines_of_journal self.old }
        ensures path { path_of_journal self.new ≡ path_of_journal self.old }
        ensures held { JournalHolds D.is_known self.new (D.state disk.new) }
        ensures any_moment { IsTrue D.is_known → LeavesOnly (D.state disk.old) (D.state disk.new)
            (CrashLeaves (path_of_journal self.old) (λ file. StandsFor file (lines_of_journal self.old)) (D.state disk.old)) }
        ensures others { IsTrue D.is_known → KeepsOthers (path_of_journal self.old) (D.state disk.old) (D.state disk.new) }
        ensures cause { TellsFailure (D.state disk.old) (D.state disk.new) result }
        ensures long { IfErr result (TellsLength (length (at_rest (lines_of_journal self.old)))) }
    {
        if self.is_whole {
            return Ok(());
        }
        self.size = write_anew(self.alloc, disk, self.path, &self.lines)?;
        self.is_whole = true;
        Ok(())
    }
}

/// Makes these records, at rest, the file at `path`, and says where its closed gate stands.
///
/// `TooLong`: the file would have more than 128 MiB.
#[tactic(auto, using(crate::proofs::Steps::not_long))]
pub(crate) fn write_anew<D: Disk>(
    alloc: Global,
    disk: &mut D,
    path: &str,
    lines: &[Text],
) -> Result<usize, DiskFault>
    requires lines { AreLines lines.now }
    ensures written { IfOk result (λ size. IsTrue D.is_known → JournalIsAtRest path.now lines.now size (D.state disk.new)) }
    ensures any_moment { IsTrue D.is_known → LeavesOnly (D.state disk.old) (D.state disk.new)
        (CrashLeaves path.now (λ file. StandsFor file lines.now) (D.state disk.old)) }
    ensures others { IsTrue D.is_known → KeepsOthers path.now (D.state disk.old) (D.state disk.new) }
    ensures cause { TellsFailure (D.state disk.old) (D.state disk.new) result }
    ensures long { IfErr result (TellsLength (length (at_rest lines.now))) }
{
    let text = text_of(alloc, lines)?;
    if text.len() > MOST_BYTES {
        return Err(DiskFault::TooLong);
    }
    replace(disk, path, FILE_MODE, &text)?;
    Ok(text.len() - 1)
}
