ghost use Rattle.std.specs.Prelude.{◌≡◌, IfErr, IfOk, IsTrue, MatchOption, OnOk, false, true};
ghost use Rattle.std.specs.Str.{bytes_eq};
ghost use Rattle.state_changes.specs.Words.{fingerprint};
ghost use Rattle.base_disk.specs.State.{Elapses, LeavesAlone};
ghost use Rattle.base_journal.specs.Journals.{bytes_of_file};
ghost use Rattle.state_store.specs.Moved.{IsWhyUnsaid, IsWhyUnsettled, SaysAlready, mark_line};
ghost use Rattle.state_store.specs.code.Moving.{IsMoving};

use crate::book::Book;
use crate::damaged::written;
use crate::fault::Unsettled;
use crate::store::Store;
use base_disk::{Disk, DiskFault, FILE_MODE, replace};
use base_moment::Text;
use state_changes::{Record, fingerprint};
use state_file::{SettleFault, Settled, settle};
use std::alloc::{AllocError, Global};

/// What a file is to become.
#[derive(Drop)]
struct Moving {
    /// Its text.
    text: String,
    /// The line that says so before.
    line: Text,
    /// The book then.
    book: Book,
}

impl<'a> Store<'a> {
    ghost use Rattle.std.specs.Prelude.{◌≡◌, ℕ, List, IfErr, IfOk, IsTrue, OnErr, OnOk, false, true, option_map, string_bytes};
    ghost use Rattle.std.specs.Str.{bytes_eq};
    ghost use Rattle.base_disk.specs.State.{IsAfter, LeavesOnly, TellsFailure};
    ghost use Rattle.base_disk.specs.Torn.{MovesFile};
    ghost use Rattle.base_journal.specs.Journals.{Exchanging, FileIsThere, JournalHolds, JournalIsWhole, bytes_of_file};
    ghost use Rattle.base_journal.specs.Records.{StandsFor};
    ghost use Rattle.state_store.specs.Compacted.{damaged};
    ghost use Rattle.state_store.specs.Moved.{FailsInSteps, HasMarkAtMost, IsMovedIf, IsStillThere, IsWhyUnsettled, LeftByMove, MovesInSteps, SaysByItself};
    ghost use Rattle.state_store.specs.Stores.{FileHolds, IsReplayed, book_of, is_kept, is_sure, journal_of, lines_in, path_of_store};

    /// Makes the file at `target`, whose bytes are `present`, one that says all that is kept, with this mode. It gives the text that the
    /// file has then; `None`: the file says all that already, and nothing is written. The journal keeps its records, with a mark by which
    /// they change nothing of that file, until it is emptied.
    ///
    /// # Errors
    ///
    /// The first in the order of [`Unsettled`]. What is kept is as it was then; the journal may have a mark more, which changes
    /// nothing. Where the disk may have the new file, the store is not sure of it any more, and takes no change until it is read anew.
    #[tactic(auto, using(crate::proofs::Unhanded::unsaid_unsettled))]
    pub fn settle<D: Disk>(
        &mut self,
        disk: &mut D,
        target: &str,
        mode: u32,
        present: &[u8],
    ) -> Result<Option<String>, Unsettled>
        requires apart { bytes_eq (path_of_store self.old) target.now ≡ false }
        requires held { JournalHolds D.is_known (journal_of self.old) (D.state disk.old) }
        requires replayed { IsReplayed self.old }
        requires file { FileHolds D.is_known self.old target.now (D.state disk.old) }
        ensures settled { IfOk result (λ text. IsMovedIf D.is_known self.old target.now mode (option_map string_bytes text) self.new (D.state disk.new)) }
        ensures same { OnOk result (fingerprint present.now ≡ (book_of self.old).file.mark) }
        ensures refused { IfErr result (IsWhyUnsettled (book_of self.old) present.now) }
        ensures book { OnErr result (book_of self.new ≡ book_of self.old) }
        ensures lines { OnErr result (HasMarkAtMost self.old self.new) }
        ensures sure { OnErr result (is_sure self.new ≡ true → IsStillThere D.is_known self.old target.now present.now (D.state disk.old) (D.state disk.new)) }
        ensures path { path_of_store self.new ≡ path_of_store self.old }
        ensures held { JournalHolds D.is_known (journal_of self.new) (D.state disk.new) }
        ensures replayed { IsReplayed self.new }
        ensures file { FileHolds D.is_known self.new target.now (D.state disk.new) }

        // A crash at any moment leaves what gives the same inventory: `a_crash_while_settling_changes_nothing`.
        ensures any_moment { IsTrue D.is_known → LeavesOnly (D.state disk.old) (D.state disk.new) (LeftByMove self.old target.now mode (D.state disk.old)) }

        // Step by step: the file is left alone until the journal is on the disk with its mark.
        ensures steps { IfOk result (λ text. IsTrue D.is_known → MovesInSteps D.is_known D.state self.old target.now mode present.now disk.old (option_map string_bytes text) self.new disk.new) }
        ensures begun { OnErr result (IsTrue D.is_known → FailsInSteps D.is_known D.state self.old target.now mode present.now disk.old self.new disk.new) }
    {
        refuse_changed(self.alloc, &self.book, present)?;
        let Some(moving) = next_file(self.alloc, &self.book)? else {
            return Ok(None);
        };
        let Moving { text, line, book } = moving;
        self.journal.put(disk, line)?;
        self.put_in_place(disk, target, mode, text.as_bytes(), present)?;
        self.book = book;
        Ok(Some(text))
    }

    /// Makes these bytes, which are those of the file, the last good copy, at a path that is not the journal's; and then takes the records
    /// out of the journal, where the file says all that is kept by itself. Lines that write no record stay, until they are set aside.
    /// Where the copy cannot be kept the journal has its records.
    pub fn hand_over<D: Disk>(
        &mut self,
        disk: &mut D,
        copy: &str,
        bytes: &[u8],
    ) -> Result<(), DiskFault>
        requires said { SaysByItself self.old }
        requires apart { bytes_eq (path_of_store self.old) copy.now ≡ false }
        requires held { JournalHolds D.is_known (journal_of self.old) (D.state disk.old) }
        requires replayed { IsReplayed self.old }
        ensures there { OnOk result (IsTrue D.is_known → FileIsThere copy.now (record { mode = FILE_MODE; bytes = bytes.now }) (D.state disk.new)) }
        ensures taken_out { OnOk result ((lines_in self.new ≡ damaged (lines_in self.old)) × (IsTrue D.is_known → JournalIsWhole (journal_of self.new) (D.state disk.new))) }
        ensures refused { OnErr result (lines_in self.new ≡ lines_in self.old) }
        ensures book { book_of self.new ≡ book_of self.old }
        ensures sure { is_sure self.new ≡ is_sure self.old }
        ensures kept { is_kept self.new ≡ is_kept self.old }
        ensures path { path_of_store self.new ≡ path_of_store self.old }
        ensures held { JournalHolds D.is_known (journal_of self.new) (D.state disk.new) }
        ensures replayed { IsReplayed self.new }

        // A crash at any moment leaves the old copy with the lines; or the new one, with the lines or with those that write no record.
        ensures any_moment { IsTrue D.is_known → LeavesOnly (D.state disk.old) (D.state disk.new)
            (Exchanging (path_of_store self.old) copy.now (record { mode = FILE_MODE; bytes = bytes.now }) (λ file. StandsFor file (damaged (lines_in self.old))) (D.state disk.old)) }
        ensures others { IsTrue D.is_known → (other : List ℕ) → bytes_eq (path_of_store self.old) other ≡ false → bytes_eq copy.now other ≡ false
            → ((D.state disk.new).seen other ≡ (D.state disk.old).seen other) × ((D.state disk.new).is_sound other ≡ (D.state disk.old).is_sound other) }
        ensures cause { TellsFailure (D.state disk.old) (D.state disk.new) result }
    {
        let written = written(self.alloc, self.journal.records())?;
        self.journal
            .hand_over(disk, copy, FILE_MODE, bytes, &written)
    }

    // Puts a file with these bytes in the place of one whose bytes are `present`. Where that fails, it is looked at which one is there.
    fn put_in_place<D: Disk>(
        &mut self,
        disk: &mut D,
        target: &str,
        mode: u32,
        bytes: &[u8],
        present: &[u8],
    ) -> Result<(), DiskFault>
        requires apart { bytes_eq (path_of_store self.old) target.now ≡ false }
        requires whole { IsTrue D.is_known → JournalIsWhole (journal_of self.old) (D.state disk.old) }
        ensures there { OnOk result (IsTrue D.is_known → FileIsThere target.now (record { mode = mode; bytes = bytes.now }) (D.state disk.new)) }
        ensures placed { OnOk result (is_sure self.new ≡ true) }
        ensures sure { OnErr result (is_sure self.new ≡ true → (is_sure self.old ≡ true) × (IsTrue D.is_known → bytes_of_file ((D.state disk.new).seen target.now) ≡ present.now)) }
        ensures rest { self.new ≡ record self.old { is_sure = self.new.is_sure; is_kept = self.new.is_kept } }
        ensures file { FileHolds D.is_known self.new target.now (D.state disk.new) }
        ensures seen { IsTrue D.is_known → MovesFile target.now (record { mode = mode; bytes = bytes.now }) (D.state disk.old).seen (D.state disk.new).seen }
        ensures whole { IsTrue D.is_known → JournalIsWhole (journal_of self.old) (D.state disk.new) }
        ensures any_moment { IsTrue D.is_known → LeavesOnly (D.state disk.old) (D.state disk.new)
            (IsAfter (MovesFile target.now (record { mode = mode; bytes = bytes.now })) (D.state disk.old)) }
    {
        match replace(disk, target, mode, bytes) {
            Ok(()) => {
                self.is_sure = true;
                self.is_kept = true;
                Ok(())
            }
            Err(fault) => {
                self.is_kept = false;
                self.is_sure &= has_still(self.alloc, disk, target, present);
                Err(fault)
            }
        }
    }
}

// Whether the file at a path has these bytes still, as far as it can be read.
fn has_still<D: Disk>(alloc: Global, disk: &mut D, path: &str, bytes: &[u8]) -> bool
    ensures still { IsTrue D.is_known → result ≡ true → bytes_of_file ((D.state disk.old).seen path.now) ≡ bytes.now }
    ensures alone { IsTrue D.is_known → LeavesAlone (D.state disk.old) (D.state disk.new) }
    ensures time { IsTrue D.is_known → Elapses (D.state disk.old) (D.state disk.new) }
{
    match disk.read(alloc, path, bytes.len()) {
        Ok(Some(found)) => found.list() == bytes,
        Ok(None) | Err(_) => false,
    }
}

// Refuses a file whose bytes are not those that were read.
fn refuse_changed(alloc: Global, book: &Book, present: &[u8]) -> Result<(), Unsettled>
    ensures same { OnOk result (fingerprint present.now ≡ book.now.file.mark) }
    ensures refused { IfErr result (IsWhyUnsettled book.now present.now) }
{
    let mark = fingerprint(alloc, present)?;
    if is_same(&mark, &book.file().mark) {
        Ok(())
    } else {
        Err(Unsettled::Changed)
    }
}

#[tactic(auto, using(crate::proofs::Marked::same_texts))]
fn is_same(text: &Text, other: &Text) -> bool
    ensures same { result ≡ true → text.now ≡ other.now }
    ensures other { result ≡ false → bytes_eq text.now other.now ≡ false }
{
    text.list() == other.list()
}

// What the file is to become; `None` where it says all that is kept already.
#[tactic(auto, using(crate::proofs::MovedOn::says_already, crate::proofs::MovedOn::is_moving, crate::proofs::Unhanded::unwritten_unsaid, crate::proofs::Unhanded::unhanded_unsaid, crate::proofs::Unhanded::memory_unsaid))]
fn next_file(alloc: Global, book: &Book) -> Result<Option<Moving>, SettleFault>
    ensures next { IfOk result (λ found. MatchOption found (SaysAlready book.now) (IsMoving book.now)) }
    ensures refused { IfErr result (IsWhyUnsaid book.now) }
{
    let Settled { text, served } = settle(
        alloc,
        Some(book.file().margin),
        book.file().system_max,
        book.rows().list(),
    )?;
    let line = mark_line(alloc, text.as_str())?;
    let moved = book.moved(alloc, text.as_str(), &served)?;
    if is_same(&moved.file().mark, &book.file().mark) {
        return Ok(None);
    }
    Ok(Some(Moving {
        text,
        line,
        book: moved,
    }))
}

// The line that says that the file with this text holds every change before.
#[tactic(auto, unfolding(crate::specs::Moved::mark_line))]
fn mark_line(alloc: Global, text: &str) -> Result<Text, AllocError>
    ensures { IfOk result (λ line. line ≡ mark_line text.now) }
{
    let mark = fingerprint(alloc, text.as_bytes())?;
    state_changes::text_of(alloc, &Record::Settling(mark))
}
