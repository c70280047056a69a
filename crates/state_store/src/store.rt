ghost use Rattle.std.specs.Prelude.{◌≡◌, ℕ, List, IfErr, IfOk, IsTrue, None, OnOk, false, true};
ghost use Rattle.std.specs.Str.{bytes_eq};
ghost use Rattle.base_disk.specs.Image.{Image};
ghost use Rattle.base_disk.specs.State.{IsNotTooLong, LeavesOnly, TellsFailure};

use crate::book::{Book, read_if};
use crate::entering::Entered;
use crate::fault::{FileFault, TakeFault, unkept};
use crate::records::records_in;
use base_disk::{Disk, DiskFault, FILE_MODE, replace};
use base_journal::Journal;
use base_moment::{Name, Text};
use state_changes::{ChangeKind, JournalNote, Record, Secret};
use state_file::SettleFault;
use std::alloc::{AllocError, Global};
use vault_inventory::Inventory;

/// A book beside the journal of its changes. It has no `Debug`: a record of the journal may hold a secret.
#[derive(Drop)]
pub struct Store<'a> {
    pub(crate) alloc: Global,
    pub(crate) journal: Journal<'a>,
    pub(crate) book: Book,
    // The book's file is the one that a start reads, as far as this store has changed it, or has synced its copy.
    pub(crate) is_sure: bool,
    // It is on the disk: it was synced since it was read, or this store has put it there.
    pub(crate) is_kept: bool,
}

/// A store at a start.
#[derive(Drop)]
pub struct OpenedStore<'a> {
    /// What is kept.
    pub store: Store<'a>,
    /// A note on each change of the journal that was not made, by the place of its record.
    pub notes: Vec<JournalNote>,
    /// Why the last good copy is served in place of the file; `None` where the file is.
    pub fault: Option<FileFault>,
}

impl<'a> Store<'a> {
    ghost use Rattle.std.specs.Prelude.{◌≡◌, ◌∷◌, [], ◌++◌, ℕ, List, Ok, Err, IfErr, IfOk, OnErr, OnOk, IsTrue, length, true, false, option_copied};
    ghost use Rattle.std.specs.Str.{bytes_eq};
    ghost use Rattle.base_disk.specs.Image.{Image};
    ghost use Rattle.base_disk.specs.State.{DiskKeeps, IsAfter, LeavesOnly, OutcomesFollow, TellsFailure};
    ghost use Rattle.base_disk.specs.Torn.{MovesFile};
    ghost use Rattle.base_journal.specs.Journals.{CrashLeaves, FileIsThere, JournalHolds, JournalIsWhole, KeepsOthers};
    ghost use Rattle.base_journal.specs.Records.{IsBeforeOrAfter, IsRecordLine, StandsFor, at_rest};
    ghost use Rattle.vault_served.specs.ForGood.{inventory_for_good};
    ghost use Rattle.state_store.specs.Books.{HasSecrets, IsBookIf, IsFileFaultOf, IsWhyUnhanded};
    ghost use Rattle.state_store.specs.declared.fault.TakeFault.TheVariants.{Unread};
    ghost use Rattle.state_store.specs.Entering.{FaultTellsLength, TellsDisk, line_for_change, may_hold};
    ghost use Rattle.state_store.specs.Records.{records_in};
    ghost use Rattle.state_store.specs.code.Faults.{IsOfNoLength, IsUnkept};
    ghost use Rattle.state_store.specs.Stores.{ChangeIsTaken, FileHolds, IsKeptOrNone, IsReplayed, IsWhyUntaken, KeepsAllBut, book_of, is_kept, is_sure, journal_of, lines_in, path_of_store, size_with};

    /// What the file says, and what is served.
    pub fn book(&self) -> &Book
        ensures { result.now ≡ book_of self.now }
    {
        &self.book
    }

    /// Whether the file is the one that was read: no settling has failed since that may have put another in its place.
    pub fn is_sure(&self) -> bool
        ensures { result ≡ is_sure self.now }
    {
        self.is_sure
    }

    /// The lines of the journal, in order.
    pub fn lines(&self) -> &[Text]
        ensures { result.now ≡ lines_in self.now }
    {
        self.journal.records()
    }

    /// The records that the lines write, in order. The only error is lack of memory.
    pub fn records(&self) -> Result<Vec<Record>, AllocError>
        ensures { IfOk result (λ records. records.items ≡ records_in (lines_in self.now)) }
    {
        records_in(self.alloc, self.journal.records())
    }

    /// Makes a change of the entry of that name. At `Ok` it is acknowledged: each crash from then on leaves a journal that has it.
    /// `true` is a need, which the Watch takes by itself; any other change waits to be served. No change is taken beside a file that may
    /// not be the one that a start reads: the file at `target` is synced first, once after it was read.
    ///
    /// # Errors
    ///
    /// The first in the order of [`TakeFault`]. All is as it was then; but that the disk may have the change, where that is said.
    #[tactic(auto, using(crate::proofs::Taken::why_untaken, crate::proofs::Taken::unread_why, crate::proofs::Taken::unkept_untaken, crate::proofs::Told::unread_alone, crate::proofs::Told::alone_told, crate::proofs::Told::unread_long, crate::proofs::Told::alone_long))]
    pub fn take<D: Disk>(
        &mut self,
        disk: &mut D,
        target: &str,
        name: Name,
        what: ChangeKind,
    ) -> Result<bool, TakeFault>
        requires apart { bytes_eq (path_of_store self.old) target.now ≡ false }
        requires held { JournalHolds D.is_known (journal_of self.old) (D.state disk.old) }
        requires replayed { IsReplayed self.old }
        requires file { FileHolds D.is_known self.old target.now (D.state disk.old) }
        ensures taken { IfOk result (λ need. ChangeIsTaken self.old name what need self.new) }
        ensures acknowledged { OnOk result (IsTrue D.is_known → JournalIsWhole (journal_of self.new) (D.state disk.new)) }
        ensures refused { IfErr result (IsWhyUntaken self.old name what) }
        ensures unsure { is_sure self.old ≡ false → result ≡ Err Unread }
        ensures sure { is_sure self.new ≡ is_sure self.old }
        ensures book { OnErr result (book_of self.new ≡ book_of self.old) }
        ensures lines { OnErr result (lines_in self.new ≡ lines_in self.old) }
        ensures path { path_of_store self.new ≡ path_of_store self.old }
        ensures held { JournalHolds D.is_known (journal_of self.new) (D.state disk.new) }
        ensures replayed { IsReplayed self.new }
        ensures kept { OnOk result (IsKeptOrNone D.is_known self.new target.now (D.state disk.old)) }
        ensures file { FileHolds D.is_known self.new target.now (D.state disk.new) }

        // A crash at any moment leaves the journal with the change or without it.
        ensures any_moment { IsTrue D.is_known → LeavesOnly (D.state disk.old) (D.state disk.new)
            (CrashLeaves (path_of_store self.old) (IsBeforeOrAfter (lines_in self.old) (line_for_change (book_of self.old).file name what)) (D.state disk.old)) }

        // And without it where it is refused, unless it is said that the disk may have it.
        ensures gone { IfErr result (λ fault. may_hold fault ≡ false → IsTrue D.is_known → LeavesOnly (D.state disk.old) (D.state disk.new)
            (CrashLeaves (path_of_store self.old) (λ file. StandsFor file (lines_in self.old)) (D.state disk.old))) }
        ensures others { IsTrue D.is_known → KeepsAllBut (path_of_store self.old) target.now (D.state disk.old) (D.state disk.new) }
        ensures cause { TellsDisk (D.state disk.old) (D.state disk.new) result }
        ensures long { IfErr result (λ fault. IsTrue D.is_known → FaultTellsLength (size_with self.old name what) fault) }
    {
        self.refuse_unread()?;
        let entered = self.book.enter(self.alloc, name, what)?;
        let Entered {
            line,
            rows,
            text,
            is_need,
        } = entered;
        self.add(disk, target, line)?;
        self.book.turn(rows, text);
        Ok(is_need)
    }

    // Puts a record in the journal, once the file that it stands beside is on the disk.
    #[tactic(auto, using(crate::proofs::Kept::still_leaves_all, crate::proofs::Kept::but_synced, crate::proofs::Told::told_past, crate::proofs::Told::short_told))]
    fn add<D: Disk>(&mut self, disk: &mut D, target: &str, line: Text) -> Result<(), TakeFault>
        requires line { IsRecordLine line }
        requires apart { bytes_eq (path_of_store self.old) target.now ≡ false }
        requires held { JournalHolds D.is_known (journal_of self.old) (D.state disk.old) }
        requires file { FileHolds D.is_known self.old target.now (D.state disk.old) }
        ensures added { OnOk result ((lines_in self.new ≡ lines_in self.old ++ line ∷ []) × (IsTrue D.is_known → JournalIsWhole (journal_of self.new) (D.state disk.new))) }
        ensures kept { OnOk result (IsKeptOrNone D.is_known self.new target.now (D.state disk.old)) }
        ensures refused { IfErr result IsUnkept }
        ensures lines { OnErr result (lines_in self.new ≡ lines_in self.old) }
        ensures book { book_of self.new ≡ book_of self.old }
        ensures sure { is_sure self.new ≡ is_sure self.old }
        ensures path { path_of_store self.new ≡ path_of_store self.old }
        ensures held { JournalHolds D.is_known (journal_of self.new) (D.state disk.new) }
        ensures file { FileHolds D.is_known self.new target.now (D.state disk.new) }
        ensures any_moment { IsTrue D.is_known → LeavesOnly (D.state disk.old) (D.state disk.new)
            (CrashLeaves (path_of_store self.old) (IsBeforeOrAfter (lines_in self.old) line) (D.state disk.old)) }
        ensures gone { IfErr result (λ fault. may_hold fault ≡ false → IsTrue D.is_known → LeavesOnly (D.state disk.old) (D.state disk.new)
            (CrashLeaves (path_of_store self.old) (λ file. StandsFor file (lines_in self.old)) (D.state disk.old))) }
        ensures others { IsTrue D.is_known → KeepsAllBut (path_of_store self.old) target.now (D.state disk.old) (D.state disk.new) }
        ensures cause { TellsDisk (D.state disk.old) (D.state disk.new) result }
        ensures long { IfErr result (λ fault. IsTrue D.is_known → FaultTellsLength (length (at_rest (lines_in self.old ++ line ∷ []))) fault) }
    {
        self.keep_file(disk, target)?;
        match self.journal.put(disk, line) {
            Ok(()) => Ok(()),
            Err(fault) => Err(unkept(fault, self.journal.may_have())),
        }
    }

    // Syncs the file at that path, unless that was done since it was read or put there.
    #[tactic(auto, using(crate::proofs::Kept::not_begun, crate::proofs::Told::told, crate::proofs::Told::short))]
    fn keep_file<D: Disk>(&mut self, disk: &mut D, target: &str) -> Result<(), TakeFault>
        requires file { FileHolds D.is_known self.old target.now (D.state disk.old) }
        ensures kept { OnOk result (IsKeptOrNone D.is_known self.new target.now (D.state disk.old)) }
        ensures refused { IfErr result IsUnkept }
        ensures rest { self.new ≡ record self.old { is_kept = self.new.is_kept } }
        ensures file { FileHolds D.is_known self.new target.now (D.state disk.new) }
        ensures seen { IsTrue D.is_known → (D.state disk.new).seen ≡ (D.state disk.old).seen }
        ensures sound { IsTrue D.is_known → (other : List ℕ) → bytes_eq target.now other ≡ false
            → (D.state disk.new).is_sound other ≡ (D.state disk.old).is_sound other }
        ensures crash { IsTrue D.is_known → (c : Image) → (D.state disk.new).may_leave c → (D.state disk.old).may_leave c }
        ensures any_moment { IsTrue D.is_known → LeavesOnly (D.state disk.old) (D.state disk.new) (D.state disk.old).may_leave }
        ensures cause { TellsDisk (D.state disk.old) (D.state disk.new) result }
        ensures which { IfErr result IsOfNoLength }
    {
        if self.is_kept {
            return Ok(());
        }
        match sync_there(disk, target) {
            Ok(is_there) => {
                self.is_kept = is_there;
                Ok(())
            }
            Err(fault) => Err(unkept(fault, false)),
        }
    }

    // Refuses every change as long as the file may not be the one that was read.
    fn refuse_unread(&self) -> Result<(), TakeFault>
        ensures sure { OnOk result (is_sure self.now ≡ true) }
        ensures refused { IfErr result (λ fault. (fault ≡ Unread) × (is_sure self.now ≡ false)) }
        ensures unsure { is_sure self.now ≡ false → result ≡ Err Unread }
    {
        if self.is_sure {
            Ok(())
        } else {
            Err(TakeFault::Unread)
        }
    }

    /// Serves what a file with these bytes says from now on, with every change of the journal in order; a note on each of them that was
    /// not made, by the place of its record. Where the file is refused, all is as it was.
    ///
    /// # Errors
    ///
    /// The fault of the file, or `OutOfMemory`.
    #[tactic(auto, using(crate::proofs::Starting::no_memory, crate::proofs::Starting::rows_if))]
    pub fn reload(&mut self, bytes: Option<&[u8]>) -> Result<Vec<JournalNote>, FileFault>
        requires replayed { IsReplayed self.old }
        ensures reloaded { IfOk result (λ notes. IsBookIf (option_copied bytes.entry) (records_in (lines_in self.old)) (book_of self.old).secrets (book_of self.new) notes.items) }
        ensures refused { IfErr result (IsFileFaultOf (option_copied bytes.entry) (records_in (lines_in self.old)) (book_of self.old).secrets) }
        ensures unchanged { OnErr result (book_of self.new ≡ book_of self.old) }
        ensures sure { OnOk result (is_sure self.new ≡ true) }
        ensures still { OnErr result (is_sure self.new ≡ is_sure self.old) }
        ensures fresh { OnOk result (is_kept self.new ≡ false) }
        ensures kept { OnErr result (is_kept self.new ≡ is_kept self.old) }
        ensures journal { journal_of self.new ≡ journal_of self.old }
        ensures replayed { IsReplayed self.new }
    {
        let records = records_in(self.alloc, self.journal.records())?;
        let (book, notes) = read_if(self.alloc, bytes, &records, &self.book.secrets)?;
        self.book = book;
        self.is_sure = true;
        self.is_kept = false;
        Ok(notes)
    }

    /// Has from now on what these files of secrets have given. Where that cannot be handed on, as where two entries of a kind would have
    /// one credential, all is as it was.
    pub fn take_secrets(&mut self, secrets: Vec<Secret>) -> Result<(), SettleFault>
        requires replayed { IsReplayed self.old }
        ensures taken { OnOk result (HasSecrets (book_of self.old) secrets.items (book_of self.new)) }
        ensures refused { IfErr result (IsWhyUnhanded (book_of self.old).file.margin secrets.items (book_of self.old).rows) }
        ensures unchanged { OnErr result (book_of self.new ≡ book_of self.old) }
        ensures sure { is_sure self.new ≡ is_sure self.old }
        ensures kept { is_kept self.new ≡ is_kept self.old }
        ensures journal { journal_of self.new ≡ journal_of self.old }
        ensures replayed { IsReplayed self.new }
    {
        self.book.take_secrets(self.alloc, secrets)
    }

    /// Makes these bytes, which are those of a good file, the last good copy, at a path that is not the journal's.
    pub fn keep_copy<D: Disk>(
        &self,
        disk: &mut D,
        copy: &str,
        bytes: &[u8],
    ) -> Result<(), DiskFault>
        requires apart { bytes_eq (path_of_store self.now) copy.now ≡ false }
        requires held { JournalHolds D.is_known (journal_of self.now) (D.state disk.old) }
        ensures there { OnOk result (IsTrue D.is_known → FileIsThere copy.now (record { mode = FILE_MODE; bytes = bytes.now }) (D.state disk.new)) }
        ensures held { JournalHolds D.is_known (journal_of self.now) (D.state disk.new) }
        ensures others { IsTrue D.is_known → KeepsOthers copy.now (D.state disk.old) (D.state disk.new) }
        ensures crash { IsTrue D.is_known → OutcomesFollow (MovesFile copy.now (record { mode = FILE_MODE; bytes = bytes.now })) (D.state disk.old) (D.state disk.new) }

        // A crash at any moment leaves the old copy, or the new one whole; and so does a fault.
        ensures any_moment { IsTrue D.is_known → LeavesOnly (D.state disk.old) (D.state disk.new)
            (IsAfter (MovesFile copy.now (record { mode = FILE_MODE; bytes = bytes.now })) (D.state disk.old)) }
        ensures cause { TellsFailure (D.state disk.old) (D.state disk.new) result }
    {
        replace(disk, copy, FILE_MODE, bytes)
    }

    /// Syncs the last good copy, which is served in the place of the file. Where that fails, a start may read another one: no change is
    /// taken then, until the file is read anew.
    #[tactic(auto, using(crate::proofs::Kept::seen_once))]
    pub fn sync_copy<D: Disk>(&mut self, disk: &mut D, copy: &str) -> Result<(), DiskFault>
        requires apart { bytes_eq (path_of_store self.old) copy.now ≡ false }
        requires held { JournalHolds D.is_known (journal_of self.old) (D.state disk.old) }
        requires replayed { IsReplayed self.old }
        ensures durable { OnOk result (IsTrue D.is_known → (D.state disk.new).is_sound copy.now ≡ true → DiskKeeps copy.now (D.state disk.new)) }
        ensures sure { OnOk result (is_sure self.new ≡ is_sure self.old) }
        ensures unsure { OnErr result (is_sure self.new ≡ false) }
        ensures book { book_of self.new ≡ book_of self.old }
        ensures journal { journal_of self.new ≡ journal_of self.old }
        ensures kept { is_kept self.new ≡ is_kept self.old }
        ensures held { JournalHolds D.is_known (journal_of self.new) (D.state disk.new) }
        ensures replayed { IsReplayed self.new }
        ensures others { IsTrue D.is_known → KeepsOthers copy.now (D.state disk.old) (D.state disk.new) }
        ensures any_moment { IsTrue D.is_known → LeavesOnly (D.state disk.old) (D.state disk.new) (D.state disk.old).may_leave }
        ensures cause { TellsFailure (D.state disk.old) (D.state disk.new) result }
    {
        match disk.sync(copy) {
            Ok(()) => Ok(()),
            Err(fault) => {
                self.is_sure = false;
                Err(fault)
            }
        }
    }

    /// The inventory that is to be served. The only error is lack of memory.
    pub fn inventory(&self) -> Result<Inventory, AllocError>
        ensures { IfOk result (λ inventory. inventory_for_good (book_of self.now).text ≡ Ok inventory) }
    {
        self.book.inventory(self.alloc)
    }
}

// Syncs the file at a path; `false` where there is none.
#[tactic(auto, using(crate::proofs::Kept::seen_once, crate::proofs::Kept::seen_twice))]
fn sync_there<D: Disk>(disk: &mut D, path: &str) -> Result<bool, DiskFault>
    ensures none { IfOk result (λ there. there ≡ false → IsTrue D.is_known → (D.state disk.old).seen path.now ≡ None) }
    ensures durable { IfOk result (λ there. there ≡ true → IsTrue D.is_known → (D.state disk.old).is_sound path.now ≡ true
        → (c : Image) → (D.state disk.new).may_leave c → c path.now ≡ (D.state disk.old).seen path.now) }
    ensures same { OnOk result (IsTrue D.is_known → (D.state disk.new).is_sound ≡ (D.state disk.old).is_sound) }
    ensures seen { IsTrue D.is_known → (D.state disk.new).seen ≡ (D.state disk.old).seen }
    ensures sound { IsTrue D.is_known → (other : List ℕ) → bytes_eq path.now other ≡ false
        → (D.state disk.new).is_sound other ≡ (D.state disk.old).is_sound other }
    ensures crash { IsTrue D.is_known → (c : Image) → (D.state disk.new).may_leave c → (D.state disk.old).may_leave c }
    ensures any_moment { IsTrue D.is_known → LeavesOnly (D.state disk.old) (D.state disk.new) (D.state disk.old).may_leave }
    ensures cause { TellsFailure (D.state disk.old) (D.state disk.new) result }
    ensures which { IfErr result IsNotTooLong }
{
    let Some(_) = disk.stamp(path)? else {
        return Ok(false);
    };
    disk.sync(path)?;
    Ok(true)
}
