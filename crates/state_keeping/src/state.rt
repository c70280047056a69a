ghost use Rattle.std.specs.Prelude.{◌≡◌};

use crate::keeper::StateKeeper;
use crate::noting::note_lines;
use crate::paths::Paths;
use crate::reading::{FileRead, read_file};
use base_disk::{Disk, DiskFault};
use base_moment::{Name, Text};
use state_changes::{ChangeKind, File, JournalNote, Record, Rows, Secret};
use state_file::{ReadFault, SettleFault};
use state_store::{FileFault, TakeFault};
use std::alloc::{AllocError, Global};
use std::marker::Model;
use vault_inventory::Inventory;
use watch_machine::Millis;

/// A keeper beside its disk and the paths of its files. It has no `Debug`: it may hold secrets.
#[derive(Drop)]
pub struct State<'a, D: Disk> {
    pub(crate) alloc: Global,
    pub(crate) keeper: StateKeeper<'a>,
    pub(crate) disk: D,
    pub(crate) paths: &'a Paths,
}

impl<'a, D: Disk> Model for State<'a, D> {
    ghost use Rattle.state_keeping.specs.States.{IsKeeping, Kept};

    ghost Value = { Kept D };

    ghost view = { λ s. record { keeper = s.keeper; disk = s.disk; places = s.paths.now } };

    ghost invariant = { λ s. IsKeeping D.is_known s.keeper s.paths.now (D.state s.disk) };
}

/// What a file that was read anew has brought.
#[derive(Debug, Drop)]
pub struct Reloaded {
    /// A note on each change of the journal that was not made, by the place of its record.
    pub notes: Vec<JournalNote>,
    /// Why the good copy could not be kept; `None` where it was.
    pub copy: Option<DiskFault>,
}

impl<'a, D: Disk> State<'a, D> {
    ghost use Rattle.std.specs.Prelude.{◌≡◌, ◌⊎◌, Err, IfErr, IfOk, IsTrue, None, Ok, OnErr, OnOk, Some, false, true, if◌then◌else◌};
    ghost use Rattle.agent_standing.specs.Waiting.{change_due_at, changed, is_change_due};
    ghost use Rattle.base_disk.specs.State.{DiskKeeps, IsAfter, LeavesAlone, LeavesOnly, TellsFailure};
    ghost use Rattle.base_disk.specs.Torn.{MovesFile};
    ghost use Rattle.base_journal.specs.Journals.{CrashLeaves, JournalIsWhole, KeepsOthers};
    ghost use Rattle.base_journal.specs.Records.{IsBeforeOrAfter, StandsFor};
    ghost use Rattle.vault_served.specs.ForGood.{inventory_for_good};
    ghost use Rattle.state_store.specs.Books.{HasSecrets, IsBookIf, IsFileFaultOf, IsWhyUnhanded};
    ghost use Rattle.state_store.specs.Compacted.{compacted_lines, is_worth};
    ghost use Rattle.state_store.specs.declared.fault.TakeFault.TheVariants.{Unread};
    ghost use Rattle.state_store.specs.Entering.{FaultTellsLength, TellsDisk, line_for_change, may_hold};
    ghost use Rattle.state_store.specs.Records.{records_in};
    ghost use Rattle.state_store.specs.Stores.{ChangeIsTaken, IsWhyUntaken, KeepsAllBut, is_sure, journal_of, lines_in, path_of_store, size_with};
    ghost use Rattle.state_keeping.specs.Keepers.{InventoryIsGiven, waiting_in};
    ghost use Rattle.state_keeping.specs.Noted.{note_lines};
    ghost use Rattle.state_keeping.specs.Reading.{IsFileAt, IsWhyUnread};
    ghost use Rattle.state_keeping.specs.Settles.{IsCopied, copy_with};
    ghost use Rattle.state_keeping.specs.States.{IsKeeping, book_in, store_in};

    /// Makes a change of the entry of that name. At `Ok` it is on the disk, and each crash from then on leaves a journal that has it,
    /// and FILE as it was then: FILE is synced first, once after it was read.
    /// `true` is a need, which is for the Watch at once; any other change waits to be served from now on. `now` is in milliseconds
    /// of the clock that never steps.
    ///
    /// # Errors
    ///
    /// The first in the order of [`TakeFault`]. All is as it was then; but that the disk may have the change, where that is said.
    #[tactic(auto, using(crate::proofs::Filed::kept_file, crate::proofs::Filed::keeps_at))]
    pub fn take(&mut self, now: Millis, name: Name, what: ChangeKind) -> Result<bool, TakeFault>
        ensures taken { IfOk result (λ need. ChangeIsTaken (store_in self.old) name what need (store_in self.new)) }
        ensures waiting { IfOk result (λ need. waiting_in self.new.keeper ≡ (if need then waiting_in self.old.keeper else changed (waiting_in self.old.keeper) now)) }
        ensures acknowledged { OnOk result (IsTrue D.is_known → JournalIsWhole (journal_of (store_in self.new)) (D.state self.new.disk)) }
        ensures refused { IfErr result (IsWhyUntaken (store_in self.old) name what) }
        ensures unsure { is_sure (store_in self.old) ≡ false → result ≡ Err Unread }
        ensures sure { is_sure (store_in self.new) ≡ is_sure (store_in self.old) }
        ensures book { OnErr result (book_in self.new ≡ book_in self.old) }
        ensures lines { OnErr result (lines_in (store_in self.new) ≡ lines_in (store_in self.old)) }
        ensures unchanged { OnErr result (waiting_in self.new.keeper ≡ waiting_in self.old.keeper) }
        ensures places { self.new.places ≡ self.old.places }

        // FILE is on the disk then, where it is there and no call on it has failed.
        ensures durable { OnOk result (IsTrue D.is_known → (D.state self.new.disk).is_sound self.old.places.file ≡ true
            → DiskKeeps self.old.places.file (D.state self.new.disk) ⊎ ((D.state self.old.disk).seen self.old.places.file ≡ None)) }

        // A crash at any moment leaves the journal with the change or without it.
        ensures any_moment { IsTrue D.is_known → LeavesOnly (D.state self.old.disk) (D.state self.new.disk)
            (CrashLeaves (path_of_store (store_in self.old)) (IsBeforeOrAfter (lines_in (store_in self.old)) (line_for_change (book_in self.old).file name what)) (D.state self.old.disk)) }

        // And without it where it is refused, unless it is said that the disk may have it.
        ensures gone { IfErr result (λ fault. may_hold fault ≡ false → IsTrue D.is_known → LeavesOnly (D.state self.old.disk) (D.state self.new.disk)
            (CrashLeaves (path_of_store (store_in self.old)) (λ file. StandsFor file (lines_in (store_in self.old))) (D.state self.old.disk))) }
        ensures others { IsTrue D.is_known → KeepsAllBut (path_of_store (store_in self.old)) self.old.places.file (D.state self.old.disk) (D.state self.new.disk) }
        ensures cause { TellsDisk (D.state self.old.disk) (D.state self.new.disk) result }

        // `TooLong` only where the journal with it would have more than 128 MiB.
        ensures long { IfErr result (λ fault. IsTrue D.is_known → FaultTellsLength (size_with (store_in self.old) name what) fault) }
    {
        self.keeper
            .take(&mut self.disk, self.paths.file(), now, name, what)
    }

    /// Serves what these bytes say, which are those of FILE, with every change of the journal in order; that waits to be served from
    /// now on. They are the last good copy then, and changes are taken again.
    ///
    /// # Errors
    ///
    /// The fault of the file, or `OutOfMemory`. All is as it was then.
    #[tactic(auto, using(crate::proofs::Filed::keeps_still, crate::proofs::Filed::keeps_unkept))]
    pub fn reload(&mut self, now: Millis, bytes: &[u8]) -> Result<Reloaded, FileFault>
        ensures reloaded { IfOk result (λ r. IsBookIf (Some bytes.now) (records_in (lines_in (store_in self.old))) (book_in self.old).secrets (book_in self.new) r.notes.items) }
        ensures waiting { OnOk result (waiting_in self.new.keeper ≡ changed (waiting_in self.old.keeper) now) }
        ensures copied { IfOk result (λ r. IsCopied D.is_known self.old.places bytes.now r.copy (D.state self.new.disk)) }
        ensures refused { IfErr result (IsFileFaultOf (Some bytes.now) (records_in (lines_in (store_in self.old))) (book_in self.old).secrets) }
        ensures sure { OnOk result (is_sure (store_in self.new) ≡ true) }
        ensures still { OnErr result (is_sure (store_in self.new) ≡ is_sure (store_in self.old)) }
        ensures book { OnErr result (book_in self.new ≡ book_in self.old) }
        ensures unchanged { OnErr result (waiting_in self.new.keeper ≡ waiting_in self.old.keeper) }
        ensures journal { journal_of (store_in self.new) ≡ journal_of (store_in self.old) }
        ensures places { self.new.places ≡ self.old.places }

        // A crash at any moment leaves the old copy, or the new one whole.
        ensures any_moment { IsTrue D.is_known → LeavesOnly (D.state self.old.disk) (D.state self.new.disk)
            (IsAfter (MovesFile self.old.places.copy (copy_with bytes.now)) (D.state self.old.disk)) }
        ensures others { IsTrue D.is_known → KeepsOthers self.old.places.copy (D.state self.old.disk) (D.state self.new.disk) }
        ensures file { IsTrue D.is_known → (D.state self.new.disk).seen self.old.places.file ≡ (D.state self.old.disk).seen self.old.places.file }
    {
        let notes = self.keeper.reload(now, Some(bytes))?;
        let kept = self
            .keeper
            .store()
            .keep_copy(&mut self.disk, self.paths.copy(), bytes);
        Ok(Reloaded {
            notes,
            copy: kept.err(),
        })
    }

    /// Has from now on what these files of secrets have given; that waits to be served from now on. Where that cannot be handed on,
    /// as where two entries of a kind would have one credential, all is as it was.
    #[tactic(auto, using(crate::proofs::Filed::keeps_still))]
    pub fn take_secrets(&mut self, now: Millis, secrets: Vec<Secret>) -> Result<(), SettleFault>
        ensures taken { OnOk result (HasSecrets (book_in self.old) secrets.items (book_in self.new)) }
        ensures refused { IfErr result (IsWhyUnhanded (book_in self.old).file.margin secrets.items (book_in self.old).rows) }
        ensures waiting { OnOk result (waiting_in self.new.keeper ≡ changed (waiting_in self.old.keeper) now) }
        ensures book { OnErr result (book_in self.new ≡ book_in self.old) }
        ensures unchanged { OnErr result (waiting_in self.new.keeper ≡ waiting_in self.old.keeper) }
        ensures sure { is_sure (store_in self.new) ≡ is_sure (store_in self.old) }
        ensures journal { journal_of (store_in self.new) ≡ journal_of (store_in self.old) }
        ensures disk { self.new.disk ≡ self.old.disk }
        ensures places { self.new.places ≡ self.old.places }
    {
        self.keeper.take_secrets(now, secrets)
    }

    /// Takes out of the journal each record that a later one makes void, where that is worth while: `true` then. What is kept stays as
    /// it is, and so does what any file gives with the journal.
    #[tactic(auto, using(crate::proofs::Filed::keeps_past))]
    pub fn compact(&mut self) -> Result<bool, DiskFault>
        ensures worth { IfOk result (λ done. done ≡ is_worth (lines_in (store_in self.old))) }
        ensures lines { IfOk result (λ done. lines_in (store_in self.new) ≡ (if done then compacted_lines (lines_in (store_in self.old)) else lines_in (store_in self.old))) }
        ensures refused { OnErr result (lines_in (store_in self.new) ≡ lines_in (store_in self.old)) }
        ensures book { book_in self.new ≡ book_in self.old }
        ensures sure { is_sure (store_in self.new) ≡ is_sure (store_in self.old) }
        ensures waiting { waiting_in self.new.keeper ≡ waiting_in self.old.keeper }
        ensures path { path_of_store (store_in self.new) ≡ path_of_store (store_in self.old) }
        ensures places { self.new.places ≡ self.old.places }

        // A crash at any moment leaves the lines, or those that stay.
        ensures any_moment { IsTrue D.is_known → LeavesOnly (D.state self.old.disk) (D.state self.new.disk)
            (CrashLeaves (path_of_store (store_in self.old)) (λ file. StandsFor file (compacted_lines (lines_in (store_in self.old)))) (D.state self.old.disk)) }
        ensures others { IsTrue D.is_known → KeepsOthers (path_of_store (store_in self.old)) (D.state self.old.disk) (D.state self.new.disk) }
        ensures cause { TellsFailure (D.state self.old.disk) (D.state self.new.disk) result }
    {
        self.keeper.compact(&mut self.disk)
    }

    /// FILE as it may be served.
    ///
    /// # Errors
    ///
    /// The first in the order of [`ReadFault`].
    #[tactic(auto, using(crate::proofs::Filed::keeps_alone))]
    pub fn read_file(&mut self) -> Result<FileRead, ReadFault>
        ensures read { IfOk result (λ read. IsTrue D.is_known → IsFileAt self.old.places.file (D.state self.old.disk) read) }
        ensures refused { IfErr result (λ fault. IsTrue D.is_known → IsWhyUnread self.old.places.file (D.state self.old.disk) fault) }
        ensures alone { IsTrue D.is_known → LeavesAlone (D.state self.old.disk) (D.state self.new.disk) }
        ensures keeper { self.new.keeper ≡ self.old.keeper }
        ensures places { self.new.places ≡ self.old.places }
    {
        read_file(self.alloc, &mut self.disk, self.paths.file())
    }

    /// The inventory that is to be served from now on, where one is due: the first of the changes that wait for it came five
    /// seconds ago. The only error is lack of memory, and only there.
    pub fn due(&self, now: Millis) -> Result<Option<Inventory>, AllocError>
        ensures given { IfOk result (InventoryIsGiven (waiting_in self.now.keeper) now (book_in self.now).text) }
        ensures early { is_change_due (waiting_in self.now.keeper) now ≡ false → result ≡ Ok None }
    {
        self.keeper.due(now)
    }

    /// From when on the changes are due, where one waits.
    pub fn due_at(&self) -> Option<Millis>
        ensures { result ≡ change_due_at (waiting_in self.now.keeper) }
    {
        self.keeper.due_at()
    }

    /// What is kept waits to be served from now on. `now` is in milliseconds of the clock that never steps.
    #[tactic(auto, using(crate::proofs::Filed::keeps_store))]
    pub fn mark_changed(&mut self, now: Millis)
        ensures waiting { waiting_in self.new.keeper ≡ changed (waiting_in self.old.keeper) now }
        ensures store { store_in self.new ≡ store_in self.old }
        ensures disk { self.new.disk ≡ self.old.disk }
        ensures places { self.new.places ≡ self.old.places }
    {
        self.keeper.mark_changed(now);
    }

    /// The inventory that was due is served: no change waits for it any more.
    #[tactic(auto, using(crate::proofs::Filed::keeps_store))]
    pub fn mark_served(&mut self)
        ensures waiting { waiting_in self.new.keeper ≡ None }
        ensures store { store_in self.new ≡ store_in self.old }
        ensures disk { self.new.disk ≡ self.old.disk }
        ensures places { self.new.places ≡ self.old.places }
    {
        self.keeper.mark_served();
    }

    /// The inventory that is served now. The only error is lack of memory.
    pub fn inventory(&self) -> Result<Inventory, AllocError>
        ensures { IfOk result (λ inventory. inventory_for_good (book_in self.now).text ≡ Ok inventory) }
    {
        self.keeper.store().inventory()
    }

    /// What FILE says.
    pub fn file(&self) -> &File
        ensures { result.now ≡ (book_in self.now).file }
    {
        self.keeper.store().book().file()
    }

    /// The rows of FILE after every change.
    pub fn rows(&self) -> &Rows
        ensures { result.now ≡ (book_in self.now).rows }
    {
        self.keeper.store().book().rows()
    }

    /// What was taken from files of secrets.
    pub fn secrets(&self) -> &[Secret]
        ensures { result.now ≡ (book_in self.now).secrets }
    {
        self.keeper.store().book().secrets()
    }

    /// The text of the inventory that is served: a file that says it, with FILE's margin.
    pub fn text(&self) -> &str
        ensures { result.now ≡ (book_in self.now).text }
    {
        self.keeper.store().book().text()
    }

    /// The records of the journal, in order. The only error is lack of memory.
    pub fn records(&self) -> Result<Vec<Record>, AllocError>
        ensures { IfOk result (λ records. records.items ≡ records_in (lines_in (store_in self.now))) }
    {
        self.keeper.store().records()
    }

    /// The disk.
    pub fn disk(&self) -> &D
        ensures { result.now ≡ self.now.disk }
    {
        &self.disk
    }

    /// The paths of what is kept.
    pub fn paths(&self) -> &Paths
        ensures value { result.now ≡ self.now.places }
        ensures sound { IsKeeping D.is_known self.now.keeper self.now.places (D.state self.now.disk) }
    {
        self.paths
    }

    /// The lines about these changes of the journal that were not made again. The only error is lack of memory.
    pub fn note_lines(&self, notes: &[JournalNote]) -> Result<Vec<Text>, AllocError>
        ensures { IfOk result (λ lines. lines.items ≡ note_lines (book_in self.now).file.margin (records_in (lines_in (store_in self.now))) notes.now) }
    {
        let records = self.records()?;
        note_lines(self.alloc, self.file().margin, &records, notes)
    }
}
