use agent_standing::Waiting;
use base_disk::{Disk, DiskFault, FILE_MODE};
use base_moment::Name;
use state_changes::{ChangeKind, JournalNote, Secret};
use state_file::SettleFault;
use state_store::{FileFault, Store, TakeFault, Unsettled};
use std::alloc::AllocError;
use vault_inventory::Inventory;
use watch_machine::Millis;

/// A store, and when the first of the changes came that wait to be served. Readings are of the clock that never steps, in
/// milliseconds.
#[derive(Drop)]
pub struct StateKeeper<'a> {
    store: Store<'a>,
    waiting: Waiting,
}

impl<'a> StateKeeper<'a> {
    ghost use Rattle.std.specs.Prelude.{◌≡◌, ℕ, List, Err, IfErr, IfOk, IsTrue, None, Ok, OnErr, OnOk, false, true, if◌then◌else◌, option_copied, option_map, string_bytes};
    ghost use Rattle.std.specs.Str.{bytes_eq};
    ghost use Rattle.agent_standing.specs.Waiting.{change_due_at, changed, is_change_due};
    ghost use Rattle.state_changes.specs.Words.{fingerprint};
    ghost use Rattle.base_disk.specs.State.{LeavesOnly, TellsFailure};
    ghost use Rattle.base_journal.specs.Journals.{CrashLeaves, Exchanging, FileIsThere, JournalHolds, JournalIsWhole, KeepsOthers};
    ghost use Rattle.base_journal.specs.Records.{IsBeforeOrAfter, StandsFor};
    ghost use Rattle.state_store.specs.Books.{HasSecrets, IsBookIf, IsFileFaultOf, IsWhyUnhanded};
    ghost use Rattle.state_store.specs.Compacted.{compacted_lines, damaged, is_worth};
    ghost use Rattle.state_store.specs.declared.fault.TakeFault.TheVariants.{Unread};
    ghost use Rattle.state_store.specs.Entering.{FaultTellsLength, TellsDisk, line_for_change, may_hold};
    ghost use Rattle.state_store.specs.Moved.{FailsInSteps, HasMarkAtMost, IsMovedIf, IsStillThere, IsWhyUnsettled, LeftByMove, MovesInSteps, SaysByItself};
    ghost use Rattle.state_keeping.specs.Keepers.{InventoryIsGiven, store_of, waiting_in};
    ghost use Rattle.state_store.specs.Records.{records_in};
    ghost use Rattle.state_store.specs.Stores.{ChangeIsTaken, FileHolds, IsKeptOrNone, IsReplayed, IsWhyUntaken, KeepsAllBut, book_of, is_kept, is_sure, journal_of, lines_in, path_of_store, size_with};

    /// A store of which no change waits.
    pub fn new(store: Store<'a>) -> StateKeeper<'a>
        ensures store { store_of result ≡ store.entry }
        ensures waiting { waiting_in result ≡ None }
    {
        StateKeeper {
            store,
            waiting: Waiting::none(),
        }
    }

    /// The store.
    pub fn store(&self) -> &Store<'a>
        ensures { result.now ≡ store_of self.now }
    {
        &self.store
    }

    /// Makes a change, as [`Store::take`] does. `true` is a need, which is for the Watch at once; any other change waits to be
    /// served from now on.
    pub fn take<D: Disk>(
        &mut self,
        disk: &mut D,
        target: &str,
        now: Millis,
        name: Name,
        what: ChangeKind,
    ) -> Result<bool, TakeFault>
        requires apart { bytes_eq (path_of_store (store_of self.old)) target.now ≡ false }
        requires held { JournalHolds D.is_known (journal_of (store_of self.old)) (D.state disk.old) }
        requires replayed { IsReplayed (store_of self.old) }
        requires file { FileHolds D.is_known (store_of self.old) target.now (D.state disk.old) }
        ensures taken { IfOk result (λ need. ChangeIsTaken (store_of self.old) name what need (store_of self.new)) }
        ensures waiting { IfOk result (λ need. waiting_in self.new ≡ (if need then waiting_in self.old else changed (waiting_in self.old) now)) }
        ensures acknowledged { OnOk result (IsTrue D.is_known → JournalIsWhole (journal_of (store_of self.new)) (D.state disk.new)) }
        ensures refused { IfErr result (IsWhyUntaken (store_of self.old) name what) }
        ensures unsure { is_sure (store_of self.old) ≡ false → result ≡ Err Unread }
        ensures sure { is_sure (store_of self.new) ≡ is_sure (store_of self.old) }
        ensures book { OnErr result (book_of (store_of self.new) ≡ book_of (store_of self.old)) }
        ensures lines { OnErr result (lines_in (store_of self.new) ≡ lines_in (store_of self.old)) }
        ensures path { path_of_store (store_of self.new) ≡ path_of_store (store_of self.old) }
        ensures unchanged { OnErr result (waiting_in self.new ≡ waiting_in self.old) }
        ensures held { JournalHolds D.is_known (journal_of (store_of self.new)) (D.state disk.new) }
        ensures replayed { IsReplayed (store_of self.new) }
        ensures kept { OnOk result (IsKeptOrNone D.is_known (store_of self.new) target.now (D.state disk.old)) }
        ensures file { FileHolds D.is_known (store_of self.new) target.now (D.state disk.new) }
        ensures any_moment { IsTrue D.is_known → LeavesOnly (D.state disk.old) (D.state disk.new)
            (CrashLeaves (path_of_store (store_of self.old)) (IsBeforeOrAfter (lines_in (store_of self.old)) (line_for_change (book_of (store_of self.old)).file name what)) (D.state disk.old)) }
        ensures gone { IfErr result (λ fault. may_hold fault ≡ false → IsTrue D.is_known → LeavesOnly (D.state disk.old) (D.state disk.new)
            (CrashLeaves (path_of_store (store_of self.old)) (λ file. StandsFor file (lines_in (store_of self.old))) (D.state disk.old))) }
        ensures others { IsTrue D.is_known → KeepsAllBut (path_of_store (store_of self.old)) target.now (D.state disk.old) (D.state disk.new) }
        ensures cause { TellsDisk (D.state disk.old) (D.state disk.new) result }
        ensures long { IfErr result (λ fault. IsTrue D.is_known → FaultTellsLength (size_with (store_of self.old) name what) fault) }
    {
        let is_need = self.store.take(disk, target, name, what)?;
        if !is_need {
            self.waiting = self.waiting.changed(now);
        }
        Ok(is_need)
    }

    /// Serves what a file says from now on, as [`Store::reload`] does; that waits to be served from now on.
    pub fn reload(
        &mut self,
        now: Millis,
        bytes: Option<&[u8]>,
    ) -> Result<Vec<JournalNote>, FileFault>
        requires { IsReplayed (store_of self.old) }
        ensures reloaded { IfOk result (λ notes. IsBookIf (option_copied bytes.entry) (records_in (lines_in (store_of self.old))) (book_of (store_of self.old)).secrets (book_of (store_of self.new)) notes.items) }
        ensures waiting { OnOk result (waiting_in self.new ≡ changed (waiting_in self.old) now) }
        ensures refused { IfErr result (IsFileFaultOf (option_copied bytes.entry) (records_in (lines_in (store_of self.old))) (book_of (store_of self.old)).secrets) }
        ensures sure { OnOk result (is_sure (store_of self.new) ≡ true) }
        ensures still { OnErr result (is_sure (store_of self.new) ≡ is_sure (store_of self.old)) }
        ensures fresh { OnOk result (is_kept (store_of self.new) ≡ false) }
        ensures kept { OnErr result (is_kept (store_of self.new) ≡ is_kept (store_of self.old)) }
        ensures book { OnErr result (book_of (store_of self.new) ≡ book_of (store_of self.old)) }
        ensures unchanged { OnErr result (waiting_in self.new ≡ waiting_in self.old) }
        ensures journal { journal_of (store_of self.new) ≡ journal_of (store_of self.old) }
        ensures replayed { IsReplayed (store_of self.new) }
    {
        let notes = self.store.reload(bytes)?;
        self.waiting = self.waiting.changed(now);
        Ok(notes)
    }

    /// Has what files of secrets have given from now on, as [`Store::take_secrets`] does; that waits to be served from now on.
    pub fn take_secrets(&mut self, now: Millis, secrets: Vec<Secret>) -> Result<(), SettleFault>
        requires { IsReplayed (store_of self.old) }
        ensures taken { OnOk result (HasSecrets (book_of (store_of self.old)) secrets.items (book_of (store_of self.new))) }
        ensures refused { IfErr result (IsWhyUnhanded (book_of (store_of self.old)).file.margin secrets.items (book_of (store_of self.old)).rows) }
        ensures waiting { OnOk result (waiting_in self.new ≡ changed (waiting_in self.old) now) }
        ensures book { OnErr result (book_of (store_of self.new) ≡ book_of (store_of self.old)) }
        ensures unchanged { OnErr result (waiting_in self.new ≡ waiting_in self.old) }
        ensures sure { is_sure (store_of self.new) ≡ is_sure (store_of self.old) }
        ensures kept { is_kept (store_of self.new) ≡ is_kept (store_of self.old) }
        ensures journal { journal_of (store_of self.new) ≡ journal_of (store_of self.old) }
        ensures replayed { IsReplayed (store_of self.new) }
    {
        self.store.take_secrets(secrets)?;
        self.waiting = self.waiting.changed(now);
        Ok(())
    }

    /// Makes the file at `target` what is kept, as [`Store::settle`] does. What waits goes on waiting.
    pub fn settle<D: Disk>(
        &mut self,
        disk: &mut D,
        target: &str,
        mode: u32,
        present: &[u8],
    ) -> Result<Option<String>, Unsettled>
        requires apart { bytes_eq (path_of_store (store_of self.old)) target.now ≡ false }
        requires held { JournalHolds D.is_known (journal_of (store_of self.old)) (D.state disk.old) }
        requires replayed { IsReplayed (store_of self.old) }
        requires file { FileHolds D.is_known (store_of self.old) target.now (D.state disk.old) }
        ensures settled { IfOk result (λ text. IsMovedIf D.is_known (store_of self.old) target.now mode (option_map string_bytes text) (store_of self.new) (D.state disk.new)) }
        ensures waiting { waiting_in self.new ≡ waiting_in self.old }
        ensures same { OnOk result (fingerprint present.now ≡ (book_of (store_of self.old)).file.mark) }
        ensures refused { IfErr result (IsWhyUnsettled (book_of (store_of self.old)) present.now) }
        ensures book { OnErr result (book_of (store_of self.new) ≡ book_of (store_of self.old)) }
        ensures lines { OnErr result (HasMarkAtMost (store_of self.old) (store_of self.new)) }
        ensures sure { OnErr result (is_sure (store_of self.new) ≡ true → IsStillThere D.is_known (store_of self.old) target.now present.now (D.state disk.old) (D.state disk.new)) }
        ensures path { path_of_store (store_of self.new) ≡ path_of_store (store_of self.old) }
        ensures held { JournalHolds D.is_known (journal_of (store_of self.new)) (D.state disk.new) }
        ensures replayed { IsReplayed (store_of self.new) }
        ensures file { FileHolds D.is_known (store_of self.new) target.now (D.state disk.new) }
        ensures any_moment { IsTrue D.is_known → LeavesOnly (D.state disk.old) (D.state disk.new) (LeftByMove (store_of self.old) target.now mode (D.state disk.old)) }
        ensures steps { IfOk result (λ text. IsTrue D.is_known → MovesInSteps D.is_known D.state (store_of self.old) target.now mode present.now disk.old (option_map string_bytes text) (store_of self.new) disk.new) }
        ensures begun { OnErr result (IsTrue D.is_known → FailsInSteps D.is_known D.state (store_of self.old) target.now mode present.now disk.old (store_of self.new) disk.new) }
    {
        self.store.settle(disk, target, mode, present)
    }

    /// Keeps the copy, and then takes the records out of the journal, as [`Store::hand_over`] does. What waits goes on waiting.
    pub fn hand_over<D: Disk>(
        &mut self,
        disk: &mut D,
        copy: &str,
        bytes: &[u8],
    ) -> Result<(), DiskFault>
        requires said { SaysByItself (store_of self.old) }
        requires apart { bytes_eq (path_of_store (store_of self.old)) copy.now ≡ false }
        requires held { JournalHolds D.is_known (journal_of (store_of self.old)) (D.state disk.old) }
        requires replayed { IsReplayed (store_of self.old) }
        ensures there { OnOk result (IsTrue D.is_known → FileIsThere copy.now (record { mode = FILE_MODE; bytes = bytes.now }) (D.state disk.new)) }
        ensures taken_out { OnOk result ((lines_in (store_of self.new) ≡ damaged (lines_in (store_of self.old))) × (IsTrue D.is_known → JournalIsWhole (journal_of (store_of self.new)) (D.state disk.new))) }
        ensures refused { OnErr result (lines_in (store_of self.new) ≡ lines_in (store_of self.old)) }
        ensures waiting { waiting_in self.new ≡ waiting_in self.old }
        ensures book { book_of (store_of self.new) ≡ book_of (store_of self.old) }
        ensures sure { is_sure (store_of self.new) ≡ is_sure (store_of self.old) }
        ensures kept { is_kept (store_of self.new) ≡ is_kept (store_of self.old) }
        ensures path { path_of_store (store_of self.new) ≡ path_of_store (store_of self.old) }
        ensures held { JournalHolds D.is_known (journal_of (store_of self.new)) (D.state disk.new) }
        ensures replayed { IsReplayed (store_of self.new) }
        ensures any_moment { IsTrue D.is_known → LeavesOnly (D.state disk.old) (D.state disk.new)
            (Exchanging (path_of_store (store_of self.old)) copy.now (record { mode = FILE_MODE; bytes = bytes.now }) (λ file. StandsFor file (damaged (lines_in (store_of self.old)))) (D.state disk.old)) }
        ensures others { IsTrue D.is_known → (other : List ℕ) → bytes_eq (path_of_store (store_of self.old)) other ≡ false → bytes_eq copy.now other ≡ false
            → ((D.state disk.new).seen other ≡ (D.state disk.old).seen other) × ((D.state disk.new).is_sound other ≡ (D.state disk.old).is_sound other) }
        ensures cause { TellsFailure (D.state disk.old) (D.state disk.new) result }
    {
        self.store.hand_over(disk, copy, bytes)
    }

    /// Takes void records out of the journal, as [`Store::compact`] does. What waits goes on waiting.
    pub fn compact<D: Disk>(&mut self, disk: &mut D) -> Result<bool, DiskFault>
        requires held { JournalHolds D.is_known (journal_of (store_of self.old)) (D.state disk.old) }
        requires replayed { IsReplayed (store_of self.old) }
        ensures worth { IfOk result (λ done. done ≡ is_worth (lines_in (store_of self.old))) }
        ensures sure { is_sure (store_of self.new) ≡ is_sure (store_of self.old) }
        ensures kept { is_kept (store_of self.new) ≡ is_kept (store_of self.old) }
        ensures lines { IfOk result (λ done. lines_in (store_of self.new) ≡ (if done then compacted_lines (lines_in (store_of self.old)) else lines_in (store_of self.old))) }
        ensures waiting { waiting_in self.new ≡ waiting_in self.old }
        ensures refused { OnErr result (lines_in (store_of self.new) ≡ lines_in (store_of self.old)) }
        ensures book { book_of (store_of self.new) ≡ book_of (store_of self.old) }
        ensures path { path_of_store (store_of self.new) ≡ path_of_store (store_of self.old) }
        ensures held { JournalHolds D.is_known (journal_of (store_of self.new)) (D.state disk.new) }
        ensures replayed { IsReplayed (store_of self.new) }
        ensures any_moment { IsTrue D.is_known → LeavesOnly (D.state disk.old) (D.state disk.new)
            (CrashLeaves (path_of_store (store_of self.old)) (λ file. StandsFor file (compacted_lines (lines_in (store_of self.old)))) (D.state disk.old)) }
        ensures others { IsTrue D.is_known → KeepsOthers (path_of_store (store_of self.old)) (D.state disk.old) (D.state disk.new) }
        ensures cause { TellsFailure (D.state disk.old) (D.state disk.new) result }
    {
        self.store.compact(disk)
    }

    /// The inventory that is to be served from now on, where one is due: the first of the changes that wait for it came five
    /// seconds ago. The only error is lack of memory, and only there.
    pub fn due(&self, now: Millis) -> Result<Option<Inventory>, AllocError>
        ensures given { IfOk result (InventoryIsGiven (waiting_in self.now) now (book_of (store_of self.now)).text) }
        ensures early { is_change_due (waiting_in self.now) now ≡ false → result ≡ Ok None }
    {
        if !self.waiting.is_due(now) {
            return Ok(None);
        }
        Ok(Some(self.store.inventory()?))
    }

    /// From when on the changes are due, where one waits.
    pub fn due_at(&self) -> Option<Millis>
        ensures { result ≡ change_due_at (waiting_in self.now) }
    {
        self.waiting.due_at()
    }

    /// What is kept waits to be served from now on.
    pub fn mark_changed(&mut self, now: Millis)
        ensures waiting { waiting_in self.new ≡ changed (waiting_in self.old) now }
        ensures store { store_of self.new ≡ store_of self.old }
    {
        self.waiting = self.waiting.changed(now);
    }

    /// The inventory that was due is served: no change waits for it any more.
    pub fn mark_served(&mut self)
        ensures waiting { waiting_in self.new ≡ None }
        ensures store { store_of self.new ≡ store_of self.old }
    {
        self.waiting = Waiting::none();
    }
}
