//! The state of an agent on a disk.
ghost use Rattle.std.specs.Prelude.{◌≡◌, ◌++◌, ◌||◌, ℕ, List, IfErr, IfOk, IfSome, IsTrue, None, OnErr, OnOk, Ok, Option, Some, false, nat_le, take, true};
ghost use Rattle.agent_standing.specs.Waiting.{changed};
ghost use Rattle.state_changes.specs.declared.replaying.JournalNote.{JournalNote};
ghost use Rattle.vault_inventory.specs.Inventories.{Inventory};
ghost use Rattle.vault_served.specs.ForGood.{inventory_for_good};
ghost use Rattle.base_disk.specs.State.{LeavesOnly};
ghost use Rattle.base_disk.specs.declared.fault.DiskFault.{DiskFault};
ghost use Rattle.base_journal.specs.Journals.{CrashLeaves};
ghost use Rattle.base_journal.specs.Records.{StandsFor};
ghost use Rattle.state_keeping.specs.Settles.{IsCopied};
ghost use Rattle.state_keeping.specs.States.{book_in, store_in};
ghost use Rattle.state_store.specs.Books.{IsBookIf};
ghost use Rattle.state_store.specs.Compacted.{compacted_lines};
ghost use Rattle.state_store.specs.Records.{records_in};
ghost use Rattle.state_store.specs.Stores.{lines_in, path_of_store};
ghost use Rattle.state_keeping.specs.Keepers.{waiting_in};
ghost use Rattle.agent_ledger.specs.Ledgers.{AreCompacted, FilledWith, IsFilledOn, IsTakenOn, IsWhyUntakenOn, ReloadsOn, StaysOnDisk, apart_line, ledger_rest, rest_while};
ghost use Rattle.agent_words.specs.Reading.{IsWellWritten, IsWide};
ghost use Rattle.agent_ledger.specs.Reasons.{bare_words, left_words, table_words};
ghost use Rattle.agent_ledger.specs.Rereading.{AreAtMost, AreBytesOf, IsWhyNotReread, SaysCopy, SaysNoBook, SaysNotes, SaysUnread, left_lines, said_notes};
ghost use Rattle.agent_words.specs.Starts.{is_bare_row};
ghost use Rattle.agent_ledger.specs.Untouched.{IsAsItWas};

use crate::asked_file::unproved_by;
use crate::asker::{Asker, FileWord, hear_first, is_any_asking};
use crate::candidates::candidate_of;
use crate::inquiry::{ask, hear, is_asking};
use crate::keeping::{FileLook, KeepNews, Keeping, LookedUp};
use crate::reasons::{
    bare_words, book_words, left_over_words, settle_words, table_words, take_words,
};
use crate::secret_changes::wanting;
use crate::shared::may_be_apart;
use agent_words::{
    Demands, Gathered, Reread, after, disk_words, gather, is_bare_row, unread_words,
    why_not_served, wide,
};
use base_clock::{Reading, TRY_AGAIN, rest_until, shorter};
use base_disk::{Disk, DiskFault};
use base_files::Inputs;
use base_moment::{Name, Text};
use base_words::push_number;
use state_changes::{ChangeKind, JournalNote, Row, Secret};
use state_file::SettleFault;
use state_keeping::{Reloaded, State, TableFault, read_table};
use state_secrets::{Looking, SecretFiles};
use state_store::TakeFault;
use std::alloc::{AllocError, Global};
use vault_asking::SeenLanes;
use vault_inventory::Inventory;
use vault_lanes::Lanes;
use vault_proving::{Proving, Verdict};

/// The notes of a file that are said at most; what is left is counted in one more.
const MOST_NOTES: usize = 100;

/// The state of an agent on a disk, and what is demanded of the file that is served.
#[derive(Drop)]
pub struct Ledger<'a, D: Disk, I, L: Lanes> {
    /// The changes that clients give.
    pub state: State<'a, D>,
    /// What is demanded of the file.
    pub demands: Demands,
    /// The folder at which a path of a file starts that does not begin with `/`: it ends in one, or is empty.
    pub folder: &'a str,
    /// The files of credentials.
    pub inputs: I,
    /// How far the look at them has come.
    pub looking: Looking,
    /// Over which the credential of a client's change is looked up before it is taken, where that is done.
    pub proving: Option<Proving<L>>,
    /// Over which the credentials of files are, one file each at a time; none, where that is not done.
    pub askers: Vec<Asker<L>>,
}

impl<'a, D: Disk, I: Inputs, L: Lanes> Ledger<'a, D, I, L> {
    /// What is served now, with the margin that is demanded. The only error is out of memory.
    pub fn inventory(&self, alloc: Global) -> Result<Inventory, AllocError>
        ensures { IfOk result (λ inventory. (narrow : Inventory) × ((inventory_for_good (book_in self.now.state).text ≡ Ok narrow) × IsWide self.now.demands (book_in self.now.state).text narrow inventory)) }
    {
        let inventory = self.state.inventory()?;
        wide(alloc, self.demands, self.state.text(), inventory)
    }

    /// Has from now on what the files of credentials hold. An entry whose file holds none is left out, which the first look at files says.
    /// Where two entries of a kind would have one credential, or more would be handed on than always fit into one inventory, what they hold
    /// may not go together: if it does not, that is said, and the old ones stay.
    ///
    /// The only error is out of memory, as which counts what else would keep it from being handed on. All is as it was then.
    pub fn fill(&mut self, alloc: Global, now: u64) -> Result<Option<Text>, AllocError>
        ensures filled { IfOk result (λ said. IsFilledOn (I.bytes_at self.old.inputs) self.old.folder.now now said self.old.state self.new.state) }
        ensures unchanged { OnErr result (IsAsItWas self.old.state self.new.state) }
        ensures stays { StaysOnDisk self.old.state self.new.state }
        ensures same { (path : List ℕ) → I.bytes_at self.new.inputs path ≡ I.bytes_at self.old.inputs path }
        ensures rest { self.new ≡ record self.old { state = self.new.state; inputs = self.new.inputs } }
    {
        let folder = self.folder;
        fill_state(alloc, &mut self.state, folder, &mut self.inputs, now)
    }

    // The bytes of the file; or why it is not read, in words.
    fn read(&mut self, alloc: Global) -> Result<Text, Option<Text>>
        ensures stand { IfOk result (λ bytes. AreBytesOf D.is_known D.state self.old.state bytes) }
        ensures left { IfOk result (λ bytes. AreBytesOf D.is_known D.state self.new.state bytes) }
        ensures refused { IfErr result (λ why. IfSome why (SaysUnread D.is_known D.state self.old.state)) }
        ensures keeper { self.new.state.keeper ≡ self.old.state.keeper }
        ensures places { self.new.state.places ≡ self.old.state.places }
        ensures rest { self.new ≡ record self.old { state = self.new.state } }
    {
        match self.state.read_file() {
            Ok(read) => Ok(read.bytes),
            Err(fault) => Err(unread_words(alloc, fault).ok()),
        }
    }

    // The file at its path, where what it writes may be served; otherwise why not, a reason a line.
    #[tactic(auto, using(crate::proofs::WhyUnserved::unread_why, crate::proofs::WhyUnserved::unserved_why, crate::proofs::WhyUnserved::wanting_why))]
    fn judged(&mut self, alloc: Global) -> Result<Text, Vec<Text>>
        ensures stand { IfOk result (λ bytes. AreBytesOf D.is_known D.state self.old.state bytes) }
        ensures left { IfOk result (λ bytes. AreBytesOf D.is_known D.state self.new.state bytes) }
        ensures written { IfOk result (λ bytes. IsWellWritten self.old.demands bytes) }
        ensures refused { IfErr result (λ whys. IsWhyNotReread D.is_known D.state self.old.demands self.old.state whys.items) }
        ensures keeper { self.new.state.keeper ≡ self.old.state.keeper }
        ensures places { self.new.state.places ≡ self.old.state.places }
        ensures rest { self.new ≡ record self.old { state = self.new.state } }
    {
        let bytes = match self.read(alloc) {
            Ok(bytes) => bytes,
            Err(why) => return Err(one_why(alloc, why)),
        };
        match why_not_served(alloc, bytes.list(), self.demands) {
            Ok(None) => Ok(bytes),
            Ok(Some(whys)) => Err(whys),
            Err(AllocError) => Err(Vec::new(alloc)),
        }
    }

    /// What is said of these changes of the journal that are not made any more: a hundred lines, and how many more there are. The only
    /// error is out of memory.
    #[tactic(auto, unfolding(crate::specs::Rereading::said_notes))]
    pub fn note_lines(&self, alloc: Global, notes: &[JournalNote]) -> Result<Vec<Text>, AllocError>
        ensures { IfOk result (λ lines. lines.items ≡ said_notes (book_in self.now.state).file.margin (records_in (lines_in (store_in self.now.state))) notes.now) }
    {
        let mut lines = self.state.note_lines(first_notes(notes))?;
        push_left(alloc, notes.len().saturating_sub(MOST_NOTES), &mut lines)?;
        Ok(lines)
    }

    // The same; nothing, where memory is wanting for that.
    fn notes_said(&self, alloc: Global, notes: &[JournalNote]) -> Vec<Text>
        ensures { SaysNotes (book_in self.now.state).file.margin (records_in (lines_in (store_in self.now.state))) notes.now result.items }
    {
        match self.note_lines(alloc, notes) {
            Ok(lines) => lines,
            Err(_) => Vec::new(alloc),
        }
    }

    // Serves these bytes of the file from now on.
    fn reloaded(&mut self, alloc: Global, now: u64, bytes: &[u8]) -> Result<Reread, Option<Text>>
        ensures reloaded { IfOk result (λ r. (notes : List JournalNote) × (IsBookIf (Some bytes.now) (records_in (lines_in (store_in self.old.state))) (book_in self.old.state).secrets (book_in self.new.state) notes
            × SaysNotes (book_in self.new.state).file.margin (records_in (lines_in (store_in self.new.state))) notes r.notes.items)) }
        ensures copied { IfOk result (λ r. (copy : Option DiskFault) × (IsCopied D.is_known self.old.state.places bytes.now copy (D.state self.new.state.disk) × SaysCopy copy r.unkept)) }
        ensures lines { OnOk result (lines_in (store_in self.new.state) ≡ lines_in (store_in self.old.state)) }
        ensures file { OnOk result (IsTrue D.is_known → (D.state self.new.state.disk).seen self.new.state.places.file ≡ (D.state self.old.state.disk).seen self.old.state.places.file) }
        ensures why { IfErr result (λ why. IfSome why (SaysNoBook (store_in self.old.state) bytes.now)) }
        ensures waiting { OnOk result (waiting_in self.new.state.keeper ≡ changed (waiting_in self.old.state.keeper) now) }
        ensures refused { OnErr result (IsAsItWas self.old.state self.new.state) }
        ensures rest { self.new ≡ record self.old { state = self.new.state } }
    {
        let Reloaded { notes, copy } = match self.state.reload(now, bytes) {
            Ok(reloaded) => reloaded,
            Err(fault) => return Err(book_words(alloc, fault).ok()),
        };
        let notes = self.notes_said(alloc, &notes);
        let unkept = unkept_words(alloc, copy);
        Ok(Reread { notes, unkept })
    }

    // Reads the file anew, and serves it from now on, where what it writes may be served; otherwise why not, a reason a line.
    fn reread(&mut self, alloc: Global, now: u64) -> Result<Reread, Vec<Text>>
        ensures { ReloadsOn D.is_known D.state self.old.demands now result self.old.state self.new.state × (self.new ≡ record self.old { state = self.new.state }) }
    {
        let bytes = self.judged(alloc)?;
        match self.reloaded(alloc, now, bytes.list()) {
            Ok(reread) => Ok(reread),
            Err(why) => Err(one_why(alloc, why)),
        }
    }

    // For a second at most while something goes on turn by turn, and no longer than until a change is due.
    fn rest_by(&self, now: u64) -> Option<u64>
        ensures { result ≡ ledger_rest now self.now }
    {
        let is_asked = is_asking(&self.proving);
        let goes_on = is_looking(is_any_asking(&self.askers), self.looking.from, now);
        let while_looking = rest_while(is_asked, goes_on);
        shorter(while_looking, rest_until(self.state.due_at(), now))
    }
}

// Whether what files hold is looked up, or files are looked at from that moment on.
fn is_looking(is_any_asking: bool, from: u64, now: u64) -> bool
    ensures { result ≡ (is_any_asking || nat_le from now) }
{
    is_any_asking || from <= now
}

// A second while something goes on turn by turn.
fn rest_while(is_asking: bool, is_looking: bool) -> Option<u64>
    ensures { result ≡ rest_while (is_asking || is_looking) }
{
    if is_asking || is_looking {
        Some(TRY_AGAIN)
    } else {
        None
    }
}

/// The one reason, where there is one, in a line of its own; none where memory is wanting for that.
pub(crate) fn one_why(alloc: Global, why: Option<Text>) -> Vec<Text>
    ensures { AreAtMost why result.items }
{
    let mut whys = Vec::new(alloc);
    if let Some(why) = why {
        let _put = whys.push(why);
    }
    whys
}

// Why the copy of the file could not be kept, in words; `None` where it was, or memory was wanting for them.
fn unkept_words(alloc: Global, copy: Option<DiskFault>) -> Option<Text>
    ensures { SaysCopy copy result }
{
    match copy {
        None => None,
        Some(fault) => after(alloc, b"of the file could not be kept: ", disk_words(fault)).ok(),
    }
}

// Has from now on what the files of credentials hold, and what is said where that cannot be handed on.
fn fill_state<D: Disk, I: Inputs>(
    alloc: Global,
    state: &mut State<'_, D>,
    folder: &str,
    inputs: &mut I,
    now: u64,
) -> Result<Option<Text>, AllocError>
    ensures filled { IfOk result (λ said. IsFilledOn (I.bytes_at inputs.old) folder.now now said state.old state.new) }
    ensures unchanged { OnErr result (IsAsItWas state.old state.new) }
    ensures stays { StaysOnDisk state.old state.new }
    ensures same { (path : List ℕ) → I.bytes_at inputs.new path ≡ I.bytes_at inputs.old path }
{
    let Gathered { secrets, said: _ } = gather(
        alloc,
        state.rows().list(),
        folder.as_bytes(),
        inputs,
    )?;
    if fill_with(alloc, state, now, secrets)? {
        return Ok(None);
    }
    Ok(Some(apart_line(alloc)?))
}

// Has from now on what files have given, where they have given anything. Whether that can be handed on. The only error is out of memory, as
// which counts what would keep it from that where all go together.
fn fill_with<D: Disk>(
    alloc: Global,
    state: &mut State<'_, D>,
    now: u64,
    secrets: Vec<Secret>,
) -> Result<bool, AllocError>
    ensures filled { IfOk result (λ is_taken. FilledWith is_taken now secrets.items state.old state.new) }
    ensures apart { result ≡ Ok false → IsAsItWas state.old state.new }
    ensures unchanged { OnErr result (IsAsItWas state.old state.new) }
    ensures stays { StaysOnDisk state.old state.new }
{
    if secrets.is_empty() {
        return Ok(true);
    }
    let is_reason = may_be_apart(alloc, &secrets, state.rows().list())?;
    match state.take_secrets(now, secrets) {
        Ok(()) => Ok(true),
        Err(SettleFault::OutOfMemory) => Err(AllocError),
        Err(_) if is_reason => Ok(false),
        Err(_) => Err(AllocError),
    }
}

// What files hold cannot be handed on.
fn apart_line(alloc: Global) -> Result<Text, AllocError>
    ensures { IfOk result (λ line. line ≡ apart_line) }
{
    Text::of(
        alloc,
        b"what the files of credentials hold does not go together: the old ones stay",
    )
}

// Takes the records out of the journal that are void, where that is worth while. (Where it fails, the journal has more records than it
// needs.)
#[tactic(auto, using(crate::proofs::Compacting::are_compacted))]
fn compact_if<D: Disk>(state: &mut State<'_, D>)
    ensures lines { AreCompacted (lines_in (store_in state.old)) (lines_in (store_in state.new)) }
    ensures book { book_in state.new ≡ book_in state.old }
    ensures waiting { waiting_in state.new.keeper ≡ waiting_in state.old.keeper }
    ensures path { path_of_store (store_in state.new) ≡ path_of_store (store_in state.old) }
    ensures any_moment { IsTrue D.is_known → LeavesOnly (D.state state.old.disk) (D.state state.new.disk)
        (CrashLeaves (path_of_store (store_in state.old)) (λ file. StandsFor file (compacted_lines (lines_in (store_in state.old)))) (D.state state.old.disk)) }
{
    let _compacted = state.compact();
}

// Takes a change, and then takes out of the journal the records that are void, where that is worth while.
fn take_on<D: Disk>(
    state: &mut State<'_, D>,
    now: u64,
    name: Name,
    what: ChangeKind,
) -> Result<(), TakeFault>
    ensures taken { OnOk result (IsTakenOn D.is_known D.state now name what state.old state.new) }
    ensures refused { IfErr result (IsWhyUntakenOn D.is_known D.state name what state.old state.new) }
    ensures unchanged { OnErr result (IsAsItWas state.old state.new) }
{
    state.take(now, name, what)?;
    compact_if(state);
    Ok(())
}

// The row, unless its entry has no credential and its name may not be sent.
fn not_bare(alloc: Global, row: Row, names_are_secrets: bool) -> Result<Row, Option<Text>>
    ensures ok { IfOk result (λ r. r ≡ row) }
    ensures bare { IfErr result (λ why. IfSome why (λ text. (is_bare_row row ≡ true) × (text ≡ bare_words row))) }
{
    if !names_are_secrets && is_bare_row(&row) {
        return Err(bare_words(alloc, &row).ok());
    }
    Ok(row)
}

// Why a table is no entry, in words; `None` where memory was wanting.
fn why_no_row(alloc: Global, fault: TableFault) -> Option<Text>
    ensures memory { fault ≡ TableFault.OutOfMemory → result ≡ None }
    ensures words { IfSome result (λ text. text ≡ table_words fault) }
{
    match fault {
        TableFault::OutOfMemory => None,
        _ => table_words(alloc, fault).ok(),
    }
}

// How many notes are left where no more are said than may be, in words.
fn left_words(alloc: Global, left: usize) -> Result<Text, AllocError>
    ensures { IfOk result (λ text. text ≡ left_words left) }
{
    let mut text = Vec::new(alloc);
    push_number(alloc, left as u64, &mut text)?;
    text.extend_from_slice(b" more changes do not hold")?;
    Ok(Text::from_vec(text))
}

// The notes that are said.
fn first_notes(notes: &[JournalNote]) -> &[JournalNote]
    ensures { result.now ≡ take 100 notes.now }
{
    if notes.len() < MOST_NOTES {
        notes
    } else {
        &notes[..MOST_NOTES]
    }
}

// Appends how many more changes do not hold, where some are not said.
fn push_left(alloc: Global, left: usize, lines: &mut Vec<Text>) -> Result<(), AllocError>
    ensures { OnOk result (lines.new.items ≡ lines.old.items ++ left_lines left) }
{
    if left > 0 {
        lines.push(left_words(alloc, left)?)?;
    }
    Ok(())
}

impl<'a, D: Disk, I: Inputs + SecretFiles, L: Lanes> Keeping for Ledger<'a, D, I, L> {
    ghost use Rattle.std.specs.Prelude.{true};
    ghost use Rattle.state_changes.specs.declared.row.Row.{Row};
    ghost use Rattle.agent_ledger.specs.Ledgers.{DoesLedger, GivesLedger, ReadsTable};
    ghost use Rattle.state_keeping.specs.States.{book_in};

    ghost does = { DoesLedger D.is_known D.state I.calls ⟦<L as SeenLanes>⟧.seen L.host_port };

    ghost keeps = { λ _. true };

    ghost rows = { λ l. (book_in l.state).rows };

    ghost path = { λ l. l.state.places.file };

    ghost reads = { λ l. ReadsTable (book_in l.state).file.system_max };

    ghost gives = { GivesLedger };

    fn keeps(&self) -> bool {
        true
    }

    fn try_again(&mut self, _alloc: Global, _now: u64, _is_asked: bool) -> Option<KeepNews> {
        None
    }

    fn take(
        &mut self,
        alloc: Global,
        now: u64,
        name: &[u8],
        what: ChangeKind,
    ) -> Result<(), Option<Text>> {
        let Ok(of) = Name::of(alloc, name) else {
            return Err(None);
        };
        let Ok(asked) = what.copy() else {
            return Err(None);
        };
        let margin = self.state.file().margin;
        match take_on(&mut self.state, now, of, what) {
            Ok(()) => Ok(()),
            Err(fault) => Err(take_words(alloc, margin, name, &asked, fault).ok()),
        }
    }

    fn look_up(
        &mut self,
        alloc: Global,
        now: Reading,
        name: &[u8],
        what: &ChangeKind,
    ) -> Result<LookedUp, AllocError> {
        let candidate = candidate_of(alloc, &self.state, name, what)?;
        ask(alloc, &mut self.proving, now, candidate)
    }

    fn prove(&mut self, alloc: Global, now: u64) -> Result<Option<Verdict>, AllocError> {
        hear(alloc, &mut self.proving, now)
    }

    fn settle(&mut self, alloc: Global) -> Result<(), Option<Text>> {
        match self.state.settle() {
            Ok(None) => Ok(()),
            Ok(Some(fault)) => Err(left_over_words(alloc, fault).ok()),
            Err(fault) => Err(settle_words(alloc, fault).ok()),
        }
    }

    fn reload(&mut self, alloc: Global, now: u64) -> Result<Reread, Vec<Text>> {
        self.looking.begin_anew();
        self.reread(alloc, now)
    }

    fn read_row(&self, alloc: Global, table: &[u8]) -> Result<Row, Option<Text>> {
        match read_table(alloc, self.state.file().system_max, table) {
            Ok(row) => not_bare(alloc, row, self.demands.names_are_secrets),
            Err(fault) => Err(why_no_row(alloc, fault)),
        }
    }

    #[tactic(auto, using(crate::proofs::Due::due_where_wanting))]
    fn due(&self, alloc: Global, now: u64) -> Result<Option<Inventory>, AllocError> {
        let Some(inventory) = self.state.due(now)? else {
            return Ok(None);
        };
        Ok(Some(wide(alloc, self.demands, self.state.text(), inventory)?))
    }

    fn look(&mut self, alloc: Global, now: Reading) -> FileLook {
        match hear_first(alloc, &mut self.askers, now.elapsed) {
            Ok(None) => FileLook {
                looked: self.look_on(alloc, now),
                unproved: None,
            },
            Ok(Some(word)) => {
                let FileWord { asked, verdict } = word;
                FileLook {
                    looked: self.judge_file(alloc, now, asked, verdict),
                    unproved: unproved_by(verdict),
                }
            }
            Err(AllocError) => FileLook {
                looked: wanting(),
                unproved: None,
            },
        }
    }

    fn mark_served(&mut self) {
        self.state.mark_served();
    }

    fn rest(&self, now: u64) -> Option<u64> {
        self.rest_by(now)
    }

    fn rows(&self) -> &[Row] {
        self.state.rows().list()
    }

    fn named(&self, name: &[u8]) -> Option<&Row> {
        self.state.rows().named(name)
    }

    fn path(&self) -> &[u8] {
        self.state.paths().file().as_bytes()
    }
}
