ghost use Rattle.std.specs.Prelude.{◌≡◌, IfErr, IfOk, OnErr, OnOk, Ok, option_copied, string_bytes};
ghost use Rattle.vault_served.specs.ForGood.{inventory_for_good};
ghost use Rattle.state_file.specs.Order.{in_order};
ghost use Rattle.state_store.specs.Books.{HasSecrets, IsBook, IsBookIf, IsBookOf, IsFault, IsFileFaultOf, IsFileOf, IsTextOf, IsWhyUnhanded, file_of};
ghost use Rattle.state_store.specs.Moved.{IsMovedBook, SaysAllKept};
ghost use Rattle.state_store.specs.code.Faults.{IsNoFile};

use crate::fault::{FileFault, faulty, unhanded};
use crate::handing::handed;
use state_changes::{
    File, JournalNote, Record, Rows, Secret, copy_secrets, fingerprint, replay, rows_of,
};
use state_file::{SettleFault, Settled, settle};
use std::alloc::{AllocError, Global};
use std::fmt;
use std::marker::Model;
use vault_inventory::{Inventory, ServedInventory, read_served};
use vault_served::read_for_good;

/// What a file says, what the changes of a journal have made of it, what was taken from files of secrets, and the text of the
/// inventory that is handed to a watch.
#[derive(Drop)]
pub struct Book {
    pub(crate) file: File,
    pub(crate) rows: Rows,
    pub(crate) secrets: Vec<Secret>,
    pub(crate) text: String,
}

impl Model for Book {
    ghost use Rattle.std.specs.Prelude.{string_bytes};
    ghost use Rattle.state_store.specs.Books.{Book, IsBook};

    ghost Value = { Book };

    ghost view = { λ b. record { file = b.file; rows = b.rows; secrets = b.secrets.items; text = string_bytes b.text } };

    ghost invariant = { λ b. IsBook (record { file = b.file; rows = b.rows; secrets = b.secrets.items; text = string_bytes b.text }) };
}

impl fmt::Debug for Book {
    /// Shows what the file says, without credentials.
    fn fmt<W: fmt::Write>(&self, f: &mut fmt::Formatter<W>) -> fmt::Result {
        f.debug_struct("Book")
            .field("file", &self.file)
            .finish_non_exhaustive()
    }
}

impl Book {
    /// The book of a file with these bytes and the records of a journal, with a note on each change that was not made.
    ///
    /// # Errors
    ///
    /// `Faulty`, the bytes are no inventory; `Unwritten`, what is to be handed cannot be written as one file, as over 1 MiB; and
    /// `OutOfMemory`.
    #[tactic(auto, using(crate::proofs::Faulty::no_file_is, crate::proofs::Faulty::unhanded_is))]
    pub fn read(
        alloc: Global,
        bytes: &[u8],
        records: &[Record],
        secrets: &[Secret],
    ) -> Result<(Book, Vec<JournalNote>), FileFault>
        ensures read { IfOk result (λ r. IsBookOf bytes.now records.now secrets.now r.0 r.1.items) }
        ensures refused { IfErr result (IsFault bytes.now records.now secrets.now) }
    {
        let file = read_file(alloc, bytes)?;
        let replayed = replay(alloc, &file, records)?;
        let notes = Vec::from_slice(alloc, replayed.notes())?;
        let rows = replayed.into_rows();
        let secrets = copy_secrets(alloc, secrets)?;
        let text = match text_of(alloc, file.margin, &secrets, &rows) {
            Ok(text) => text,
            Err(fault) => return Err(unhanded(fault)),
        };
        let book = Book {
            file,
            rows,
            secrets,
            text,
        };
        Ok((book, notes))
    }

    /// What the file says.
    pub fn file(&self) -> &File
        ensures value { result.now ≡ self.now.file }
        ensures sound { IsBook self.now }
    {
        &self.file
    }

    /// The rows of the file after every change.
    pub fn rows(&self) -> &Rows
        ensures { result.now ≡ self.now.rows }
    {
        &self.rows
    }

    /// The text of a file that says what is handed to a watch.
    pub fn text(&self) -> &str
        ensures { result.now ≡ self.now.text }
    {
        self.text.as_str()
    }

    /// Has these rows, and the text of what is handed of them, from now on.
    pub(crate) fn turn(&mut self, rows: Rows, text: String)
        requires { IsTextOf self.old.file.margin self.old.secrets rows (string_bytes text) }
        ensures { self.new ≡ record self.old { rows = rows; text = string_bytes text } }
    {
        self.rows = rows;
        self.text = text;
    }

    /// What was taken from files of secrets, the last of each.
    pub fn secrets(&self) -> &[Secret]
        ensures { result.now ≡ self.now.secrets }
    {
        &self.secrets
    }

    /// Has from now on what these files of secrets have given. Where that cannot be handed on, as where two entries of a kind would have
    /// one credential, all is as it was.
    pub fn take_secrets(&mut self, alloc: Global, secrets: Vec<Secret>) -> Result<(), SettleFault>
        ensures taken { OnOk result (HasSecrets self.old secrets.items self.new) }
        ensures refused { IfErr result (IsWhyUnhanded self.old.file.margin secrets.items self.old.rows) }
        ensures unchanged { OnErr result (self.new ≡ self.old) }
    {
        let text = text_of(alloc, self.file.margin, &secrets, &self.rows)?;
        self.secrets = secrets;
        self.text = text;
        Ok(())
    }

    /// The book once its file has this text, of which that is read.
    #[tactic(auto, using(crate::proofs::Unhanded::handed_again, crate::proofs::Unhanded::memory_unhanded))]
    pub(crate) fn moved(
        &self,
        alloc: Global,
        text: &str,
        served: &ServedInventory,
    ) -> Result<Book, SettleFault>
        requires { SaysAllKept self.now text.now served.now }
        ensures moved { IfOk result (IsMovedBook self.now text.now served.now) }
        ensures refused { IfErr result (IsWhyUnhanded self.now.file.margin self.now.secrets (in_order self.now.rows)) }
    {
        let file = file_with(alloc, text.as_bytes(), served)?;
        let rows = rows_of(alloc, served)?;
        let secrets = copy_secrets(alloc, &self.secrets)?;
        let text = text_of(alloc, file.margin, &secrets, &rows)?;
        Ok(Book {
            file,
            rows,
            secrets,
            text,
        })
    }

    /// The inventory that is handed to a watch. The only error is lack of memory.
    pub fn inventory(&self, alloc: Global) -> Result<Inventory, AllocError>
        ensures { IfOk result (λ inventory. inventory_for_good self.now.text ≡ Ok inventory) }
    {
        match read_for_good(alloc, self.text.as_bytes()) {
            Ok(inventory) => Ok(inventory),
            Err(_) => Err(AllocError),
        }
    }
}

// What a file with these bytes says.
#[tactic(auto, using(crate::proofs::Faulty::faulty_is, crate::proofs::Faulty::memory_fault))]
fn read_file(alloc: Global, bytes: &[u8]) -> Result<File, FileFault>
    ensures read { IfOk result (IsFileOf bytes.now) }
    ensures refused { IfErr result (IsNoFile bytes.now) }
{
    match read_served(alloc, bytes) {
        Ok(served) => Ok(file_with(alloc, bytes, &served)?),
        Err(fault) => Err(faulty(fault)),
    }
}

// The only error is lack of memory.
fn file_with(alloc: Global, bytes: &[u8], served: &ServedInventory) -> Result<File, AllocError>
    ensures { IfOk result (λ file. file ≡ file_of bytes.now served.now) }
{
    Ok(File {
        rows: rows_of(alloc, served)?,
        margin: served.inventory().forest().margin(),
        system_max: served.system_max(),
        mark: fingerprint(alloc, bytes)?,
    })
}

/// The text of a file that says what is handed of these rows, with that margin in seconds.
#[tactic(auto, using(crate::proofs::Unhanded::memory_unhanded))]
pub(crate) fn text_of(
    alloc: Global,
    margin: u32,
    secrets: &[Secret],
    rows: &Rows,
) -> Result<String, SettleFault>
    ensures text { IfOk result (λ text. IsTextOf margin secrets.now rows.now (string_bytes text)) }
    ensures refused { IfErr result (IsWhyUnhanded margin secrets.now rows.now) }
{
    let handed = handed(alloc, secrets, rows.list())?;
    let Settled { text, served: _ } = settle(alloc, Some(margin), None, &handed)?;
    Ok(text)
}

/// The book of a file whose bytes may not be had.
pub(crate) fn read_if(
    alloc: Global,
    bytes: Option<&[u8]>,
    records: &[Record],
    secrets: &[Secret],
) -> Result<(Book, Vec<JournalNote>), FileFault>
    ensures read { IfOk result (λ r. IsBookIf (option_copied bytes.entry) records.now secrets.now r.0 r.1.items) }
    ensures refused { IfErr result (IsFileFaultOf (option_copied bytes.entry) records.now secrets.now) }
{
    match bytes {
        None => Err(FileFault::Unread),
        Some(bytes) => Book::read(alloc, bytes, records, secrets),
    }
}
