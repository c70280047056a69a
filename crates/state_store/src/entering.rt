ghost use Rattle.std.specs.Prelude.{◌≡◌, IfErr, IfOk, Some, string_bytes};
ghost use Rattle.state_changes.specs.Compaction.{is_need};
ghost use Rattle.state_changes.specs.Records.{record_of};
ghost use Rattle.state_changes.specs.Replay.{is_as_then};
ghost use Rattle.state_store.specs.Books.{IsTextOf};
ghost use Rattle.state_store.specs.Entering.{IsWhyNot, line_for_change};
ghost use Rattle.state_store.specs.code.Faults.{IsOfNoDisk, change_in};
ghost use Rattle.state_store.specs.code.Entered.{IsEntered, IsRecorded, IsUnhanded, IsUnmade, IsUnrecorded, RowsAndTextAreMade};

use crate::book::{Book, text_of};
use crate::fault::{TakeFault, unmade, unwritten};
use base_moment::{Name, Text};
use state_changes::{Change, ChangeKind, File, Record, Rows, read_record, said};
use std::alloc::{AllocError, Global};

/// A change that can be taken, once a journal has its line.
#[derive(Drop)]
pub(crate) struct Entered {
    /// The line that keeps it.
    pub(crate) line: Text,
    /// The rows after it.
    pub(crate) rows: Rows,
    /// The text of what is handed to a watch after it.
    pub(crate) text: String,
    /// Whether it is a need, which does not wait to be served.
    pub(crate) is_need: bool,
}

impl Book {
    /// What a change of the entry of that name comes to, where it can be taken.
    #[tactic(auto, using(crate::proofs::Entered::unrecorded_why, crate::proofs::Entered::unmade_why, crate::proofs::Told::unrecorded_alone, crate::proofs::Told::unmade_alone))]
    pub(crate) fn enter(
        &self,
        alloc: Global,
        name: Name,
        what: ChangeKind,
    ) -> Result<Entered, TakeFault>
        ensures entered { IfOk result (IsEntered self.now name what) }
        ensures refused { IfErr result (IsWhyNot self.now name what) }
        ensures alone { IfErr result IsOfNoDisk }
    {
        let (line, change) = self.recorded(alloc, name, what)?;
        let is_need = is_need(&change.what);
        let (rows, text) = self.made(alloc, change)?;
        Ok(Entered {
            line,
            rows,
            text,
            is_need,
        })
    }

    // The line that keeps a change, and the change as a later start reads it there.
    #[tactic(auto, using(crate::proofs::Entered::recorded_is, crate::proofs::Entered::not_read, crate::proofs::Entered::not_then))]
    fn recorded(
        &self,
        alloc: Global,
        name: Name,
        what: ChangeKind,
    ) -> Result<(Text, Change), TakeFault>
        ensures recorded { IfOk result (λ r. IsRecorded self.now name what r.0 r.1) }
        ensures refused { IfErr result (IsUnrecorded self.now name what) }
    {
        let line = line_for(alloc, &self.file, name, what)?;
        let Some(change) = read_change(alloc, line.list())? else {
            return Err(TakeFault::NoRecord);
        };
        if !is_as_then(alloc, &self.file.rows, &change)? {
            return Err(TakeFault::NoRecord);
        }
        Ok((line, change))
    }

    // The rows after a change, and the text of what is handed then.
    #[tactic(auto, using(crate::proofs::Entered::refused_unmade, crate::proofs::Entered::unhanded_unmade))]
    fn made(&self, alloc: Global, change: Change) -> Result<(Rows, String), TakeFault>
        ensures made { IfOk result (λ r. RowsAndTextAreMade self.now change r.0 (string_bytes r.1)) }
        ensures refused { IfErr result (IsUnmade self.now change) }
    {
        let mut rows = self.rows.copy(alloc)?;
        let Change { name, was: _, what } = change;
        match rows.change(self.file.margin, name.list(), what) {
            Ok(()) => self.written(alloc, rows),
            Err(fault) => Err(unmade(fault)),
        }
    }

    // These rows, and the text of what is handed of them.
    fn written(&self, alloc: Global, rows: Rows) -> Result<(Rows, String), TakeFault>
        ensures written { IfOk result (λ r. (r.0 ≡ rows) × IsTextOf self.now.file.margin self.now.secrets rows (string_bytes r.1)) }
        ensures refused { IfErr result (IsUnhanded self.now rows) }
    {
        match text_of(alloc, self.file.margin, &self.secrets, &rows) {
            Ok(text) => Ok((rows, text)),
            Err(fault) => Err(unwritten(fault)),
        }
    }
}

// The line that keeps a change of the entry of that name.
#[tactic(auto, unfolding(crate::specs::Entering::line_for_change))]
fn line_for(alloc: Global, file: &File, name: Name, what: ChangeKind) -> Result<Text, AllocError>
    ensures { IfOk result (λ line. line ≡ line_for_change file.now name what) }
{
    let was = said(alloc, &file.rows, name.list(), &what)?;
    state_changes::text_of(alloc, &Record::Made(Change { name, was, what }))
}

// The change that a line keeps, where it keeps one.
fn read_change(alloc: Global, line: &[u8]) -> Result<Option<Change>, AllocError>
    ensures { IfOk result (λ read. read ≡ change_in (record_of line.now)) }
{
    match read_record(alloc, line)? {
        None => Ok(None),
        Some(record) => Ok(change_of(record)),
    }
}

fn change_of(kept: Record) -> Option<Change>
    ensures { result ≡ change_in (Some kept) }
{
    match kept {
        Record::Made(change) => Some(change),
        Record::Settling(_) => None,
    }
}

// Whether the file says of the word what it said when the change was made.
#[tactic(auto, unfolding(state_changes::specs::Replay::is_as_then))]
fn is_as_then(alloc: Global, file: &Rows, change: &Change) -> Result<bool, AllocError>
    ensures { IfOk result (λ same. same ≡ is_as_then file.now change.now) }
{
    let word = said(alloc, file, change.name.list(), &change.what)?;
    Ok(word.list() == change.was.list())
}

fn is_need(what: &ChangeKind) -> bool
    ensures { result ≡ is_need what.now }
{
    match what {
        ChangeKind::Need(_) => true,
        ChangeKind::Replace(_) | ChangeKind::Add(_) | ChangeKind::Drop => false,
    }
}
