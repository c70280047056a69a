ghost use Rattle.std.specs.Prelude.{◌≡◌, ◌≢◌, ◌++◌, ◌∷◌, [], IfOk, OnOk};
ghost use Rattle.vault_inventory.specs.Needs.{has_always};
ghost use Rattle.state_changes.specs.Changes.{is_added};
ghost use Rattle.state_changes.specs.Replay.{holds, holds_of, is_as_then, is_until, made, overruled, refused_note, replay_begun, replay_step, replayed, same_need};

use crate::change::{Change, ChangeKind, Record};
use crate::fault::ChangeFault;
use crate::row::Row;
use crate::rows::Rows;
use crate::saying::said;
use base_moment::{Span, Text};
use std::alloc::{AllocError, Global};
use std::marker::Model;
use vault_inventory::Need;

/// What the file of an inventory says.
#[derive(Debug, Drop)]
pub struct File {
    /// The entries that it writes.
    pub rows: Rows,
    /// The margin, in seconds.
    pub margin: u32,
    /// The maximum TTL of the system, in seconds, where it is written.
    pub system_max: Option<Span>,
    /// The fingerprint of its bytes.
    pub mark: Text,
}

/// Why a change of a journal was not made.
#[derive(Clone, Copy, Debug, PartialEq, Eq)]
pub enum NotMadeReason {
    /// The file says something else of the word than it did when the change was made.
    FileWins,
    /// The change cannot be made.
    Refused(ChangeFault),
}

/// A change of a journal that was not made.
#[derive(Clone, Copy, Debug, PartialEq, Eq)]
pub struct JournalNote {
    /// The place of its record, counted from 0.
    pub at: usize,
    pub why: NotMadeReason,
}

/// The inventory that a file and the records of a journal give together, with a note on each change that was not made.
#[derive(Debug, Drop)]
pub struct Replayed {
    rows: Rows,
    notes: Vec<JournalNote>,
}

impl Model for Replayed {
    ghost use Rattle.state_changes.specs.Replay.{ReplayState};

    ghost Value = { ReplayState };

    ghost view = { λ r. record { rows = r.rows; notes = r.notes.items } };
}

impl Replayed {
    /// The rows of the inventory.
    pub fn rows(&self) -> &Rows
        ensures { result.now ≡ self.now.rows }
    {
        &self.rows
    }

    /// The notes, in the order of the records. A change that was not made has none where the inventory is as the change
    /// would make it, or where its entry was dropped.
    pub fn notes(&self) -> &[JournalNote]
        ensures { result.now ≡ self.now.notes }
    {
        &self.notes
    }

    /// Gives the rows, without taking memory.
    pub fn into_rows(self) -> Rows
        ensures { result ≡ self.rows }
    {
        self.rows
    }

    // Makes the change at a place of the list, or notes why it cannot be made.
    #[tactic(auto, using(crate::proofs::Making::refused_made), unfolding(crate::specs::Replay::made))]
    fn make(&mut self, margin: u32, at: usize, change: &Change) -> Result<(), AllocError>
        ensures { OnOk result (self.new ≡ made margin at self.old change.now) }
    {
        let what = change.what.copy()?;
        match self.rows.change(margin, change.name.list(), what) {
            Ok(()) => Ok(()),
            Err(fault) => self.note_refused(at, fault),
        }
    }

    // Notes why a change cannot be made, unless its entry was dropped. Lack of memory is told.
    fn note_refused(&mut self, at: usize, fault: ChangeFault) -> Result<(), AllocError>
        ensures { OnOk result ((fault ≢ ChangeFault.OutOfMemory) × (self.new ≡ record self.old { notes = self.old.notes ++ refused_note at fault })) }
    {
        match fault {
            ChangeFault::NoEntry => Ok(()),
            ChangeFault::OutOfMemory => Err(AllocError),
            fault => self.note(at, NotMadeReason::Refused(fault)),
        }
    }

    // Notes that the file wins, unless all is as the change would make it.
    #[tactic(auto, unfolding(crate::specs::Replay::overruled))]
    fn overrule(&mut self, at: usize, change: &Change) -> Result<(), AllocError>
        ensures { OnOk result (self.new ≡ overruled at self.old change.now) }
    {
        if holds(&self.rows, change) {
            return Ok(());
        }
        self.note(at, NotMadeReason::FileWins)
    }

    fn note(&mut self, at: usize, why: NotMadeReason) -> Result<(), AllocError>
        ensures { OnOk result (self.new ≡ record self.old { notes = self.old.notes ++ record { at = at; why = why } ∷ [] }) }
    {
        self.notes.push(JournalNote { at, why })?;
        Ok(())
    }
}

/// The inventory that a file gives with the records of a journal, in order. A change is made where the file says of its word
/// what it said when the change was made; where it says something else, the file wins. After a record that this file is to
/// hold all changes before it, the file alone counts.
///
/// The only error is out of memory.
#[tactic(auto, unfolding(crate::specs::Replay::replayed))]
pub fn replay(alloc: Global, file: &File, records: &[Record]) -> Result<Replayed, AllocError>
    ensures { IfOk result (λ r. r ≡ replayed file.now records.now) }
{
    let mut state = begin(alloc, file)?;
    for (at, record) in records.iter().enumerate() {
        take(alloc, file, at, record, &mut state)?;
    }
    Ok(state)
}

// The file alone.
fn begin(alloc: Global, file: &File) -> Result<Replayed, AllocError>
    ensures { IfOk result (λ r. r ≡ replay_begun file.now) }
{
    Ok(Replayed {
        rows: file.rows.copy(alloc)?,
        notes: Vec::new(alloc),
    })
}

// Takes the record at a place of the list.
fn take(
    alloc: Global,
    file: &File,
    at: usize,
    taken: &Record,
    state: &mut Replayed,
) -> Result<(), AllocError>
    ensures { OnOk result (state.new ≡ replay_step file.now at state.old taken.now) }
{
    match taken {
        Record::Settling(settled) => {
            if settled.list() == file.mark.list() {
                *state = begin(alloc, file)?;
            }
            Ok(())
        }
        Record::Made(change) => {
            if is_as_then(alloc, &file.rows, change)? {
                state.make(file.margin, at, change)
            } else {
                state.overrule(at, change)
            }
        }
    }
}

// Whether the file says of the word what it said when the change was made.
#[tactic(auto, unfolding(crate::specs::Replay::is_as_then))]
fn is_as_then(alloc: Global, file: &Rows, change: &Change) -> Result<bool, AllocError>
    ensures { IfOk result (λ same. same ≡ is_as_then file.now change.now) }
{
    let word = said(alloc, file, change.name.list(), &change.what)?;
    Ok(word.list() == change.was.list())
}

// Whether all is as the change would make it.
#[tactic(auto, unfolding(crate::specs::Replay::holds))]
fn holds(rows: &Rows, change: &Change) -> bool
    ensures { result ≡ holds rows.now change.now }
{
    match rows.named(change.name.list()) {
        None => !is_added(&change.what),
        Some(row) => holds_of(row, &change.what),
    }
}

fn holds_of(row: &Row, what: &ChangeKind) -> bool
    ensures { result ≡ holds_of row.now what.now }
{
    match what {
        ChangeKind::Need(until) => same_need(&row.need, until),
        ChangeKind::Replace(credential) => row.credential.list() == credential.list(),
        ChangeKind::Add(_) => true,
        ChangeKind::Drop => false,
    }
}

fn is_added(what: &ChangeKind) -> bool
    ensures { result ≡ is_added what.now }
{
    match what {
        ChangeKind::Add(_) => true,
        ChangeKind::Need(_) | ChangeKind::Replace(_) | ChangeKind::Drop => false,
    }
}

fn same_need(need: &Need, other: &Need) -> bool
    ensures { result ≡ same_need need.now other.now }
{
    match need {
        Need::Until(moment) => is_until(moment.get(), other),
        Need::Always => is_always(other),
    }
}

fn is_until(seconds: u64, need: &Need) -> bool
    ensures { result ≡ is_until seconds need.now }
{
    match need {
        Need::Until(moment) => moment.get() == seconds,
        Need::Always => false,
    }
}

fn is_always(need: &Need) -> bool
    ensures { result ≡ has_always need.now }
{
    match need {
        Need::Until(_) => false,
        Need::Always => true,
    }
}
