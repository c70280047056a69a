ghost use Rattle.std.specs.Prelude.{◌≡◌, ◌⊎◌, [], IfErr, IfOk, Some, option_copied};
ghost use Rattle.state_store.specs.Books.{IsBookIf, IsFileFaultOf};
ghost use Rattle.state_store.specs.Stores.{BookIsFrom};
ghost use Rattle.state_store.specs.declared.fault.FileFault.TheVariants.{OutOfMemory};

use crate::book::{Book, read_if};
use crate::fault::FileFault;
use crate::records::records_in;
use crate::store::{OpenedStore, Store};
use base_journal::Journal;
use state_changes::{JournalNote, Record};
use std::alloc::Global;

impl<'a> Store<'a> {
    ghost use Rattle.std.specs.Prelude.{◌≡◌, [], IfErr, IfOk, option_copied, false, true};
    ghost use Rattle.base_journal.specs.Journals.{lines_of_journal};
    ghost use Rattle.state_store.specs.Stores.{IsReplayed, StoreIsOpened, is_kept, is_sure};
    ghost use Rattle.state_store.specs.Books.{IsFileFaultOf};
    ghost use Rattle.state_store.specs.Records.{records_in};

    /// What is kept from a start on, over an open journal: the file with these bytes and every change of the journal in order; or, where
    /// the file cannot be had or is not served, its last good copy with them. A line of the journal that writes no record counts for
    /// nothing.
    ///
    /// # Errors
    ///
    /// The fault of the file, where its copy is no good either; or `OutOfMemory`.
    #[tactic(auto, using(crate::proofs::Starting::no_memory, crate::proofs::Starting::rows_from))]
    pub fn open(
        alloc: Global,
        journal: Journal<'a>,
        file: Option<&[u8]>,
        copy: Option<&[u8]>,
    ) -> Result<OpenedStore<'a>, FileFault>
        ensures opened { IfOk result (StoreIsOpened (option_copied file.entry) (option_copied copy.entry) journal.entry) }
        ensures replayed { IfOk result (λ opened. IsReplayed opened.store) }
        ensures sure { IfOk result (λ opened. is_sure opened.store ≡ true) }
        ensures fresh { IfOk result (λ opened. is_kept opened.store ≡ false) }
        ensures refused { IfErr result (IsFileFaultOf (option_copied file.entry) (records_in (lines_of_journal journal.entry)) []) }
    {
        let records = records_in(alloc, journal.records())?;
        let (book, notes, fault) = good_of(alloc, file, copy, &records)?;
        let store = Store {
            alloc,
            journal,
            book,
            is_sure: true,
            is_kept: false,
        };
        Ok(OpenedStore {
            store,
            notes,
            fault,
        })
    }
}

// The book of a file, or that of its copy with the fault of the file.
#[tactic(auto, using(crate::proofs::Starting::or_memory, crate::proofs::Starting::from_copy))]
fn good_of(
    alloc: Global,
    file: Option<&[u8]>,
    copy: Option<&[u8]>,
    records: &[Record],
) -> Result<(Book, Vec<JournalNote>, Option<FileFault>), FileFault>
    ensures good { IfOk result (λ r. BookIsFrom (option_copied file.entry) (option_copied copy.entry) r.2 records.now r.0 r.1.items) }
    ensures refused { IfErr result (IsFileFaultOf (option_copied file.entry) records.now []) }
{
    match read_if(alloc, file, records, &[]) {
        Ok((book, notes)) => Ok((book, notes, None)),
        Err(FileFault::OutOfMemory) => Err(FileFault::OutOfMemory),
        Err(fault) => copy_for(alloc, fault, copy, records),
    }
}

// The book of the copy of a file with that fault.
fn copy_for(
    alloc: Global,
    fault: FileFault,
    copy: Option<&[u8]>,
    records: &[Record],
) -> Result<(Book, Vec<JournalNote>, Option<FileFault>), FileFault>
    ensures good { IfOk result (λ r. (r.2 ≡ Some fault) × IsBookIf (option_copied copy.entry) records.now [] r.0 r.1.items) }
    ensures refused { IfErr result (λ why. (why ≡ fault) ⊎ (why ≡ OutOfMemory)) }
{
    match read_if(alloc, copy, records, &[]) {
        Ok((book, notes)) => Ok((book, notes, Some(fault))),
        Err(FileFault::OutOfMemory) => Err(FileFault::OutOfMemory),
        Err(_) => Err(fault),
    }
}
