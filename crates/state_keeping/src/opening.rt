ghost use Rattle.std.specs.Prelude.{◌≡◌, IsTrue, false, option_copied, true};
ghost use Rattle.std.specs.Str.{bytes_eq};
ghost use Rattle.base_disk.specs.Image.{SameElsewhere};
ghost use Rattle.base_disk.specs.State.{IsAfter, LeavesOnly};
ghost use Rattle.base_journal.specs.Journals.{JournalHolds, KeepsOthers};
ghost use Rattle.state_store.specs.Stores.{IsReplayed, book_of, is_kept, is_sure, journal_of, path_of_store};
ghost use Rattle.state_keeping.specs.Opens.{IsCopyOf, takes_changes};

use crate::fault::OpenFault;
use crate::keeper::StateKeeper;
use crate::paths::Paths;
use crate::recovering::{Recovered, recover};
use crate::state::State;
use base_disk::{Disk, DiskFault, Lock};
use state_changes::JournalNote;
use state_store::{FileFault, Store};
use std::alloc::Global;

/// A state at a start.
#[derive(Drop)]
pub struct OpenedState<'a, D: Disk> {
    /// The lock of the folder.
    pub lock: Lock,
    /// What is kept.
    pub state: State<'a, D>,
    /// A note on each change of the journal that was not made, by the place of its record.
    pub notes: Vec<JournalNote>,
    /// Why the last good copy is served in place of FILE; `None` where FILE is.
    pub fault: Option<FileFault>,
    /// How many lines of the journal wrote no record, as no command has made them. They count for nothing.
    pub damaged: usize,
    /// Why those are in the journal still; `None` where they are aside, or there were none.
    pub aside: Option<DiskFault>,
    /// Why FILE's good copy could not be kept, or synced, where it is served: no change is taken then until FILE is read anew. `None` where
    /// it was.
    pub copy: Option<DiskFault>,
}

/// Why a state was not opened, and the disk that it was to be kept on.
#[derive(Drop)]
pub struct Unopened<D> {
    /// Why not.
    pub why: OpenFault,
    /// The disk, as the start has left it.
    pub disk: D,
}

impl<'a, D: Disk> State<'a, D> {
    ghost use Rattle.std.specs.Prelude.{◌≡◌, ℕ, IfErr, IfOk, IsTrue, List, option_copied};
    ghost use Rattle.base_disk.specs.State.{LeavesOnly};
    ghost use Rattle.base_journal.specs.Journals.{bytes_of_file};
    ghost use Rattle.base_journal.specs.Records.{StandsFor};
    ghost use Rattle.state_keeping.specs.Opens.{IsOpenedState, IsWhyUnopened};
    ghost use Rattle.state_keeping.specs.Recovers.{LeftByStart};

    /// What is kept from a start on, by the journal of the folder, which is held from then on: the file with these bytes and every
    /// change of the journal in order; or, where the file cannot be had or is not served, its last good copy with them. Lines of the
    /// journal that no command has made go aside first. The file that is served is the last good copy then, and that copy is on the disk.
    ///
    /// # Errors
    ///
    /// The first in the order of [`OpenFault`], with the disk, which has lost no record.
    #[tactic(auto, using(crate::proofs::Filed::keeps_opened, crate::proofs::Served::unserved_why))]
    pub fn open(
        alloc: Global,
        disk: D,
        paths: &'a Paths,
        file: Option<&[u8]>,
        copy: Option<&[u8]>,
    ) -> Result<OpenedState<'a, D>, Unopened<D>>
        ensures opened { IfOk result (λ o. IsOpenedState D.is_known (option_copied file.entry) (option_copied copy.entry) paths.now (D.state disk) (D.state o.state.disk) o) }
        ensures refused { IfErr result (λ u. IsWhyUnopened D.is_known (option_copied file.entry) paths.now (D.state disk) u.why) }

        // A crash at any moment of a start that is refused leaves the same records too.
        ensures any_moment { IfErr result (λ u. IsTrue D.is_known → (lines : List (List ℕ)) → StandsFor (bytes_of_file ((D.state disk).seen paths.now.journal)) lines
            → LeavesOnly (D.state disk) (D.state u.disk) (LeftByStart lines paths.now (D.state disk))) }
    {
        let mut disk = disk;
        let Recovered {
            lock,
            journal,
            damaged,
            aside,
        } = match recover(alloc, &mut disk, paths) {
            Ok(recovered) => recovered,
            Err(why) => return Err(Unopened { why, disk }),
        };
        let opened = match Store::open(alloc, journal, file, copy) {
            Ok(opened) => opened,
            Err(fault) => {
                let why = OpenFault::from(fault);
                return Err(Unopened { why, disk });
            }
        };
        let state_store::OpenedStore {
            mut store,
            notes,
            fault,
        } = opened;
        let copy = keep_good(&mut disk, &mut store, paths.copy(), fault, file);
        Ok(OpenedState {
            lock,
            state: State {
                alloc,
                keeper: StateKeeper::new(store),
                disk,
                paths,
            },
            notes,
            fault,
            damaged,
            aside,
            copy,
        })
    }
}

// Makes the file with these bytes, where it is served, the last good copy at that path; or syncs that copy, which is served in its place.
// Why that could not be done; where that copy could not be synced, no change is taken.
#[tactic(auto, using(crate::proofs::Served::copy_elsewhere, crate::proofs::Served::synced_elsewhere, crate::proofs::Served::nothing_copied, state_store::proofs::Taken::others_stay))]
fn keep_good<D: Disk>(
    disk: &mut D,
    store: &mut Store<'_>,
    copy: &str,
    fault: Option<FileFault>,
    file: Option<&[u8]>,
) -> Option<DiskFault>
    requires apart { bytes_eq (path_of_store store.old) copy.now ≡ false }
    requires held { JournalHolds D.is_known (journal_of store.old) (D.state disk.old) }
    requires replayed { IsReplayed store.old }
    requires sure { is_sure store.old ≡ true }
    ensures copied { IsCopyOf D.is_known copy.now (option_copied file.entry) fault result (D.state disk.new) }
    ensures sure { is_sure store.new ≡ takes_changes fault result }
    ensures book { book_of store.new ≡ book_of store.old }
    ensures journal { journal_of store.new ≡ journal_of store.old }
    ensures kept { is_kept store.new ≡ is_kept store.old }
    ensures held { JournalHolds D.is_known (journal_of store.new) (D.state disk.new) }
    ensures replayed { IsReplayed store.new }

    ensures others { IsTrue D.is_known → KeepsOthers copy.now (D.state disk.old) (D.state disk.new) }

    // A crash at any moment leaves all but the copy as it might have been left before.
    ensures any_moment { IsTrue D.is_known → LeavesOnly (D.state disk.old) (D.state disk.new) (IsAfter (SameElsewhere copy.now) (D.state disk.old)) }
{
    match (fault, file) {
        (Some(_), _) => store.sync_copy(disk, copy).err(),
        (None, Some(bytes)) => store.keep_copy(disk, copy, bytes).err(),
        (None, None) => None,
    }
}
