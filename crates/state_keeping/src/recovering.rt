ghost use Rattle.std.specs.Prelude.{IfErr, IfOk, IsTrue, List, ℕ};
ghost use Rattle.base_disk.specs.State.{LeavesOnly};
ghost use Rattle.base_journal.specs.Journals.{bytes_of_file};
ghost use Rattle.base_journal.specs.Records.{StandsFor};
ghost use Rattle.state_keeping.specs.Opens.{IsOfFolder};
ghost use Rattle.state_keeping.specs.Recovers.{IsRecovered, LeftByStart, SeesOthers};

use crate::fault::OpenFault;
use crate::paths::Paths;
use base_disk::{Disk, DiskFault, Lock};
use base_journal::{Journal, records_are_read_back};
use state_store::{count_damaged, set_damaged_aside};
use std::alloc::Global;

/// The journal of a state folder at a start. It has no `Debug`: a record may hold a secret.
#[derive(Drop)]
pub struct Recovered<'a> {
    /// The lock of the folder.
    pub lock: Lock,
    /// The journal.
    pub journal: Journal<'a>,
    /// How many of its lines wrote no record, as no command has made them. They count for nothing.
    pub damaged: usize,
    /// Why those are in the journal still; `None` where they are aside, or there were none.
    pub aside: Option<DiskFault>,
}

/// The journal of the folder, which is held from then on. Lines that no command has made go to the file aside first; nothing else is
/// written. It may crash too, at any moment.
///
/// # Errors
///
/// The first in the order of [`OpenFault`], but no `File`: `Held` exactly where another process holds the lock of the folder.
#[tactic(auto, using(crate::proofs::Served::of_folder))]
pub fn recover<'a, D: Disk>(
    alloc: Global,
    disk: &mut D,
    paths: &'a Paths,
) -> Result<Recovered<'a>, OpenFault>
    ensures recovered { IfOk result (IsRecovered D.is_known paths.now (D.state disk.old) (D.state disk.new)) }

    ensures refused { IfErr result (IsOfFolder D.is_known paths.now (D.state disk.old)) }
    ensures others { IsTrue D.is_known → SeesOthers paths.now (D.state disk.old) (D.state disk.new) }

    // A crash at any moment leaves the journal as it might have been left before, or the same records.
    ensures any_moment { IsTrue D.is_known → (lines : List (List ℕ)) → StandsFor (bytes_of_file ((D.state disk.old).seen paths.now.journal)) lines
        → LeavesOnly (D.state disk.old) (D.state disk.new) (LeftByStart lines paths.now (D.state disk.old)) }
{
    let Some(lock) = disk.lock(paths.lock())? else {
        return Err(OpenFault::Held);
    };
    let mut journal = Journal::open(alloc, disk, paths.journal())?;
    let damaged = count_damaged(alloc, &journal)?;
    if damaged == 0 {
        return Ok(Recovered {
            lock,
            journal,
            damaged,
            aside: None,
        });
    }
    // What the journal holds are the records that its file stands for, and no others.
    records_are_read_back();
    let aside = set_damaged_aside(alloc, disk, &mut journal, paths.aside()).err();
    Ok(Recovered {
        lock,
        journal,
        damaged,
        aside,
    })
}
