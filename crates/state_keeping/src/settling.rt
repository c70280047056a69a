use crate::fault::SettleWhy;
use crate::reading::{FileRead, read_file};
use crate::state::State;
use base_disk::{Disk, DiskFault};

/// All permission bits but those of others.
const NOT_OTHERS: u32 = 0o770;

impl<'a, D: Disk> State<'a, D> {
    ghost use Rattle.std.specs.Prelude.{◌≡◌, ℕ, IfErr, IfOk, IsTrue, OnErr, List, true};
    ghost use Rattle.base_disk.specs.State.{LeavesOnly};
    ghost use Rattle.state_store.specs.Moved.{HasMarkAtMost};
    ghost use Rattle.state_store.specs.Stores.{is_sure};
    ghost use Rattle.state_keeping.specs.Keepers.{waiting_in};
    ghost use Rattle.state_keeping.specs.Lives.{SettlesInSteps};
    ghost use Rattle.state_keeping.specs.Settles.{IsSettledState, IsWhyUnsettledState, LeftBySettling};
    ghost use Rattle.state_keeping.specs.States.{book_in, store_in};

    /// Makes FILE one that says all that is kept, with its mode but for the bits of others; then FILE's bytes the last good copy; and then
    /// takes the records out of the journal. Lines that write no record, which could not be set aside at the start, stay there. The inner
    /// fault is why the journal was left as it was, since the copy could not be kept or the journal not be written: FILE says all that is
    /// kept all the same. Where FILE said all that before, nothing is written.
    ///
    /// # Errors
    ///
    /// The first in the order of [`SettleWhy`]. What is kept is as it was then; the journal may have a mark more, which changes
    /// nothing. Where the disk may have the new FILE, no change is taken until FILE is read anew.
    #[tactic(auto, using(crate::proofs::Filed::keeps_alone, crate::proofs::Filed::keeps_at))]
    pub fn settle(&mut self) -> Result<Option<DiskFault>, SettleWhy>
        ensures settled { IfOk result (λ left. IsSettledState D.is_known self.old left self.new (D.state self.old.disk) (D.state self.new.disk)) }
        ensures refused { IfErr result (IsWhyUnsettledState D.is_known self.old (D.state self.old.disk)) }
        ensures waiting { waiting_in self.new.keeper ≡ waiting_in self.old.keeper }
        ensures book { OnErr result (book_in self.new ≡ book_in self.old) }
        ensures lines { OnErr result (HasMarkAtMost (store_in self.old) (store_in self.new)) }
        ensures sure { OnErr result (is_sure (store_in self.new) ≡ true → is_sure (store_in self.old) ≡ true) }
        ensures places { self.new.places ≡ self.old.places }

        // A crash at any moment leaves what gives the same inventory.
        ensures any_moment { IsTrue D.is_known → LeavesOnly (D.state self.old.disk) (D.state self.new.disk) (LeftBySettling (store_in self.old) self.old.places (D.state self.old.disk)) }

        // Step by step, each from where the one before it ended: `what_was_acknowledged_is_served` goes on from each of them.
        ensures steps { IsTrue D.is_known → SettlesInSteps D.state self.old self.new }
    {
        let FileRead { bytes, mode } = read_file(self.alloc, &mut self.disk, self.paths.file())?;
        let mode = mode & NOT_OTHERS;
        let moved = self
            .keeper
            .settle(&mut self.disk, self.paths.file(), mode, bytes.list())?;
        let Some(text) = moved else {
            return Ok(None);
        };
        let left = self
            .keeper
            .hand_over(&mut self.disk, self.paths.copy(), text.as_bytes());
        Ok(left.err())
    }
}
