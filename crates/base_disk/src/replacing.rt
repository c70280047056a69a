ghost use Rattle.std.specs.Prelude.{◌≡◌, IfErr, OnOk, IsTrue, true, false, List, ℕ};
ghost use Rattle.std.specs.Str.{bytes_eq};
ghost use Rattle.base_disk.specs.Image.{with_file_at};
ghost use Rattle.base_disk.specs.Torn.{MovesFile};
ghost use Rattle.base_disk.specs.State.{DiskKeeps, LeavesOnly, IsAfter, IsNotTooLong, OutcomesFollow, TellsFailure};

use crate::{Disk, DiskFault};

/// Makes a file with these bytes and permission bits the file at `path`: beside it first, synced, and then moved. After `Ok` it
/// is on the disk.
pub fn replace<D: Disk>(disk: &mut D, path: &str, mode: u32, bytes: &[u8]) -> Result<(), DiskFault>
    ensures replaced { OnOk result (IsTrue D.is_known
        → ((D.state disk.new).seen ≡ with_file_at path.now (record { mode = mode; bytes = bytes.now }) (D.state disk.old).seen)
        × DiskKeeps path.now (D.state disk.new)) }

    // A crash at any moment of the call leaves the file that was there, or the new one whole; and so does a fault.
    ensures any_moment { IsTrue D.is_known → LeavesOnly (D.state disk.old) (D.state disk.new)
        (IsAfter (MovesFile path.now (record { mode = mode; bytes = bytes.now })) (D.state disk.old)) }
    ensures crash { IsTrue D.is_known
        → OutcomesFollow (MovesFile path.now (record { mode = mode; bytes = bytes.now })) (D.state disk.old) (D.state disk.new) }
    ensures seen { IsTrue D.is_known
        → MovesFile path.now (record { mode = mode; bytes = bytes.now }) (D.state disk.old).seen (D.state disk.new).seen }
    ensures sound { IsTrue D.is_known → (other : List ℕ) → bytes_eq path.now other ≡ false
        → (D.state disk.new).is_sound other ≡ (D.state disk.old).is_sound other }
    ensures cause { TellsFailure (D.state disk.old) (D.state disk.new) result }
    ensures which { IfErr result IsNotTooLong }
{
    disk.write_beside(path, mode, bytes)?;
    disk.sync_beside(path)?;
    disk.move_beside(path)?;
    disk.sync(path)
}
