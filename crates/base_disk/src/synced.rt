ghost use Rattle.std.specs.Prelude.{◌≡◌, ◌≤◌, length, IfErr, OnOk, IsTrue, IfSome, true};
ghost use Rattle.base_disk.specs.Image.{image_changed, with_bytes, overwritten};
ghost use Rattle.base_disk.specs.Torn.{Torn, Tears};
ghost use Rattle.base_disk.specs.State.{DiskKeeps, Touches, OutcomesFollow, LeavesOnly, IsAfter, IsNotTooLong, TellsFailure};

use crate::{Disk, DiskFault};

/// Writes over what is in the file at `path`, and past its end, and syncs it.
pub fn write_synced<D: Disk>(
    disk: &mut D,
    path: &str,
    at: usize,
    bytes: &[u8],
) -> Result<(), DiskFault>
    requires { IsTrue D.is_known → IfSome ((D.state disk.old).seen path.now) (λ file. at ≤ length file.bytes) }
    ensures written { OnOk result (IsTrue D.is_known
        → (D.state disk.new).seen ≡ image_changed path.now (with_bytes (overwritten at bytes.now)) (D.state disk.old).seen) }
    ensures kept { OnOk result (IsTrue D.is_known → (D.state disk.old).is_sound path.now ≡ true → DiskKeeps path.now (D.state disk.new)) }

    // A crash at any moment of the call leaves any bytes in the range, and what was there elsewhere; and so does a fault.
    ensures any_moment { IsTrue D.is_known → LeavesOnly (D.state disk.old) (D.state disk.new)
        (IsAfter (Tears path.now (Torn at (length bytes.now))) (D.state disk.old)) }
    ensures crash { IsTrue D.is_known → OutcomesFollow (Tears path.now (Torn at (length bytes.now))) (D.state disk.old) (D.state disk.new) }
    ensures touches { IsTrue D.is_known → Touches path.now (D.state disk.old) (D.state disk.new) }
    ensures cause { TellsFailure (D.state disk.old) (D.state disk.new) result }
    ensures which { IfErr result IsNotTooLong }
{
    disk.write_at(path, at, bytes)?;
    disk.sync(path)
}
