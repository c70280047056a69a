ghost use Rattle.std.specs.Prelude.{◌≡◌, ◌≤◌, IfErr, IfOk, IsTrue, bit_and, length};
ghost use Rattle.base_disk.specs.State.{LeavesAlone, LeavesOnly};
ghost use Rattle.vault_inventory.specs.declared.limits.TheConstants.{MOST_INVENTORY};
ghost use Rattle.state_keeping.specs.Reading.{IsFileAt, IsWhyUnread};

use base_disk::Disk;
use base_moment::Text;
use state_file::ReadFault;
use std::alloc::Global;
use vault_inventory::MOST_INVENTORY;

/// The bits of others to read and to write.
const OTHERS: u32 = 0o006;

/// A file as it may be served. It has no `Debug`: its bytes may hold secrets.
#[derive(Drop)]
pub struct FileRead {
    /// Its bytes, at most 1 MiB.
    pub bytes: Text,
    /// Its permission bits.
    pub mode: u32,
}

/// The file at `path`, where it is a regular one that others may neither read nor write, of at most 1 MiB.
///
/// # Errors
///
/// The first in the order of [`ReadFault`].
#[tactic(auto, using(crate::proofs::Steps::read_twice, crate::proofs::Steps::alone_twice))]
pub fn read_file<D: Disk>(alloc: Global, disk: &mut D, path: &str) -> Result<FileRead, ReadFault>
    ensures read { IfOk result (λ read. IsTrue D.is_known → IsFileAt path.now (D.state disk.old) read) }
    ensures private { IfOk result (λ read. bit_and read.mode 6 ≡ 0) }
    ensures short { IfOk result (λ read. length read.bytes ≤ MOST_INVENTORY) }
    ensures refused { IfErr result (λ fault. IsTrue D.is_known → IsWhyUnread path.now (D.state disk.old) fault) }
    ensures alone { IsTrue D.is_known → LeavesAlone (D.state disk.old) (D.state disk.new) }

    // A crash at any moment leaves what one might have left before.
    ensures any_moment { IsTrue D.is_known → LeavesOnly (D.state disk.old) (D.state disk.new) (D.state disk.old).may_leave }
{
    let Some(stamp) = disk.stamp(path)? else {
        return Err(ReadFault::Missing);
    };
    if !stamp.is_regular {
        return Err(ReadFault::NotRegular);
    }
    if stamp.mode & OTHERS != 0 {
        return Err(ReadFault::ForOthers(stamp.mode));
    }
    match disk.read(alloc, path, MOST_INVENTORY)? {
        None => Err(ReadFault::Missing),
        Some(bytes) => Ok(FileRead {
            bytes,
            mode: stamp.mode,
        }),
    }
}
