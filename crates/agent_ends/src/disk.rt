ghost use Rattle.std.specs.Prelude.{◌≡◌, IfOk, IsTrue, MatchOption, None, OnOk, Some, []};
ghost use Rattle.base_disk.specs.Image.{File, with_file_at};
ghost use Rattle.base_disk.specs.State.{DiskKeeps, IsAfter, LeavesAlone, LeavesOnly, TellsFailure};
ghost use Rattle.base_disk.specs.Torn.{MovesFile};
ghost use Rattle.agent_ends.specs.Ends.{ends_in, ends_text};
ghost use Rattle.base_journal.specs.Journals.{bytes_of_file};

use crate::text::{ends_text, read_ends};
use agent_standing::KnownEnd;
use base_disk::{Disk, DiskFault, FILE_MODE, replace};
use std::alloc::Global;

/// The most bytes of a file of ends: 1 MiB, which is more than those of 4,096 entries.
pub const MOST_ENDS: usize = 1 << 20;

/// Makes the file at `path` keep these ends.
pub fn agent_ends<D: Disk>(
    alloc: Global,
    disk: &mut D,
    path: &str,
    ends: &[KnownEnd],
) -> Result<(), DiskFault>
    ensures kept { OnOk result (IsTrue D.is_known
        → ((D.state disk.new).seen ≡ with_file_at path.now (record { mode = FILE_MODE; bytes = ends_text ends.now }) (D.state disk.old).seen)
        × DiskKeeps path.now (D.state disk.new)) }

    // A crash at any moment leaves the file that was there, or the new one whole; and so does a fault.
    ensures any_moment { IsTrue D.is_known → LeavesOnly (D.state disk.old) (D.state disk.new)
        (IsAfter (MovesFile path.now (record { mode = FILE_MODE; bytes = ends_text ends.now })) (D.state disk.old)) }
    ensures seen { IsTrue D.is_known
        → MovesFile path.now (record { mode = FILE_MODE; bytes = ends_text ends.now }) (D.state disk.old).seen (D.state disk.new).seen }
    ensures cause { TellsFailure (D.state disk.old) (D.state disk.new) result }
{
    let text = ends_text(alloc, ends)?;
    replace(disk, path, FILE_MODE, &text)
}

/// The ends of this boot that the file at `path` keeps; none where there is no file.
///
/// `TooLong`: the file has more than 1 MiB.
pub fn load_ends<D: Disk>(
    alloc: Global,
    disk: &mut D,
    path: &str,
    boot: &[u8],
) -> Result<Vec<KnownEnd>, DiskFault>
    ensures loaded { IfOk result (λ ends. IsTrue D.is_known → MatchOption ((D.state disk.old).seen path.now)
        (ends.items ≡ []) (λ file. ends.items ≡ ends_in boot.now file.bytes)) }
    ensures alone { IsTrue D.is_known → LeavesAlone (D.state disk.old) (D.state disk.new) }
    ensures cause { TellsFailure (D.state disk.old) (D.state disk.new) result }
{
    let Some(text) = disk.read(alloc, path, MOST_ENDS)? else {
        return Ok(Vec::new(alloc));
    };
    Ok(read_ends(alloc, boot, text.list())?)
}
