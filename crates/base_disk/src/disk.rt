ghost use Rattle.std.specs.Prelude.{◌≡◌, ◌≤◌, ◌⊎◌, ℕ, length, take, true, false, Bool, Some, None, List, OnOk, IfErr, IfOk, IfSome, MatchOption, IsTrue, is_none};
ghost use Rattle.std.specs.Str.{bytes_eq};
ghost use Rattle.base_disk.specs.Image.{Image, File, image_changed, with_file_at, with_bytes, overwritten};
ghost use Rattle.base_disk.specs.Torn.{Torn, Tears, MovesFile};
ghost use Rattle.base_disk.specs.State.{DiskState, OutcomesFollow, Touches, LeavesAlone, Elapses, IsNotTooLong, TellsFailure, StandsBeside};

use crate::{DiskFault, Lock};
use base_moment::Text;
use std::alloc::Global;

/// What tells that a file may have changed, and who may read it.
#[derive(Clone, Copy, Debug, PartialEq, Eq)]
pub struct DiskStamp {
    /// When its bytes were last changed, in seconds since 1970, and the nanoseconds of that second.
    pub modified: (i64, i64),
    /// How many bytes it has.
    pub size: u64,
    /// Its permission bits.
    pub mode: u32,
    /// Whether it is a regular file.
    pub is_regular: bool,
}

/// Files at paths, on a disk that a crash may leave in the midst of a call.
///
/// Contracts know what stands on a disk in memory. Of a real one they know nothing (`is_known` is false there): that it is
/// such a disk is what one trusts. Each call says what a crash at any moment in it may leave: any bytes in the range of a write
/// that is under way, nothing to rely on of what is not synced, and the old or the new file at the end of a move. `TooLong` is told by a read alone.
pub trait Disk {
    /// Whether contracts know what stands on it.
    ghost is_known: { Bool };

    /// What they know.
    ghost state: { Self → DiskState };

    /// The bytes of the file at `path`, `None` where there is no file.
    ///
    /// `TooLong`: the file has more than `max` bytes.
    fn read(&mut self, alloc: Global, path: &str, max: usize) -> Result<Option<Text>, DiskFault>
        ensures bytes { IsTrue is_known → IfOk result (λ found. MatchOption found ((state self.old).seen path.now ≡ None)
            (λ bytes. (file : File) × ((state self.old).seen path.now ≡ Some file) × (bytes ≡ file.bytes))) }
        ensures short { IfOk result (λ found. IfSome found (λ bytes. length bytes ≤ max)) }
        ensures alone { IsTrue is_known → LeavesAlone (state self.old) (state self.new) }
        ensures beside { IsTrue is_known → (state self.new).beside ≡ (state self.old).beside }
        ensures time { IsTrue is_known → Elapses (state self.old) (state self.new) }
        ensures cause { TellsFailure (state self.old) (state self.new) result };

    /// The stamp of the file at `path`, `None` where there is no file.
    fn stamp(&mut self, path: &str) -> Result<Option<DiskStamp>, DiskFault>
        ensures stamp { IsTrue is_known → IfOk result (λ found. MatchOption found ((state self.old).seen path.now ≡ None)
            (λ stamp. (file : File) × ((state self.old).seen path.now ≡ Some file) × (stamp.mode ≡ file.mode) × (stamp.size ≡ length file.bytes))) }
        ensures alone { IsTrue is_known → LeavesAlone (state self.old) (state self.new) }
        ensures beside { IsTrue is_known → (state self.new).beside ≡ (state self.old).beside }
        ensures time { IsTrue is_known → Elapses (state self.old) (state self.new) }
        ensures cause { TellsFailure (state self.old) (state self.new) result }
        ensures which { IfErr result IsNotTooLong };

    /// Writes over what is in the file at `path`, and past its end. Until a sync, a crash may leave any bytes in the range.
    fn write_at(&mut self, path: &str, at: usize, bytes: &[u8]) -> Result<(), DiskFault>
        requires { IsTrue is_known → IfSome ((state self.old).seen path.now) (λ file. at ≤ length file.bytes) }
        ensures written { OnOk result (IsTrue is_known
            → (state self.new).seen ≡ image_changed path.now (with_bytes (overwritten at bytes.now)) (state self.old).seen) }
        ensures sound { OnOk result (IsTrue is_known → (state self.new).is_sound ≡ (state self.old).is_sound) }
        ensures touches { IsTrue is_known → Touches path.now (state self.old) (state self.new) }
        ensures crash { IsTrue is_known → OutcomesFollow (Tears path.now (Torn at (length bytes.now))) (state self.old) (state self.new) }
        ensures time { IsTrue is_known → Elapses (state self.old) (state self.new) }
        ensures cause { TellsFailure (state self.old) (state self.new) result }
        ensures which { IfErr result IsNotTooLong };

    /// After it, a crash leaves the file at `path` as a read gives it, where no earlier call on that file has failed. That a
    /// file was moved there is on the disk then too.
    fn sync(&mut self, path: &str) -> Result<(), DiskFault>
        ensures durable { OnOk result (IsTrue is_known → (state self.old).is_sound path.now ≡ true
            → (c : Image) → (state self.new).may_leave c → c path.now ≡ (state self.old).seen path.now) }
        ensures sound { OnOk result (IsTrue is_known → (state self.new).is_sound ≡ (state self.old).is_sound) }
        ensures seen { IsTrue is_known → (state self.new).seen ≡ (state self.old).seen }
        ensures touches { IsTrue is_known → Touches path.now (state self.old) (state self.new) }
        ensures crash { IsTrue is_known → (c : Image) → (state self.new).may_leave c → (state self.old).may_leave c }
        ensures time { IsTrue is_known → Elapses (state self.old) (state self.new) }
        ensures cause { TellsFailure (state self.old) (state self.new) result }
        ensures which { IfErr result IsNotTooLong };

    /// Writes a new file beside `path`, in the place of one that was begun there. What stands at `path` is left alone.
    fn write_beside(&mut self, path: &str, mode: u32, bytes: &[u8]) -> Result<(), DiskFault>
        ensures beside { OnOk result (IsTrue is_known → (state self.new).beside
            ≡ Some (record { path = path.now; file = record { mode = mode; bytes = bytes.now }; is_synced = false })) }
        ensures alone { IsTrue is_known → LeavesAlone (state self.old) (state self.new) }
        ensures time { IsTrue is_known → Elapses (state self.old) (state self.new) }
        ensures cause { TellsFailure (state self.old) (state self.new) result }
        ensures which { IfErr result IsNotTooLong };

    /// Syncs the file that was written beside `path`.
    fn sync_beside(&mut self, path: &str) -> Result<(), DiskFault>
        ensures synced { OnOk result (IsTrue is_known → (file : File)
            → (state self.old).beside ≡ Some (record { path = path.now; file = file; is_synced = false }) → StandsBeside path.now file (state self.new)) }
        ensures alone { IsTrue is_known → LeavesAlone (state self.old) (state self.new) }
        ensures time { IsTrue is_known → Elapses (state self.old) (state self.new) }
        ensures cause { TellsFailure (state self.old) (state self.new) result }
        ensures which { IfErr result IsNotTooLong };

    /// Moves the file that was written beside `path`, and synced, to its place. Until a sync of `path`, a crash leaves
    /// it there or what was there before.
    fn move_beside(&mut self, path: &str) -> Result<(), DiskFault>
        requires { IsTrue is_known → (file : File) × StandsBeside path.now file (state self.old) }
        ensures moved { OnOk result (IsTrue is_known → (file : File) → StandsBeside path.now file (state self.old)
            → ((state self.new).seen ≡ with_file_at path.now file (state self.old).seen) × ((state self.new).is_sound path.now ≡ true)) }
        ensures seen { IsTrue is_known → (file : File) → StandsBeside path.now file (state self.old)
            → MovesFile path.now file (state self.old).seen (state self.new).seen }
        ensures sound { IsTrue is_known → (other : List ℕ) → bytes_eq path.now other ≡ false → (state self.new).is_sound other ≡ (state self.old).is_sound other }
        ensures crash { IsTrue is_known → (file : File) → StandsBeside path.now file (state self.old) → OutcomesFollow (MovesFile path.now file) (state self.old) (state self.new) }
        ensures time { IsTrue is_known → Elapses (state self.old) (state self.new) }
        ensures cause { TellsFailure (state self.old) (state self.new) result }
        ensures which { IfErr result IsNotTooLong };

    /// Holds the lock of the file at `path`, which is made where there is none, until the process ends; `None` where another
    /// process holds it. One that this process holds already is given again.
    fn lock(&mut self, path: &str) -> Result<Option<Lock>, DiskFault>
        ensures held { IfOk result (λ lock. IfSome lock (λ l. l ≡ path.now)) }
        ensures taken { IsTrue is_known → IfOk result (λ lock. is_none lock ≡ (state self.old).taken path.now) }
        ensures alone { IsTrue is_known → LeavesAlone (state self.old) (state self.new) }
        ensures beside { IsTrue is_known → (state self.new).beside ≡ (state self.old).beside }
        ensures time { IsTrue is_known → Elapses (state self.old) (state self.new) }
        ensures cause { TellsFailure (state self.old) (state self.new) result }
        ensures which { IfErr result IsNotTooLong };

    /// This moment is one of those since an earlier one.
    ghost counts_now: { (disk : Self) (t : ℕ) (c : Image) → t ≤ (state disk).moment → (state disk).may_leave c → (state disk).left_since t c };

    /// Since this moment there is no other.
    ghost only_now: { (disk : Self) (c : Image) → (state disk).left_since (state disk).moment c → (state disk).may_leave c };
}
