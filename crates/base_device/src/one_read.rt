ghost use Rattle.std.specs.Prelude.{◌≡◌, ℕ, ◌+◌, ◌-◌, ◌<◌, ◌≤◌, List, ◌++◌, Option, false, IsTrue, length, IfOk, IfSome, IsErrOf, vec_len};
ghost use Rattle.std.specs.Io.KnownBytes.{Keeps, Consumes, IsAtEnd};
ghost use Rattle.base_device.specs.declared.one_read.MoreFault.TheVariants as more;
ghost use Rattle.base_device.specs.Failures.{CountsMore};
ghost use Rattle.base_device.specs.declared.limits.TheConstants.{MOST_ROOM};
ghost use Rattle.base_device.specs.Whole.{MakesAtMost};

use crate::{Failed, Source};
use std::alloc::{AllocError, Global};

/// Why one more read gave nothing.
#[derive(Clone, Copy, Debug, PartialEq, Eq)]
pub enum MoreFault {
    /// The read failed, and the device has counted it.
    ReadFailed,
    /// A growth was refused.
    OutOfMemory,
}

impl From<Failed> for MoreFault {
    ghost from_gives = { λ _ e. e ≡ more.ReadFailed };

    fn from(_e: Failed) -> MoreFault {
        MoreFault::ReadFailed
    }
}

impl From<AllocError> for MoreFault {
    ghost from_gives = { λ _ e. e ≡ more.OutOfMemory };

    fn from(_e: AllocError) -> MoreFault {
        MoreFault::OutOfMemory
    }
}

/// `n` bytes to read into. (The size is a parameter, so that no proof spells the bytes out.)
pub fn zeros(alloc: Global, n: usize) -> Result<Vec<u8>, AllocError>
    ensures { IfOk result (λ v. vec_len v ≡ n) }
{
    vec![in alloc; 0u8; n]
}

/// Makes one read, puts what it gives after `bytes`, and says whether it gave something: else the input is at its end.
///
/// The read offers all of `room`, or what is left up to one byte past `max` where that is less.
pub fn read_more<R: Source>(
    source: &mut R,
    room: &mut [u8],
    bytes: &mut Vec<u8>,
    max: usize,
) -> Result<bool, MoreFault>
    requires few { vec_len bytes.old ≤ max }
    requires room { length room.old ≡ MOST_ROOM }

    // What came before `bytes` and what is left still make up the whole input.
    ensures given { (whole : Option (List ℕ)) → Consumes whole (R.seen source.old).input.remaining bytes.old.items
        → IfOk result (λ _. Consumes whole (R.seen source.new).input.remaining bytes.new.items) }
    ensures few { IfOk result (λ _. vec_len bytes.new ≤ max + 1) }
    ensures grown { IfOk result (λ _. (piece : List ℕ) × (bytes.new.items ≡ bytes.old.items ++ piece)) }
    ensures kept { IsErrOf result more.ReadFailed → Keeps (R.seen source.old).input.remaining (R.seen source.new).input.remaining }
    ensures end { IfOk result (λ some. some ≡ false
        → IsAtEnd (R.seen source.new).input.remaining × (bytes.new.items ≡ bytes.old.items) × (vec_len bytes.new ≡ vec_len bytes.old)) }
    ensures pace { IfSome (R.seen source.old).input.remaining (λ _. IfOk result (λ some. IsTrue some → vec_len bytes.new ≤ max
        → ((R.seen source.new).input.reads_left < (R.seen source.old).input.reads_left) × (0 < (R.seen source.new).input.reads_left))) }
    ensures last { (R.seen source.new).input.reads_left ≤ 1 → IsAtEnd (R.seen source.new).input.remaining }
    ensures made { MakesAtMost 1 (R.seen source.old).input (R.seen source.new).input }
    ensures output { (R.seen source.new).output ≡ (R.seen source.old).output }
    ensures count { CountsMore result (R.seen source.old).failed_calls (R.seen source.new).failed_calls }
{
    let most = (max - bytes.len()).saturating_add(1).min(room.len());
    let n = source.read_some(&mut room[..most])?;
    bytes.extend_from_slice(&room[..n])?;
    Ok(n > 0)
}
