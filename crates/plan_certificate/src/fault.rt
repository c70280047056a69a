ghost use Rattle.std.specs.Prelude.{◌≡◌};
ghost use Rattle.plan_certificate.specs.declared.fault.CertFault.TheVariants.{OutOfMemory};

use std::alloc::{AllocError, AllocFailed};
use thiserror::Error;

/// Why a text is no certificate: the fault of the first line at fault. Lines are counted from 1. Within a line the order
/// is `BadLine`, `BadNumber`, `UnknownName`.
#[derive(Clone, Copy, Debug, PartialEq, Eq, Error)]
pub enum CertFault {
    /// The first line is not that of version 1 or of version 2, or its line feed is missing.
    #[error("bad-header")]
    BadHeader,
    /// The line's feed is missing, its first word is not one that may stand there, it has not the right number of words, or
    /// it is the 100,001st line of a run or wake-up.
    #[error("bad-line {0}")]
    BadLine(u64),
    /// A word of the line is not the name of an entry where it has to be one.
    #[error("unknown-name {0}")]
    UnknownName(u64),
    /// A number of the line is not spelled as it has to be or is over [`LAST`](base_moment::LAST), a run is not one that
    /// may be, or the count of `end` is not that of the wake-ups.
    #[error("bad-number {0}")]
    BadNumber(u64),
    /// The text ends after a line feed where one more line has to follow.
    #[error("truncated")]
    Truncated,
    /// Something stands after the last line.
    #[error("trailing")]
    Trailing,
    /// Memory was refused.
    #[error("out-of-memory")]
    OutOfMemory,
}

impl From<AllocError> for CertFault {
    ghost from_gives = { λ _ e. e ≡ OutOfMemory };

    fn from(_e: AllocError) -> CertFault {
        CertFault::OutOfMemory
    }
}

impl<T: Drop> From<AllocFailed<T>> for CertFault {
    ghost from_gives = { λ _ e. e ≡ OutOfMemory };

    fn from(_e: AllocFailed<T>) -> CertFault {
        CertFault::OutOfMemory
    }
}
