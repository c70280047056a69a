ghost use Rattle.std.specs.Prelude.{◌≡◌};
ghost use Rattle.plan_check.specs.declared.answer.CheckFault.TheVariants.{OutOfMemory};

use std::alloc::{AllocError, AllocFailed};
use thiserror::Error;

/// What the checker says of a certificate.
#[derive(Clone, Copy, Debug, PartialEq, Eq)]
pub enum Answer {
    /// What it claims holds.
    Yes,
    /// It does not hold: the first test that fails.
    No(Cause),
}

/// The test that a certificate fails. Wake-ups count from 1, over all runs.
#[derive(Clone, Copy, Debug, PartialEq, Eq)]
pub enum Cause {
    /// This wake-up is before the start, or not after the one before it.
    NotRising(u64),
    /// This wake-up is not forced by the pair that is named for it.
    NotForced(u64),
    /// The entry of this index does not live until its need when each wake-up asks its Asks; no lower one fails.
    NotKept(u32),
    /// The named pair can be led to its need.
    NotUnkeepable,
}

/// Why a certificate was not checked.
#[derive(Clone, Copy, Debug, PartialEq, Eq, Error)]
pub enum CheckFault {
    /// Memory was refused.
    #[error("out-of-memory")]
    OutOfMemory,
}

impl From<AllocError> for CheckFault {
    ghost from_gives = { λ _ e. e ≡ OutOfMemory };

    fn from(_e: AllocError) -> CheckFault {
        CheckFault::OutOfMemory
    }
}

impl<T: Drop> From<AllocFailed<T>> for CheckFault {
    ghost from_gives = { λ _ e. e ≡ OutOfMemory };

    fn from(_e: AllocFailed<T>) -> CheckFault {
        CheckFault::OutOfMemory
    }
}
