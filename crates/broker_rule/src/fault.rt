use base_moment::Span;
use std::alloc::{AllocError, AllocFailed};
use thiserror::Error;

/// What is to go wrong at a renewal request. A fault of a request that is refused anyhow has no effect.
#[derive(Clone, Copy, Debug, PartialEq, Eq)]
pub enum Fault {
    /// The grant ends so many seconds after the request, or where it would have ended if that is sooner.
    Short(Span),
    /// All is done as without a fault, and no reply is sent.
    Drop,
    /// The request is refused with status 403.
    Deny,
}

/// A fault of the renewal request with that number, counted from 1.
#[derive(Clone, Copy, Debug, PartialEq, Eq)]
pub struct NumberedFault {
    pub number: u64,
    pub fault: Fault,
}

/// Why a table does not take a fault.
#[derive(Clone, Copy, Debug, PartialEq, Eq, Error)]
pub enum SetFault {
    /// The number is 0, or that of a request that was counted already.
    #[error("bad-number")]
    BadNumber,
    /// The number has a fault.
    #[error("twice")]
    Twice,
    /// Memory ran out.
    #[error("out-of-memory")]
    OutOfMemory,
}

impl From<AllocError> for SetFault {
    ghost use Rattle.std.specs.Prelude.{◌≡◌};
    ghost use Rattle.broker_rule.specs.declared.fault.SetFault.TheVariants.{OutOfMemory};

    ghost from_gives = { λ _ e. e ≡ OutOfMemory };

    fn from(_e: AllocError) -> SetFault {
        SetFault::OutOfMemory
    }
}

impl<T: Drop> From<AllocFailed<T>> for SetFault {
    ghost use Rattle.std.specs.Prelude.{◌≡◌};
    ghost use Rattle.broker_rule.specs.declared.fault.SetFault.TheVariants.{OutOfMemory};

    ghost from_gives = { λ _ e. e ≡ OutOfMemory };

    fn from(_e: AllocFailed<T>) -> SetFault {
        SetFault::OutOfMemory
    }
}
