use std::alloc::AllocError;
use thiserror::Error;

/// Why a text is no moment, or why a moment has no text.
#[derive(Clone, Copy, Debug, PartialEq, Eq, Error)]
pub enum TimeFault {
    /// The text is no date and time of the profile of RFC 3339 that [`read_rfc3339`](crate::read_rfc3339) reads.
    #[error("no date and time by RFC 3339")]
    BadTime,
    /// The text is a date and time, and its moment lies before 1970 or after [`LAST`](crate::LAST).
    #[error("a moment before 1970 or after 9999")]
    OutOfRange,
    /// A growth was refused. Only [`date_text`](crate::date_text) takes memory.
    #[error("out of memory")]
    OutOfMemory,
}

impl From<AllocError> for TimeFault {
    ghost use Rattle.std.specs.Prelude.{◌≡◌};
    ghost use Rattle.base_moment.specs.declared.fault.TimeFault.TheVariants.{OutOfMemory};

    ghost from_gives = { λ _ fault. fault ≡ OutOfMemory };

    fn from(_error: AllocError) -> TimeFault {
        TimeFault::OutOfMemory
    }
}
