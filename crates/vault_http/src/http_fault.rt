ghost use Rattle.std.specs.Prelude.{◌≡◌};
ghost use Rattle.vault_http.specs.declared.http_fault.HttpFault.TheVariants.{OutOfMemory};
ghost use Rattle.vault_http.specs.Messages.{body_fault, length_fault};
ghost use Rattle.vault_http.specs.Reading.{more_fault};

use crate::body::BodyFault;
use crate::framing::LengthFault;
use base_device::MoreFault;
use std::alloc::AllocError;
use thiserror::Error;

/// Why a message was not read.
#[derive(Clone, Copy, Debug, PartialEq, Eq, Error)]
pub enum HttpFault {
    /// A read failed, and the device has counted it.
    #[error("a read failed")]
    ReadFailed,
    /// The head is none that is read: of a form that is not HTTP/1.0 or HTTP/1.1, with more than 64 fields, or with a
    /// status from 100 to 199.
    #[error("bad head")]
    BadHead,
    /// The length is not given by one field of 1 to 15 digits, or the coding is another than `chunked`.
    #[error("bad length")]
    BadLength,
    /// A chunk is not of the form that is read.
    #[error("bad chunk")]
    BadChunk,
    /// The input ends within the message.
    #[error("truncated")]
    Truncated,
    /// The message has more bytes, or needs more reads, than are allowed.
    #[error("too long")]
    TooLong,
    /// Both a length and a coding are given.
    #[error("two lengths")]
    TwoLengths,
    /// A growth was refused.
    #[error("out of memory")]
    OutOfMemory,
}

impl From<AllocError> for HttpFault {
    ghost from_gives = { λ _ e. e ≡ OutOfMemory };

    fn from(_e: AllocError) -> HttpFault {
        HttpFault::OutOfMemory
    }
}

impl From<MoreFault> for HttpFault {
    ghost from_gives = { λ f e. e ≡ more_fault f };

    fn from(fault: MoreFault) -> HttpFault {
        match fault {
            MoreFault::ReadFailed => HttpFault::ReadFailed,
            MoreFault::OutOfMemory => HttpFault::OutOfMemory,
        }
    }
}

impl From<BodyFault> for HttpFault {
    ghost from_gives = { λ f e. e ≡ body_fault f };

    fn from(fault: BodyFault) -> HttpFault {
        match fault {
            BodyFault::TooLong => HttpFault::TooLong,
            BodyFault::Truncated => HttpFault::Truncated,
            BodyFault::BadChunk => HttpFault::BadChunk,
            BodyFault::OutOfMemory => HttpFault::OutOfMemory,
        }
    }
}

impl From<LengthFault> for HttpFault {
    ghost from_gives = { λ f e. e ≡ length_fault f };

    fn from(fault: LengthFault) -> HttpFault {
        match fault {
            LengthFault::BadLength => HttpFault::BadLength,
            LengthFault::TwoLengths => HttpFault::TwoLengths,
        }
    }
}
