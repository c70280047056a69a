use crate::field::Field;
use std::alloc::{AllocError, AllocFailed};
use thiserror::Error;

/// Why a body was not read.
#[derive(Clone, Copy, Debug, PartialEq, Eq, Error)]
pub enum ReplyFault {
    /// The bytes are not UTF-8, no JSON text (RFC 8259) nested at most 127 deep, or no object.
    #[error("not-json")]
    NotJson,
    /// A field that must be there is absent or null.
    #[error("missing {0}")]
    Missing(Field),
    /// A field is there, and its value is none of those that it may have.
    #[error("bad-field {0}")]
    BadField(Field),
    /// The reply is wrapped: it has a `wrap_info` that is not null (Vault, Response wrapping).
    #[error("wrapped")]
    Wrapped,
    /// Memory ran out.
    #[error("out-of-memory")]
    OutOfMemory,
}

impl From<AllocError> for ReplyFault {
    ghost use Rattle.std.specs.Prelude.{◌≡◌};
    ghost use Rattle.vault_json.specs.declared.fault.ReplyFault.TheVariants.{OutOfMemory};

    ghost from_gives = { λ _ e. e ≡ OutOfMemory };

    fn from(_e: AllocError) -> ReplyFault {
        ReplyFault::OutOfMemory
    }
}

impl<T: Drop> From<AllocFailed<T>> for ReplyFault {
    ghost use Rattle.std.specs.Prelude.{◌≡◌};
    ghost use Rattle.vault_json.specs.declared.fault.ReplyFault.TheVariants.{OutOfMemory};

    ghost from_gives = { λ _ e. e ≡ OutOfMemory };

    fn from(_e: AllocFailed<T>) -> ReplyFault {
        ReplyFault::OutOfMemory
    }
}
