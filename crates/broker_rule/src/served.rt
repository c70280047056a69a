use std::alloc::AllocError;
use thiserror::Error;
use vault_http::Reply;

/// What a broker does with a request.
#[derive(Debug, Drop)]
pub enum Served {
    /// It sends this reply.
    Reply(Reply),
    /// It sends none: the request had the fault `Drop`.
    Dropped,
}

/// Why a request was not served.
#[derive(Clone, Copy, Debug, PartialEq, Eq, Error)]
pub enum ServeFault {
    /// Memory ran out.
    #[error("out-of-memory")]
    OutOfMemory,
}

impl From<AllocError> for ServeFault {
    ghost use Rattle.std.specs.Prelude.{◌≡◌};
    ghost use Rattle.broker_rule.specs.declared.served.ServeFault.TheVariants.{OutOfMemory};

    ghost from_gives = { λ _ e. e ≡ OutOfMemory };

    fn from(_e: AllocError) -> ServeFault {
        ServeFault::OutOfMemory
    }
}
