ghost use Rattle.std.specs.Prelude.{◌≡◌};
ghost use Rattle.vault_exchange.specs.Exchanges.{exchange_fault, sending_fault};
ghost use Rattle.vault_exchange.specs.declared.fault.ExchangeFault.TheVariants.{OutOfMemory};

use broker_rule::ServeFault;
use std::alloc::{AllocError, AllocFailed};
use thiserror::Error;
use vault_http::{HttpFault, SendFault};

/// Why a request has no reply.
#[derive(Clone, Copy, Debug, PartialEq, Eq, Error)]
pub enum ExchangeFault {
    /// There is no connection: nobody listens, or it took too long.
    #[error("no connection")]
    ConnectFailed,
    /// A write failed, or took too long; whether the request arrived is not known.
    #[error("a write failed")]
    WriteFailed,
    /// No reply could be read.
    #[error("{0}")]
    Http(HttpFault),
    /// A growth was refused.
    #[error("out of memory")]
    OutOfMemory,
}

impl From<AllocError> for ExchangeFault {
    ghost from_gives = { λ _ e. e ≡ OutOfMemory };

    fn from(_e: AllocError) -> ExchangeFault {
        ExchangeFault::OutOfMemory
    }
}

impl<T: Drop> From<AllocFailed<T>> for ExchangeFault {
    ghost from_gives = { λ _ e. e ≡ OutOfMemory };

    fn from(_e: AllocFailed<T>) -> ExchangeFault {
        ExchangeFault::OutOfMemory
    }
}

impl From<ServeFault> for ExchangeFault {
    ghost from_gives = { λ _ e. e ≡ OutOfMemory };

    fn from(_fault: ServeFault) -> ExchangeFault {
        ExchangeFault::OutOfMemory
    }
}

impl From<SendFault> for ExchangeFault {
    ghost from_gives = { λ f e. e ≡ sending_fault f };

    fn from(fault: SendFault) -> ExchangeFault {
        match fault {
            SendFault::WriteFailed => ExchangeFault::WriteFailed,
            SendFault::OutOfMemory => ExchangeFault::OutOfMemory,
        }
    }
}

impl From<HttpFault> for ExchangeFault {
    ghost from_gives = { λ f e. e ≡ exchange_fault f };

    fn from(fault: HttpFault) -> ExchangeFault {
        match fault {
            HttpFault::OutOfMemory => ExchangeFault::OutOfMemory,
            fault => ExchangeFault::Http(fault),
        }
    }
}
