ghost use Rattle.std.specs.Prelude.{◌≡◌};
ghost use Rattle.vault_lanes.specs.Losses.{loss_of, lost_by};

use crate::reason::ConnectReason;
use thiserror::Error;
use vault_http::HttpFault;

/// Why a request has no answer. The words are those of the line `lost`.
#[derive(Clone, Copy, Debug, PartialEq, Eq, Error)]
pub enum Loss {
    /// There was no connection, for this reason; or it failed so before a byte of the request was taken.
    #[error("connect: {0}")]
    Connect(ConnectReason),
    /// It took longer than it may, at whichever stage.
    #[error("timeout")]
    Timeout,
    /// The connection failed, or was closed before the reply was whole.
    #[error("closed")]
    Closed,
    /// What came is no reply that can be read, or says nothing of what was asked.
    #[error("reply")]
    Reply,
    /// The reply has this status, which is no answer.
    #[error("{0}")]
    Status(u16),
}

/// The loss that a fault of the bytes is: an input that ended too soon was closed, and all others cannot be read.
pub fn loss_of(fault: HttpFault) -> Loss
    ensures { result ≡ loss_of fault }
{
    match fault {
        HttpFault::Truncated | HttpFault::ReadFailed => Loss::Closed,
        HttpFault::BadHead
        | HttpFault::BadLength
        | HttpFault::BadChunk
        | HttpFault::TooLong
        | HttpFault::TwoLengths
        | HttpFault::OutOfMemory => Loss::Reply,
    }
}

/// Why a reply with that status counts as none, where it does: by the status, or where that is 200 by its body.
pub(crate) fn lost_by(status: u16) -> Loss
    ensures { result ≡ lost_by status }
{
    match status {
        200 => Loss::Reply,
        _ => Loss::Status(status),
    }
}
