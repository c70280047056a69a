ghost use Rattle.std.specs.Prelude.{◌≡◌};
ghost use Rattle.vault_lanes.specs.Reasons.{reason_of};

use std::io::ErrorKind;
use thiserror::Error;

/// Why there is no connection. The words are those of the line `lost`.
#[derive(Clone, Copy, Debug, PartialEq, Eq, Error)]
pub enum ConnectReason {
    /// Nothing is at the socket's path.
    #[error("no such file")]
    NoSuchFile,
    /// The user of this process may not connect.
    #[error("permission denied")]
    Denied,
    /// Nobody listens there.
    #[error("connection refused")]
    Refused,
    /// The system has no way to there.
    #[error("unreachable")]
    Unreachable,
    /// The system has given it up.
    #[error("timed out")]
    TimedOut,
    /// Anything else, as that too many files are open.
    #[error("the connection failed")]
    Other,
}

impl ConnectReason {
    /// Why a connection failed, by the system's error.
    pub(crate) fn of(kind: ErrorKind) -> ConnectReason
        ensures { result ≡ reason_of kind }
    {
        match kind {
            ErrorKind::NotFound | ErrorKind::NotADirectory => ConnectReason::NoSuchFile,
            ErrorKind::PermissionDenied => ConnectReason::Denied,
            ErrorKind::ConnectionRefused => ConnectReason::Refused,
            ErrorKind::AddrNotAvailable
            | ErrorKind::HostUnreachable
            | ErrorKind::NetworkDown
            | ErrorKind::NetworkUnreachable => ConnectReason::Unreachable,
            ErrorKind::TimedOut => ConnectReason::TimedOut,
            _ => ConnectReason::Other,
        }
    }
}
