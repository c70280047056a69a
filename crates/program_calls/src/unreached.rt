ghost use Rattle.std.specs.Prelude.{◌≡◌, option_map};
ghost use Rattle.program_calls.specs.Lines.{TellsOf};
ghost use Rattle.program_calls.specs.Reaching.{unreached_of, unreached_words};

use crate::call::AgentCall;
use crate::ended::Ended;
use crate::telling::tell_of_socket;
use base_device::{Sink, Watched};
use std::io::ErrorKind;

/// Why there is no connection.
#[derive(Clone, Copy, Debug, PartialEq, Eq)]
pub enum Unreached {
    /// There is no socket of that path.
    NotThere,
    /// Nobody listens at it.
    NotServed,
    /// This user may not connect.
    NotAllowed,
    /// It took too long.
    Late,
    /// Any other reason.
    Failed,
    /// Memory was refused.
    Memory,
}

impl Unreached {
    /// Why a connect failed, by the system's error.
    pub fn of(kind: ErrorKind) -> Unreached
        ensures { result ≡ unreached_of kind }
    {
        match kind {
            ErrorKind::NotFound | ErrorKind::NotADirectory => Unreached::NotThere,
            ErrorKind::ConnectionRefused => Unreached::NotServed,
            ErrorKind::PermissionDenied => Unreached::NotAllowed,
            ErrorKind::WouldBlock | ErrorKind::TimedOut => Unreached::Late,
            ErrorKind::OutOfMemory => Unreached::Memory,
            _ => Unreached::Failed,
        }
    }

    // What is said of it; `None` is lack of memory.
    #[tactic(auto, unfolding(crate::specs::Reaching::unreached_words))]
    fn words(self) -> Option<&'static str>
        ensures { option_map (λ words. words.now) result ≡ unreached_words self }
    {
        match self {
            Unreached::NotThere => Some(
                "No such file or directory; no agent serves there (`serve` takes commands only with --control; \
                 --control SOCKET names another place)",
            ),
            Unreached::NotServed => Some(
                "Connection refused; no agent serves there (--control SOCKET names another place)",
            ),
            Unreached::NotAllowed => {
                Some("Permission denied; the socket is for its user and its group")
            }
            Unreached::Late => Some("no answer"),
            Unreached::Failed => Some("it cannot be reached"),
            Unreached::Memory => None,
        }
    }
}

/// Tells that nobody was reached, and why.
pub fn tell_unreached<E: Sink>(call: &AgentCall<'_>, why: Unreached, errors: &mut E) -> Ended
    ensures { TellsOf call.now (unreached_words why) result (⟦<E as Watched>⟧.change errors.old errors.new) }
{
    tell_of_socket(call, why.words(), errors)
}
