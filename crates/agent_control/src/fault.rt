ghost use Rattle.std.specs.Prelude.{◌≡◌};
ghost use Rattle.agent_control.specs.Replies.{request_fault_text};
ghost use Rattle.agent_control.specs.declared.fault.RequestFault.TheVariants as faults;

use std::alloc::{AllocError, AllocFailed};
use std::fmt;

/// Why a request was not read, or not written. The first that applies, in this order, is the answer; none of them holds a
/// credential.
#[derive(Clone, Copy, PartialEq, Eq, Debug)]
pub enum RequestFault {
    /// The line is longer than [`LINE_MAX`](crate::LINE_MAX) bytes.
    TooLong,
    /// It is not JSON (RFC 8259, in UTF-8, nested at most 127 deep) of an array of texts, one at least.
    NotWords,
    /// No command has that first word and so many words.
    NoCommand,
    /// The name is none: 1 to 64 ASCII letters, digits, `-`, `_`, `.` or `/`.
    BadName,
    /// The word says no moment, no date and no time from now, and is not `always`.
    BadWhen,
    /// The credential is none: 1 to 256 printable ASCII characters without a space.
    BadCredential,
    /// Memory ran out.
    OutOfMemory,
}

impl RequestFault {
    /// The reason in words, for the one who asked.
    #[tactic(auto, unfolding(crate::specs::Replies::request_fault_text))]
    pub fn why(self) -> &'static str
        ensures { result.now ≡ request_fault_text self }
    {
        match self {
            RequestFault::TooLong => "a request is one line of at most 65536 bytes",
            RequestFault::NotWords => "send one line of JSON: an array of words",
            RequestFault::NoCommand => {
                "the commands are: need NAME WHEN, replace NAME, add, drop NAME, status, health, settle, reload, follow [alerts]"
            }
            RequestFault::BadName => "NAME is 1 to 64 ASCII letters, digits, -, _, . or /",
            RequestFault::BadWhen => {
                "WHEN is a moment (1764000000), a date (\"2026-11-22T09:00:00Z\") or +90s, +30m, +6h, +2d, or always"
            }
            RequestFault::BadCredential => {
                "a secret or lease id is 1 to 256 printable ASCII characters without a space"
            }
            RequestFault::OutOfMemory => "out of memory",
        }
    }
}

impl fmt::Display for RequestFault {
    fn fmt<W: fmt::Write>(&self, f: &mut fmt::Formatter<W>) -> fmt::Result {
        f.write_str(self.why())
    }
}

impl From<AllocError> for RequestFault {
    ghost from_gives = { λ _ e. e ≡ faults.OutOfMemory };

    fn from(_e: AllocError) -> RequestFault {
        RequestFault::OutOfMemory
    }
}

impl<T: Drop> From<AllocFailed<T>> for RequestFault {
    ghost from_gives = { λ _ e. e ≡ faults.OutOfMemory };

    fn from(_e: AllocFailed<T>) -> RequestFault {
        RequestFault::OutOfMemory
    }
}
