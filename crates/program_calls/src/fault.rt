ghost use Rattle.std.specs.Prelude.{◌≡◌, option_map};
ghost use Rattle.base_device.specs.Whole.{input_fault};
ghost use Rattle.program_calls.specs.Hearing.{fault_of_read, fault_of_write};
ghost use Rattle.program_calls.specs.Showing.{fault_words};
ghost use Rattle.program_calls.specs.declared.fault.CallFault.TheVariants.{Memory};

use base_device::{InputFault, MoreFault, SinkFault};
use std::alloc::AllocError;

/// Why a call that has a connection has no answer.
#[derive(Clone, Copy, Debug, PartialEq, Eq)]
pub enum CallFault {
    /// The agent did not take the whole request.
    NotSent,
    /// It closed the connection without an answer, or a read failed or took too long.
    NoAnswer,
    /// The answer has more than [`ANSWER_MAX`](crate::ANSWER_MAX) bytes, or 4,096 reads did not come to its end.
    LongAnswer,
    /// What came is no answer, or ends within a line.
    CutAnswer,
    /// Memory was refused.
    Memory,
}

impl CallFault {
    /// What is said of it; `None` is lack of memory.
    #[tactic(auto, unfolding(crate::specs::Showing::fault_words))]
    pub(crate) fn words(self) -> Option<&'static str>
        ensures { option_map (λ words. words.now) result ≡ fault_words self }
    {
        match self {
            CallFault::NotSent => Some("the agent did not take the request"),
            CallFault::NoAnswer => Some("no answer"),
            CallFault::LongAnswer => {
                Some("the answer is too long: over 4194304 bytes, or 4096 reads")
            }
            CallFault::CutAnswer => Some("the answer is cut short"),
            CallFault::Memory => None,
        }
    }
}

impl From<AllocError> for CallFault {
    ghost from_gives = { λ _ fault. fault ≡ Memory };

    fn from(_e: AllocError) -> CallFault {
        CallFault::Memory
    }
}

impl From<SinkFault> for CallFault {
    ghost from_gives = { λ why fault. fault ≡ fault_of_write why };

    fn from(fault: SinkFault) -> CallFault {
        match fault {
            SinkFault::Failed => CallFault::NotSent,
            SinkFault::OutOfMemory => CallFault::Memory,
        }
    }
}

impl From<InputFault> for CallFault {
    ghost from_gives = { λ why fault. fault ≡ fault_of_read why };

    fn from(fault: InputFault) -> CallFault {
        match fault {
            InputFault::ReadFailed => CallFault::NoAnswer,
            InputFault::TooLong => CallFault::LongAnswer,
            InputFault::OutOfMemory => CallFault::Memory,
        }
    }
}

impl From<MoreFault> for CallFault {
    ghost from_gives = { λ why fault. fault ≡ fault_of_read (input_fault why) };

    fn from(fault: MoreFault) -> CallFault {
        InputFault::from(fault).into()
    }
}
