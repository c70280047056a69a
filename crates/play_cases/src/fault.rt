use base_device::InputFault;
use std::alloc::{AllocError, AllocFailed};
use std::{fmt, io};

/// Why a case is not played.
#[derive(Clone, Copy)]
pub enum CaseFault {
    /// The line with that number cannot be read.
    Line(usize),
    /// The step of that line does not come about.
    Step(usize),
    Streams,
    Memory,
}

impl fmt::Display for CaseFault {
    fn fmt<W: fmt::Write>(&self, f: &mut fmt::Formatter<W>) -> fmt::Result {
        match self {
            CaseFault::Line(line) => write!(f, "line {line} of the case cannot be read"),
            CaseFault::Step(line) => write!(
                f,
                "the step of line {line} does not come about: the play cannot begin or go on with it"
            ),
            CaseFault::Streams => write!(f, "standard streams"),
            CaseFault::Memory => write!(f, "out of memory"),
        }
    }
}

impl CaseFault {
    /// The exit status.
    pub fn code(self) -> u8 {
        match self {
            CaseFault::Line(_) | CaseFault::Step(_) => 2,
            CaseFault::Streams | CaseFault::Memory => 1,
        }
    }
}

impl From<InputFault> for CaseFault {
    fn from(fault: InputFault) -> CaseFault {
        match fault {
            InputFault::OutOfMemory => CaseFault::Memory,
            InputFault::ReadFailed | InputFault::TooLong => CaseFault::Streams,
        }
    }
}

impl From<io::Error> for CaseFault {
    fn from(_error: io::Error) -> CaseFault {
        CaseFault::Streams
    }
}

impl From<AllocError> for CaseFault {
    fn from(_error: AllocError) -> CaseFault {
        CaseFault::Memory
    }
}

impl<T: Drop> From<AllocFailed<T>> for CaseFault {
    fn from(_error: AllocFailed<T>) -> CaseFault {
        CaseFault::Memory
    }
}
