ghost use Rattle.std.specs.Prelude.{◌≡◌};
ghost use Rattle.base_device.specs.declared.fault.SinkFault.TheVariants as sink;
ghost use Rattle.base_device.specs.declared.fault.InputFault.TheVariants as input;
ghost use Rattle.base_device.specs.Whole.{input_fault};

use crate::one_read::MoreFault;
use std::alloc::AllocError;
use thiserror::Error;

/// A call of a device failed. The device has counted it.
#[derive(Clone, Copy, Debug, PartialEq, Eq, Error)]
#[error("the device failed")]
pub struct Failed;

/// Why a sink did not take what it was given.
#[derive(Clone, Copy, Debug, PartialEq, Eq, Error)]
pub enum SinkFault {
    /// The call failed, and the device has counted it.
    #[error("the device failed")]
    Failed,
    /// A sink in memory was refused room.
    #[error("out of memory")]
    OutOfMemory,
}

/// Why an input was not read to its end.
#[derive(Clone, Copy, Debug, PartialEq, Eq, Error)]
pub enum InputFault {
    /// A read failed, and the device has counted it.
    #[error("a read failed")]
    ReadFailed,
    /// It has more bytes, or needs more reads, than are allowed.
    #[error("too long")]
    TooLong,
    /// A growth was refused.
    #[error("out of memory")]
    OutOfMemory,
}

impl From<Failed> for SinkFault {
    ghost from_gives = { λ _ e. e ≡ sink.Failed };

    fn from(_e: Failed) -> SinkFault {
        SinkFault::Failed
    }
}

impl From<AllocError> for SinkFault {
    ghost from_gives = { λ _ e. e ≡ sink.OutOfMemory };

    fn from(_e: AllocError) -> SinkFault {
        SinkFault::OutOfMemory
    }
}

impl From<MoreFault> for InputFault {
    ghost from_gives = { λ f e. e ≡ input_fault f };

    fn from(fault: MoreFault) -> InputFault {
        match fault {
            MoreFault::ReadFailed => InputFault::ReadFailed,
            MoreFault::OutOfMemory => InputFault::OutOfMemory,
        }
    }
}

impl From<AllocError> for InputFault {
    ghost from_gives = { λ _ e. e ≡ input.OutOfMemory };

    fn from(_e: AllocError) -> InputFault {
        InputFault::OutOfMemory
    }
}
