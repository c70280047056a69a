ghost use Rattle.std.specs.Prelude.{◌≡◌, OnErr, OnOk};
ghost use Rattle.std.specs.Io.KnownBytes.{Appends};
ghost use Rattle.base_device.specs.Front.{AppendsFront};
ghost use Rattle.broker_table.specs.Stream.{CountsSending, IsFlushed, MaySend, bytes_sent_of, stream_fault};
ghost use Rattle.broker_table.specs.declared.stream.StreamFault.TheVariants as streams;

use broker_rule::{ServeFault, Served};
use std::alloc::{AllocError, Global};
use thiserror::Error;
use vault_http::{SendFault, Sink, write_reply};

/// Why a request was not read, served and answered.
#[derive(Clone, Copy, Debug, PartialEq, Eq, Error)]
pub enum StreamFault {
    /// A read failed, and the device has counted it.
    #[error("a read failed")]
    ReadFailed,
    /// A write failed, and the device has counted it.
    #[error("a write failed")]
    WriteFailed,
    /// Memory ran out.
    #[error("out of memory")]
    OutOfMemory,
}

impl From<AllocError> for StreamFault {
    ghost from_gives = { λ _ e. e ≡ streams.OutOfMemory };

    fn from(_e: AllocError) -> StreamFault {
        StreamFault::OutOfMemory
    }
}

impl From<ServeFault> for StreamFault {
    ghost from_gives = { λ _ e. e ≡ streams.OutOfMemory };

    fn from(_fault: ServeFault) -> StreamFault {
        StreamFault::OutOfMemory
    }
}

impl From<SendFault> for StreamFault {
    ghost from_gives = { λ f e. e ≡ stream_fault f };

    fn from(fault: SendFault) -> StreamFault {
        match fault {
            SendFault::WriteFailed => StreamFault::WriteFailed,
            SendFault::OutOfMemory => StreamFault::OutOfMemory,
        }
    }
}

/// Sends a reply, if there is one.
pub(crate) fn send<S: Sink>(
    alloc: Global,
    stream: &mut S,
    served: &Served,
) -> Result<(), StreamFault>
    requires status { MaySend served.now }
    ensures written { OnOk result (Appends (S.seen stream.old).output.written (S.seen stream.new).output.written (bytes_sent_of served.now)) }
    ensures front { OnErr result (AppendsFront (S.seen stream.old).output.written (S.seen stream.new).output.written (bytes_sent_of served.now)) }
    ensures flushed { OnOk result (IsFlushed served.now (S.seen stream.new).output.is_flushed) }
    ensures input { (S.seen stream.new).input ≡ (S.seen stream.old).input }
    ensures count { CountsSending result (S.seen stream.old).failed_calls (S.seen stream.new).failed_calls }
{
    match served {
        Served::Reply(reply) => {
            write_reply(alloc, stream, reply)?;
            Ok(())
        }
        Served::Dropped => Ok(()),
    }
}
