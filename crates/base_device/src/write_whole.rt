ghost use Rattle.std.specs.Prelude.{◌≡◌, OnErr, OnOk, IsErrOf, IsTrue};
ghost use Rattle.std.specs.Io.KnownBytes.{Keeps, Appends};
ghost use Rattle.base_device.specs.declared.fault.SinkFault.TheVariants.{OutOfMemory};
ghost use Rattle.base_device.specs.Failures.{Counts};
ghost use Rattle.base_device.specs.Front.{AppendsFront};

use crate::{Sink, SinkFault};

/// Writes all of `bytes`, in as many writes as the sink takes. It stops at the first write that fails, when
/// a front of them has gone out. Only a sink in memory answers `OutOfMemory`.
pub fn write_all<W: Sink>(sink: &mut W, bytes: &[u8]) -> Result<(), SinkFault>
    ensures written { OnOk result (Appends (W.seen sink.old).output.written (W.seen sink.new).output.written bytes.now) }
    ensures front { OnErr result (AppendsFront (W.seen sink.old).output.written (W.seen sink.new).output.written bytes.now) }
    ensures input { (W.seen sink.new).input ≡ (W.seen sink.old).input }
    ensures memory { IsErrOf result OutOfMemory → IsTrue W.is_in_memory }
    ensures count { Counts result (W.seen sink.old).failed_calls (W.seen sink.new).failed_calls }
{
    let mut at = 0;
    while at < bytes.len() {
        at += sink.write_some(&bytes[at..])?;
    }
    Ok(())
}
