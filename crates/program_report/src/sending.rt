ghost use Rattle.std.specs.Prelude.{◌≡◌, OnOk};
ghost use Rattle.program_report.specs.Sent.{SendsText};

use crate::stop::Stop;
use base_device::{Sink, Watched, write_all};

/// Writes a whole text and flushes. `Write`, where the writer failed, and `Memory`, which one in memory alone answers, say
/// that a front of the text went out, or all of it without the flush.
pub fn send<W: Sink>(out: &mut W, text: &[u8]) -> Result<(), Stop>
    ensures sent { SendsText result text.now (⟦<W as Watched>⟧.change out.old out.new) }
    ensures count { OnOk result ((W.seen out.new).failed_calls ≡ (W.seen out.old).failed_calls) }
{
    write_all(out, text)?;
    out.flush()?;
    Ok(())
}
