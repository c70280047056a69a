ghost use Rattle.program_report.specs.Told.{Reports};

use crate::putting::put;
use base_device::{Sink, Watched};

/// Writes a line for faults and flushes. A write that fails is passed over: there is nowhere left to tell of it.
pub fn tell<E: Sink>(errors: &mut E, line: &[u8])
    ensures { Reports line.now (⟦<E as Watched>⟧.change errors.old errors.new) }
{
    let _ = put(errors, line);
    let _ = errors.flush();
}
