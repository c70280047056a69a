//! What lines mean to a program.
ghost use Rattle.std.specs.Prelude.{◌≡◌, OnOk};
ghost use Rattle.base_device.specs.Seen.{Seen};
ghost use Rattle.program_lines.specs.Hearing.{EndsBetweenLines, Hearing, HearsLine, StopsAfter};

use base_device::{Sink, Watched};
use program_report::Stop;
use std::alloc::Global;

/// What hears lines, and speaks to neighbours of this type meanwhile.
pub trait Hearer<N> {
    /// What stays as it is over all lines.
    ghost Key: { Type 0 };

    /// What a line may change.
    ghost State: { Type 0 };

    ghost key: { Self → N → Key };

    ghost state: { Self → N → State };

    /// What lines mean.
    ghost hearing: { Key → Hearing State };

    /// Whether a line can be heard, and its lines written to an output that has been seen to be so.
    ghost is_ready: { Self → N → Seen → Type 0 };

    /// Hears one line, which is without its line feed and has this number: writes and flushes the lines that answer it.
    ///
    /// `Line`: it is none, and nothing was done. Any other error is the hearer's.
    fn hear<W: Sink>(
        &mut self,
        alloc: Global,
        neighbours: &mut N,
        line: &[u8],
        number: u64,
        out: &mut W,
    ) -> Result<(), Stop>
        requires ready { is_ready self.old neighbours.old (W.seen out.old) }
        ensures hears { HearsLine State (hearing (key self.old neighbours.old)) number (state self.old neighbours.old) line.now result (state self.new neighbours.new) (⟦<W as Watched>⟧.change out.old out.new) }
        ensures ready { EndsBetweenLines result → is_ready self.new neighbours.new (W.seen out.new) }
        ensures same { OnOk result (key self.new neighbours.new ≡ key self.old neighbours.old) };

    /// A stop at a line is one after what was written before it, too.
    ghost stops_after: { (k : Key) → StopsAfter State (hearing k) };
}
