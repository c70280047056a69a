//! Pieces of a line for people, written one after the other. No call here takes memory, and none flushes.
ghost use Rattle.std.specs.Prelude.{◌++◌};
ghost use Rattle.program_report.specs.FaultLine.{before_colon};
ghost use Rattle.program_report.specs.Sent.{Puts};

use base_device::{Sink, SinkFault, Watched, write_all};

/// Writes a piece of a text. An error says that the device gave up: then a prefix of the piece was written.
pub fn put<E: Sink>(errors: &mut E, piece: &[u8]) -> Result<(), SinkFault>
    ensures { Puts result piece.now (⟦<E as Watched>⟧.change errors.old errors.new) }
{
    write_all(errors, piece)
}

/// Writes two pieces, one after the other. An error is that of [`put`].
#[tactic(auto, using(crate::proofs::Pieces::piece_cut, crate::proofs::Pieces::piece_more))]
pub fn put_both<E: Sink>(errors: &mut E, first: &[u8], second: &[u8]) -> Result<(), SinkFault>
    ensures { Puts result (first.now ++ second.now) (⟦<E as Watched>⟧.change errors.old errors.new) }
{
    put(errors, first)?;
    put(errors, second)
}

/// Writes what stands before a colon, with the colon and a blank. An error is that of [`put`].
pub fn put_before_colon<E: Sink>(errors: &mut E, text: &[u8]) -> Result<(), SinkFault>
    ensures { Puts result (before_colon text.now) (⟦<E as Watched>⟧.change errors.old errors.new) }
{
    put_both(errors, text, b": ")
}
