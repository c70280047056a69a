ghost use Rattle.plan_commands.specs.code.Making.{Delivers};

use crate::outcome::Outcome;
use base_device::{Sink, Watched};
use program_report::{Exit, PROGRAM, Stop, send};

/// Writes a text that was made and flushes, or tells why there is none, or why only a front of it went out.
pub(crate) fn deliver<W: Sink, E: Sink>(
    made: Result<Outcome, Stop>,
    out: &mut W,
    errors: &mut E,
) -> Exit
    ensures { Delivers made result (⟦<W as Watched>⟧.change out.old out.new) (⟦<E as Watched>⟧.change errors.old errors.new) }
{
    match made {
        Err(stop) => stop.report(PROGRAM, errors),
        Ok(outcome) => match send(out, outcome.text.list()) {
            Ok(()) => outcome.exit,
            Err(stop) => stop.report(PROGRAM, errors),
        },
    }
}
