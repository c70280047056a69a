ghost use Rattle.program_calls.specs.Showing.{Talks};

use crate::answering::show;
use crate::call::AgentCall;
use crate::ended::Ended;
use crate::hearing::hear;
use crate::telling::tell_of_socket;
use base_device::{Sink, Source, Watched};
use std::alloc::Global;

/// Sends the request over a connection, once, and shows the answer: its lines on `out`, or on `errors` why the agent refuses, or
/// why there is no answer. At most [`ANSWER_MAX`](crate::ANSWER_MAX) bytes are taken of it, and one byte more is asked for, in at
/// most 4,096 reads. Of `health`, an answer without lines is shown as `every needed entry is kept`.
///
/// What is shown and told is made of the words of the call and of the answer, never of the request. After `Done` and after
/// `Refused` with the agent's reason, what the answer says holds; after anything else what was asked may have been done.
pub fn talk<L: Source + Sink, W: Sink, E: Sink>(
    alloc: Global,
    call: &AgentCall<'_>,
    request: &[u8],
    line: &mut L,
    out: &mut W,
    errors: &mut E,
) -> Ended
    ensures { Talks call.now request.now result (⟦<L as Watched>⟧.change line.old line.new) (⟦<W as Watched>⟧.change out.old out.new) (⟦<E as Watched>⟧.change errors.old errors.new) }
{
    match hear(alloc, request, line) {
        Ok(heard) => show(call, &heard, out, errors),
        Err(fault) => tell_of_socket(call, fault.words(), errors),
    }
}
