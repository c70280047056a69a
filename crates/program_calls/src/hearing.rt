ghost use Rattle.std.specs.Prelude.{◌≡◌, ◌⊎◌, IfOk, MatchResult, Ok, Err, Some};
ghost use Rattle.agent_control.specs.Replies.{reply_in_text};
ghost use Rattle.program_calls.specs.Hearing.{HearsReply, IsSentOrGivenUp, ListensToEnd, heard_of};
ghost use Rattle.program_calls.specs.declared.fault.CallFault.TheVariants.{Memory};

use crate::fault::CallFault;
use crate::limits::ANSWER_MAX;
use agent_control::{ControlReply, read_reply};
use base_device::{Sink, SinkFault, Source, Watched, read_all, write_all};
use base_moment::Text;
use std::alloc::Global;

/// What an agent answered: the bytes that came, and the reply that they are.
#[derive(Drop)]
pub(crate) struct Heard {
    pub(crate) text: Text,
    pub(crate) reply: ControlReply,
}

/// Sends a request, once, and reads the answer to its end.
pub(crate) fn hear<L: Source + Sink>(
    alloc: Global,
    request: &[u8],
    line: &mut L,
) -> Result<Heard, CallFault>
    ensures heard { MatchResult result
        (λ h. HearsReply request.now (Ok h.reply) (⟦<L as Watched>⟧.change line.old line.new))
        (λ fault. HearsReply request.now (Err fault) (⟦<L as Watched>⟧.change line.old line.new)) }
    ensures text { IfOk result (λ h. reply_in_text h.text ≡ Some h.reply) }
{
    give(request, line)?;
    listen(alloc, line)
}

/// Sends it.
pub(crate) fn give<L: Source + Sink>(request: &[u8], line: &mut L) -> Result<(), SinkFault>
    ensures { IsSentOrGivenUp result request.now (⟦<L as Watched>⟧.change line.old line.new) }
{
    write_all(line, request)?;
    line.flush()
}

// Reads the answer.
fn listen<L: Source + Sink>(alloc: Global, line: &mut L) -> Result<Heard, CallFault>
    ensures heard { MatchResult result
        (λ h. ListensToEnd (Ok h.reply) (⟦<L as Watched>⟧.change line.old line.new))
        (λ fault. ListensToEnd (Err fault) (⟦<L as Watched>⟧.change line.old line.new)) }
    ensures text { IfOk result (λ h. reply_in_text h.text ≡ Some h.reply) }
    ensures output { (L.seen line.new).output ≡ (L.seen line.old).output }
{
    let text = read_all(alloc, line, ANSWER_MAX)?;
    reply_in(alloc, text)
}

/// The reply that the bytes are which came.
pub(crate) fn reply_in(alloc: Global, text: Text) -> Result<Heard, CallFault>
    ensures heard { MatchResult result
        (λ h. heard_of text ≡ Ok h.reply)
        (λ fault. (heard_of text ≡ Err fault) ⊎ (fault ≡ Memory)) }
    ensures text { IfOk result (λ h. reply_in_text h.text ≡ Some h.reply) }
{
    if text.list().is_empty() {
        return Err(CallFault::NoAnswer);
    }
    match read_reply(alloc, text.list())? {
        Some(reply) => Ok(Heard { text, reply }),
        None => Err(CallFault::CutAnswer),
    }
}
