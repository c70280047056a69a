//! The line for people about a call. It takes no memory.
ghost use Rattle.std.specs.Prelude.{◌++◌, ◌∷◌, [], option_map};
ghost use Rattle.program_report.specs.Sent.{Puts};
ghost use Rattle.program_report.specs.Told.{Reports};
ghost use Rattle.program_calls.specs.Lines.{TellsOf, call_front, call_line, call_lines, socket_line, socket_rest};

use crate::call::AgentCall;
use crate::ended::Ended;
use base_device::{Sink, SinkFault, Watched};
use base_moment::Text;
use program_report::{Stop, put_before_colon, put_both};

/// Tells why a call was refused.
pub(crate) fn tell_of_call<E: Sink>(errors: &mut E, call: &AgentCall<'_>, words: &[u8])
    ensures { Reports (call_line call.now words.now) (⟦<E as Watched>⟧.change errors.old errors.new) }
{
    let _ = put_call_line(errors, call, words);
    let _ = errors.flush();
}

/// Tells why an agent refused a call, a line for each reason.
pub(crate) fn tell_of_refusal<E: Sink>(
    errors: &mut E,
    call: &AgentCall<'_>,
    why: &[u8],
    more: &[Text],
)
    ensures { Reports (call_lines call.now (why.now ∷ more.now)) (⟦<E as Watched>⟧.change errors.old errors.new) }
{
    let _ = put_reasons(errors, call, why, more);
    let _ = errors.flush();
}

/// Tells what went wrong at the socket of a call, `None` being lack of memory.
pub(crate) fn tell_of_socket<E: Sink>(
    call: &AgentCall<'_>,
    words: Option<&str>,
    errors: &mut E,
) -> Ended
    ensures { TellsOf call.now (option_map (λ w. w.now) words.entry) result (⟦<E as Watched>⟧.change errors.old errors.new) }
{
    match words {
        Some(words) => {
            tell_at_socket(errors, call, words.as_bytes());
            Ended::Refused
        }
        None => {
            let _exit = Stop::Memory.report(call.program, errors);
            Ended::Memory
        }
    }
}

fn tell_at_socket<E: Sink>(errors: &mut E, call: &AgentCall<'_>, words: &[u8])
    ensures { Reports (socket_line call.now words.now) (⟦<E as Watched>⟧.change errors.old errors.new) }
{
    let _ = put_socket_line(errors, call, words);
    let _ = errors.flush();
}

#[tactic(auto, using(program_report::proofs::Pieces::piece_cut, program_report::proofs::Pieces::piece_more))]
fn put_reasons<E: Sink>(
    errors: &mut E,
    call: &AgentCall<'_>,
    why: &[u8],
    more: &[Text],
) -> Result<(), SinkFault>
    ensures { Puts result (call_lines call.now (why.now ∷ more.now)) (⟦<E as Watched>⟧.change errors.old errors.new) }
{
    put_call_line(errors, call, why)?;
    put_call_lines(errors, call, more)
}

// A line for each of these reasons.
fn put_call_lines<E: Sink>(
    errors: &mut E,
    call: &AgentCall<'_>,
    whys: &[Text],
) -> Result<(), SinkFault>
    ensures { Puts result (call_lines call.now whys.now) (⟦<E as Watched>⟧.change errors.old errors.new) }
{
    for why in whys {
        put_reason(errors, call, why)?;
    }
    Ok(())
}

fn put_reason<E: Sink>(errors: &mut E, call: &AgentCall<'_>, why: &Text) -> Result<(), SinkFault>
    ensures { Puts result (call_line call.now why.now) (⟦<E as Watched>⟧.change errors.old errors.new) }
{
    put_call_line(errors, call, why.list())
}

#[tactic(auto, using(program_report::proofs::Pieces::piece_cut, program_report::proofs::Pieces::piece_more), unfolding(crate::specs::Lines::call_line))]
fn put_call_line<E: Sink>(
    errors: &mut E,
    call: &AgentCall<'_>,
    words: &[u8],
) -> Result<(), SinkFault>
    ensures { Puts result (call_line call.now words.now) (⟦<E as Watched>⟧.change errors.old errors.new) }
{
    put_front(errors, call)?;
    put_ended(errors, words)
}

#[tactic(auto, using(program_report::proofs::Pieces::piece_cut, program_report::proofs::Pieces::piece_more), unfolding(crate::specs::Lines::socket_line))]
fn put_socket_line<E: Sink>(
    errors: &mut E,
    call: &AgentCall<'_>,
    words: &[u8],
) -> Result<(), SinkFault>
    ensures { Puts result (socket_line call.now words.now) (⟦<E as Watched>⟧.change errors.old errors.new) }
{
    put_front(errors, call)?;
    put_of_socket(errors, call.socket.as_bytes(), words)
}

// The program and the command.
#[tactic(auto, using(program_report::proofs::Pieces::piece_cut, program_report::proofs::Pieces::piece_more), unfolding(crate::specs::Lines::call_front))]
fn put_front<E: Sink>(errors: &mut E, call: &AgentCall<'_>) -> Result<(), SinkFault>
    ensures { Puts result (call_front call.now) (⟦<E as Watched>⟧.change errors.old errors.new) }
{
    put_before_colon(errors, call.program.as_bytes())?;
    put_before_colon(errors, call.ask.command().as_bytes())
}

// The socket and what is said of it.
#[tactic(auto, using(program_report::proofs::Pieces::piece_cut, program_report::proofs::Pieces::piece_more), unfolding(crate::specs::Lines::socket_rest))]
fn put_of_socket<E: Sink>(errors: &mut E, socket: &[u8], words: &[u8]) -> Result<(), SinkFault>
    ensures { Puts result (socket_rest socket.now words.now) (⟦<E as Watched>⟧.change errors.old errors.new) }
{
    put_before_colon(errors, socket)?;
    put_ended(errors, words)
}

fn put_ended<E: Sink>(errors: &mut E, text: &[u8]) -> Result<(), SinkFault>
    ensures { Puts result (text.now ++ 10 ∷ []) (⟦<E as Watched>⟧.change errors.old errors.new) }
{
    put_both(errors, text, b"\n")
}
