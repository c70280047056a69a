ghost use Rattle.std.specs.Prelude.{◌≡◌, ℕ, List, Ok, Some};
ghost use Rattle.agent_control.specs.Replies.{lines_text, reply_in_text};
ghost use Rattle.agent_control.specs.declared.reply.ControlReply.TheVariants as replies;
ghost use Rattle.program_calls.specs.Showing.{PrintsLines, ShowsAnswer, ended_by, names_no_entry, shown_text};

use crate::ask::CallWords;
use crate::call::AgentCall;
use crate::ended::Ended;
use crate::hearing::Heard;
use crate::telling::tell_of_refusal;
use agent_control::{ControlReply, replies_are_read_back};
use base_device::{Sink, Watched};
use program_report::{Stop, send};

const KEPT: &[u8] = b"every needed entry is kept\n";
/// The same of an agent whose state folder cannot be used.
const KEPT_UNTIL_RESTART: &[u8] =
    b"every needed entry is kept\nchanges hold until a restart only: the state folder cannot be used\n";

/// Shows what was answered.
pub(crate) fn show<W: Sink, E: Sink>(
    call: &AgentCall<'_>,
    heard: &Heard,
    out: &mut W,
    errors: &mut E,
) -> Ended
    requires { reply_in_text heard.now.text ≡ Some heard.now.reply }
    ensures { ShowsAnswer call.now (Ok heard.now.reply) result (⟦<W as Watched>⟧.change out.old out.new) (⟦<E as Watched>⟧.change errors.old errors.new) }
{
    match &heard.reply {
        ControlReply::Done(_) => print(call, lines_of(heard), out, errors),
        ControlReply::Refused(why, more) => {
            tell_of_refusal(errors, call, why.list(), more.list());
            Ended::Refused
        }
    }
}

// The lines after `ok`.
fn lines_of(heard: &Heard) -> &[u8]
    requires { reply_in_text heard.now.text ≡ Some heard.now.reply }
    ensures { (lines : List (List ℕ)) → heard.now.reply ≡ replies.Done lines → result.now ≡ lines_text lines }
{
    replies_are_read_back();
    let text = heard.text.list();
    &text[text.len().min(3)..]
}

// Prints the lines of an answer and flushes, or tells why only a front of them went out.
fn print<W: Sink, E: Sink>(call: &AgentCall<'_>, lines: &[u8], out: &mut W, errors: &mut E) -> Ended
    ensures { PrintsLines call.now lines.now result (⟦<W as Watched>⟧.change out.old out.new) (⟦<E as Watched>⟧.change errors.old errors.new) }
{
    match send(out, shown_text(&call.ask, lines)) {
        Ok(()) => ended_by(&call.ask, lines),
        Err(stop) => {
            let _exit = stop.report(call.program, errors);
            Ended::of(&stop)
        }
    }
}

// What is shown of these lines.
fn shown_text<'t>(ask: &CallWords<'_>, lines: &'t [u8]) -> &'t [u8]
    ensures { result.now ≡ shown_text ask.now lines.now }
{
    if ask.is_health() && lines.is_empty() {
        KEPT
    } else {
        lines
    }
}

// How a call ended whose answer has these lines.
fn ended_by(ask: &CallWords<'_>, lines: &[u8]) -> Ended
    ensures { result ≡ ended_by ask.now lines.now }
{
    if ask.is_health() && !is_kept(lines) {
        Ended::Refused
    } else {
        Ended::Done
    }
}

// Whether the lines of a health name no entry that is needed and not kept.
#[tactic(auto, unfolding(crate::specs::Showing::names_no_entry))]
fn is_kept(lines: &[u8]) -> bool
    ensures { result ≡ names_no_entry lines.now }
{
    lines.is_empty() || lines == KEPT || lines == KEPT_UNTIL_RESTART
}
