ghost use Rattle.std.specs.Prelude.{Ok};
ghost use Rattle.program_calls.specs.Requesting.{CallAsks, MakesLine, TakesInput};

use crate::ask::CallWords;
use crate::call::AgentCall;
use crate::ended::Ended;
use crate::limits::INPUT_MAX;
use crate::telling::tell_of_call;
use crate::words::line_for;
use agent_control::RequestFault;
use base_device::{InputFault, Sink, Source, Watched, read_all};
use base_moment::Text;
use program_report::Stop;
use std::alloc::Global;

/// The line that a call sends, with its line feed. `replace` and `add` first read standard input to its end: an entry's new
/// credential, without the ASCII white space around it, or a table in TOML. The other commands do not read it. Nothing of it is
/// told.
///
/// # Errors
///
/// How the call ended, once the reason was told. `Device`: a read failed, or standard input has more than [`INPUT_MAX`] bytes or
/// needs more than 4,096 reads. `Refused`: the words ask for nothing, for the first reason that an agent would give. `Memory`:
/// memory was refused.
pub fn request_for<I: Source, E: Sink>(
    alloc: Global,
    call: &AgentCall<'_>,
    input: &mut I,
    errors: &mut E,
) -> Result<Text, Ended>
    ensures { CallAsks call.now result (⟦<I as Watched>⟧.change input.old input.new) (⟦<E as Watched>⟧.change errors.old errors.new) }
{
    match taken(alloc, &call.ask, input) {
        Ok(text) => told_line(alloc, call, text.list(), errors),
        Err(fault) => {
            let stop = Stop::from(fault);
            let _exit = stop.report(call.program, errors);
            Err(Ended::of(&stop))
        }
    }
}

// What a command takes of standard input.
fn taken<I: Source>(alloc: Global, ask: &CallWords<'_>, input: &mut I) -> Result<Text, InputFault>
    ensures { TakesInput ask.now result (⟦<I as Watched>⟧.change input.old input.new) }
{
    if !ask.takes_input() {
        return Ok(Text::from_vec(Vec::new(alloc)));
    }
    read_all(alloc, input, INPUT_MAX)
}

// The line, or how the call ended, once the reason was told.
fn told_line<E: Sink>(
    alloc: Global,
    call: &AgentCall<'_>,
    input: &[u8],
    errors: &mut E,
) -> Result<Text, Ended>
    ensures { MakesLine call.now (Ok input.now) result (⟦<E as Watched>⟧.change errors.old errors.new) }
{
    match line_for(alloc, &call.ask, input) {
        Ok(line) => Ok(line),
        Err(RequestFault::OutOfMemory) => {
            let _exit = Stop::Memory.report(call.program, errors);
            Err(Ended::Memory)
        }
        Err(fault) => {
            tell_of_call(errors, call, fault.why().as_bytes());
            Err(Ended::Refused)
        }
    }
}
