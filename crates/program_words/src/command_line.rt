//! The words of a command line, and what is said of those that ask nothing.
ghost use Rattle.std.specs.Prelude.{◌≡◌, IfOk};
ghost use Rattle.std.specs.Vec.Iter.{into_iter_items};
ghost use Rattle.clap.specs.Values.{kind_of};
ghost use Rattle.program_words.specs.Refusals.{GivesWords, SaysWhatWasFound, ShowsRefusal};

use base_device::{Sink, Watched};
use clap::Error;
use clap::error::ErrorKind;
use program_report::{Exit, Stop, send, tell};
use std::alloc::{AllocError, Global};
use std::env::Args;
use std::rt::Env;
use std::{env, io};

/// The words of the command line, the program's name first.
///
/// `CommandLine`: a word is not UTF-8. `Memory`: memory was refused. Either has its line on `errors`.
pub fn words<R: Env + AllocGlobal, E: Sink>(
    rt: &R,
    program: &str,
    errors: &mut E,
) -> Result<Vec<String>, Exit>
    ensures { GivesWords program.now result (⟦<E as Watched>⟧.change errors.old errors.new) }
{
    match collect(rt) {
        Ok(words) => Ok(words),
        Err(error) if error.kind() == io::ErrorKind::OutOfMemory => {
            Err(Stop::Memory.report(program, errors))
        }
        Err(_) => {
            tell(errors, b"error: a word of the command line is not UTF-8\n");
            Err(Exit::CommandLine)
        }
    }
}

fn collect<R: Env + AllocGlobal>(rt: &R) -> io::Result<Vec<String>> {
    Ok(all_of(rt.alloc(), env::args(rt)?)?)
}

/// All words, in their order. The only error is out of memory.
fn all_of(alloc: Global, words: Args) -> Result<Vec<String>, AllocError>
    ensures { IfOk result (λ all. all.items ≡ into_iter_items words) }
{
    words.collect(alloc)
}

/// Shows the text of a command line that asks nothing, as [`say`] does. `Memory`, with its line: memory for that text was refused.
pub fn show<W: Sink, E: Sink>(
    alloc: Global,
    program: &str,
    error: &Error,
    out: &mut W,
    errors: &mut E,
) -> Exit
    ensures { ShowsRefusal program.now (kind_of error.now) result (⟦<W as Watched>⟧.change out.old out.new) (⟦<E as Watched>⟧.change errors.old errors.new) }
{
    match format!(in alloc; "{error}") {
        Ok(text) => say(program, error.kind(), text.as_str(), out, errors),
        Err(_) => Stop::Memory.report(program, errors),
    }
}

/// Says the text of a command line that asks nothing, by what the parser found, and gives the exit: a mistake's on `errors`, which
/// is `CommandLine`; help and the version on `out`, which is `Done`, or `Device` with its line on `errors` where it could not be
/// written. `Memory`, with its line: memory was refused, and there is no text.
pub fn say<W: Sink, E: Sink>(
    program: &str,
    kind: ErrorKind,
    text: &str,
    out: &mut W,
    errors: &mut E,
) -> Exit
    ensures { SaysWhatWasFound program.now kind text.now result (⟦<W as Watched>⟧.change out.old out.new) (⟦<E as Watched>⟧.change errors.old errors.new) }
{
    match kind {
        ErrorKind::OutOfMemory => Stop::Memory.report(program, errors),
        ErrorKind::DisplayHelp | ErrorKind::DisplayVersion => match send(out, text.as_bytes()) {
            Ok(()) => Exit::Done,
            Err(stop) => stop.report(program, errors),
        },
        _ => {
            tell(errors, text.as_bytes());
            Exit::CommandLine
        }
    }
}
