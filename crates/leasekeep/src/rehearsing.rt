use base_device::{Counted, Sink};
use program_commands::Rehearsed;
use program_report::{Exit, PROGRAM};
use program_words::SystemFiles;
use std::io;
use std::rt::Files;
use tick_runs::Script;

/// Rehearses an inventory, on standard output.
pub fn rehearse<R: Files + AllocGlobal + Print, E: Sink>(
    rt: &R,
    rehearsed: &Rehearsed<'_>,
    errors: &mut E,
) -> Exit {
    let mut out = Counted::new(io::writer(rt));
    let mut files = SystemFiles::new(rt);
    let script = Script {
        start: rehearsed.start,
        faults: rehearsed.faults.as_slice(),
    };
    let exit = tick_commands::rehearse(
        rt.alloc(),
        rehearsed.file,
        &script,
        &mut files,
        &mut out,
        errors,
    );
    files.advise(PROGRAM, exit, rehearsed.file, errors);
    exit
}
