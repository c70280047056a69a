//! All commands: the words of the command line are read, and what they ask is done.
use crate::calling::call;
use crate::linting::lint;
use crate::live::keep;
use crate::rehearsing::rehearse;
use crate::serve::serve;
use base_device::{Counted, Sink, Streams};
use plan_commands::{PlanCommand, obey};
use program_commands::{Job, overview, read_command};
use program_report::{Exit, PROGRAM, Stop};
use program_words::{SystemFiles, words};
use std::fs::File;
use std::io::{self, Printer, Read, Stdout, Write};
use std::net::Net;
use std::rt::{Clock, Env, Files};

/// Runs the command that the words of the command line ask, and gives the exit status.
pub fn run<R, I, E>(rt: &R, input: I, output: Stdout, errors: E) -> u8
where
    R: Env + Files<File = File> + AllocGlobal + Print + Net + Clock,
    I: Read + Drop,
    E: Write + Drop,
{
    let mut errors = Counted::new(errors);
    let words = match words(rt, PROGRAM, &mut errors) {
        Ok(words) => words,
        Err(exit) => return exit.code(),
    };
    let Ok(overview) = overview(rt.alloc()) else {
        return Stop::Memory.report(PROGRAM, &mut errors).code();
    };
    match read_command(rt, &overview, &words, &mut errors) {
        Ok(job) => do_job(rt, &job, input, output, errors),
        Err(exit) => exit.code(),
    }
}

/// Does what is asked, and gives the exit status.
fn do_job<R, I, E>(rt: &R, job: &Job<'_>, input: I, output: Stdout, errors: Counted<E>) -> u8
where
    R: Env + Files<File = File> + AllocGlobal + Print + Net + Clock,
    I: Read + Drop,
    E: Write + Drop,
{
    let mut errors = errors;
    match job {
        Job::Call(called) => call(rt, called, input, &mut errors).code(),
        Job::Live(live) => keep(rt, live, &mut streams_of(rt, input, errors)).code(),
        Job::Serve(served) => serve(rt, served, output, &mut errors).code(),
        Job::Lint(linted) => lint(rt, linted, &mut errors).code(),
        Job::Rehearse(rehearsed) => rehearse(rt, rehearsed, &mut errors).code(),
        Job::Plans(command) => do_plans(rt, command, &mut errors).code(),
    }
}

/// The streams of a command that takes lines and answers them.
fn streams_of<R: Print, I: Read, E: Write>(
    rt: &R,
    input: I,
    errors: Counted<E>,
) -> Streams<Counted<I>, Counted<Printer<'_, R>>, Counted<E>> {
    Streams {
        lines: Counted::new(input),
        out: Counted::new(io::writer(rt)),
        errors,
    }
}

/// Does what a command about plans asks.
fn do_plans<R: Files + AllocGlobal + Print, E: Sink>(
    rt: &R,
    command: &PlanCommand,
    errors: &mut E,
) -> Exit {
    let mut out = Counted::new(io::writer(rt));
    let mut files = SystemFiles::new(rt);
    let exit = obey(rt.alloc(), command, &mut files, &mut out, errors);
    files.advise(PROGRAM, exit, command.inventory(), errors);
    exit
}
