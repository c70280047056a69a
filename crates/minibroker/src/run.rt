use crate::serving::tell_served;
use crate::sockets::{serve_path, serve_port};
use crate::words::{BrokerWords, PROGRAM, read_command};
use base_device::{Counted, Place, Sink, Source};
use base_files::Inputs;
use broker_table::Table;
use program_report::{Exit, Stop};
use program_words::{SystemFiles, words};
use std::io;
use std::io::{Read, Write};
use std::net::Net;
use std::rt::{Env, Files};
use vault_inventory::{MOST_INVENTORY, read_known};

/// Runs the program by the words of the command line, and gives the exit.
pub fn run<R: Env + Files + AllocGlobal + Print + Net, I: Read + Drop, E: Write + Drop>(
    rt: &R,
    input: I,
    errors: E,
) -> Exit {
    let mut errors = Counted::new(errors);
    let words = match words(rt, PROGRAM, &mut errors) {
        Ok(words) => words,
        Err(exit) => return exit,
    };
    let command = match read_command(rt, &words, &mut errors) {
        Ok(command) => command,
        Err(exit) => return exit,
    };
    let mut files = SystemFiles::new(rt);
    let lines = &mut Counted::new(input);
    match obey(rt, &command, &mut files, lines, &mut errors) {
        Ok(()) => Exit::Done,
        Err(stop) => {
            let exit = stop.report(PROGRAM, &mut errors);
            files.advise(PROGRAM, exit, command.file, &mut errors);
            exit
        }
    }
}

/// Serves so many connections one after the other, then says so.
fn obey<R: Files + AllocGlobal + Print + Net, I: Inputs, S: Source, E: Sink>(
    rt: &R,
    command: &BrokerWords<'_>,
    files: &mut I,
    lines: &mut S,
    errors: &mut E,
) -> Result<(), Stop> {
    let alloc = rt.alloc();
    let text = files.read(alloc, command.file, MOST_INVENTORY)?;
    let served = read_known(alloc, text.list())?;
    let mut table = Table::load(alloc, served.inventory())?;
    match command.place {
        Place::Port(port) => serve_port(rt, port, command, &mut table, lines, errors)?,
        Place::Path(path) => serve_path(rt, path, command, &mut table, lines)?,
    }
    tell_served(alloc, command.count, &mut Counted::new(io::writer(rt)))
}
