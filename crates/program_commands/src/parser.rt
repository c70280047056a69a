//! The parser of the command line, and the text of a mistake.
use crate::groups::{ABOUT, commands};
use base_version::VERSION;
use clap::error::ErrorKind;
use clap::{ArgMatches, Command, Error};
use program_report::PROGRAM;
use std::alloc::{AllocError, Global};

/// The command line's words, read. With `overview` as the program's own help.
pub fn parse<'a>(
    alloc: Global,
    overview: &'a str,
    words: &'a [String],
) -> Result<ArgMatches<'a>, Error> {
    whole(alloc)?
        .override_help(overview)
        .try_get_matches_from(words)
}

/// The mistake of a value that the parser takes as a word. Its text has the usage of this command.
pub fn mistake(alloc: Global, command: &str, message: &str) -> Result<Error, AllocError> {
    let whole_name = format!(in alloc; "{PROGRAM} {command}")?;
    let mut taken = named(alloc, command)?.bin_name(&whole_name)?;
    taken.error(ErrorKind::ValueValidation, message)
}

/// The command of this name; the program itself where there is none.
fn named<'a>(alloc: Global, name: &str) -> Result<Command<'a>, AllocError> {
    for command in commands(alloc)? {
        if is_same(command.get_name(), name) {
            return Ok(command);
        }
    }
    whole(alloc)
}

fn is_same(name: &str, other: &str) -> bool {
    name == other
}

/// All commands.
fn whole<'a>(alloc: Global) -> Result<Command<'a>, AllocError> {
    Command::new(alloc, PROGRAM)
        .version(VERSION)
        .about(ABOUT)
        .subcommand_required(true)
        .arg_required_else_help(true)
        .subcommands(commands(alloc)?)
}
