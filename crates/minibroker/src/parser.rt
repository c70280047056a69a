use base_version::VERSION;
use clap::error::ErrorKind;
use clap::{Arg, ArgAction, ArgMatches, Command, Error};
use std::alloc::{AllocError, Global};

const ABOUT: &str =
    "Serves the tokens and leases of an inventory as Vault would, on 127.0.0.1 or a UNIX socket.";

const AFTER: &str = "\
The inventory is a TOML document. docs/inventory.md describes its keys and what each fault means.
It serves COUNT connections one after another, each with one request, and ends. With port 0 the system chooses a port, and a
line `listening 127.0.0.1:PORT` on standard error names it. The file of a UNIX socket is made at the start and removed after the
last connection.

With `-` for MOMENT each connection is served at a moment of its own: after each accept one line is read from standard input, a
whole number of seconds in decimal digits. Any other line, or none, ends the broker.

A client that sends nothing, or takes nothing, for SECONDS is closed and counts as served, and the next one is taken. One that
sends a byte at a time can hold the broker for 4096 times as long.

Examples:
  minibroker web.toml 8200 3 1000
  date +%s | minibroker web.toml ./broker.socket 1 - --timeout 2

Exit status: 0 done, 1 inventory, 2 command line, 6 read or write, 7 memory";

/// The command line's words, read.
pub fn parse<'a>(alloc: Global, words: &'a [String]) -> Result<ArgMatches<'a>, Error> {
    minibroker(alloc)?.try_get_matches_from(words)
}

/// The mistake of a value that the parser takes as a word.
pub fn mistake(alloc: Global, message: &str) -> Result<Error, AllocError> {
    minibroker(alloc)?.error(ErrorKind::ValueValidation, message)
}

/// `minibroker FILE PORT COUNT MOMENT [--timeout SECONDS]`
fn minibroker<'a>(alloc: Global) -> Result<Command<'a>, AllocError> {
    let args = vec![in alloc;
        word(
            alloc,
            "FILE",
            "The inventory, at most 1 MiB; read first. `leasekeep lint FILE` shows what is wrong with it, with line and fix",
        ),
        word(
            alloc,
            "PORT",
            "The port of 127.0.0.1 to listen on, 0 for any; or the path of a UNIX socket, with a `/` in it",
        ),
        count(alloc),
        word(
            alloc,
            "MOMENT",
            "The moment of all requests, in whole seconds since 1970-01-01T00:00:00Z; $(date +%s) is now. Or `-`, a line for each",
        ),
        timeout(alloc),
    ]?;
    Command::new(alloc, "minibroker")
        .version(VERSION)
        .about(ABOUT)
        .after_help(AFTER)
        .args(args)
}

fn count<'a>(alloc: Global) -> Arg<'a> {
    Arg::new(alloc, "COUNT")
        .help("How many connections to serve, at most 1000000")
        .required(true)
        .value_parser(clap::value_parser!(u64).range(0..=1_000_000))
}

fn timeout<'a>(alloc: Global) -> Arg<'a> {
    Arg::new(alloc, "timeout")
        .long("timeout")
        .value_name("SECONDS")
        .help("How long one read or write of a connection may take, 1 to 60 seconds [default: 5]")
        .value_parser(clap::value_parser!(u64).range(1..=60))
}

fn word<'a>(alloc: Global, name: &'a str, help: &'a str) -> Arg<'a> {
    Arg::new(alloc, name)
        .help(help)
        .required(true)
        .action(ArgAction::Set)
}
