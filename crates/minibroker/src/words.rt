use crate::parser::{mistake, parse};
use base_device::{Counted, Place, Sink};
use base_moment::Moment;
use broker_table::Moments;
use clap::ArgMatches;
use program_report::{Exit, Stop};
use program_words::{number_or, place_to_listen, show};
use std::io;

/// The program's name, in front of its fault lines.
pub const PROGRAM: &str = "minibroker";

/// How long one read or write of a connection may take unless the command line says, in seconds.
const PATIENCE: u64 = 5;

// What a value that is not there, or not of its kind, is told.
const FILE_MISTAKE: &str = "FILE is missing";

const PORT_MISTAKE: &str = "PORT is neither in 0..=65535 nor a path with a `/`";

const COUNT_MISTAKE: &str = "COUNT is not in 0..=1000000";

const MOMENT_MISTAKE: &str = "MOMENT is neither in 0..=253402300799 nor `-`; $(date +%s) is now";

const SECONDS_MISTAKE: &str = "SECONDS is not in 1..=60";

/// What the command line asks, with all its values.
#[derive(Drop)]
pub struct BrokerWords<'a> {
    pub file: &'a str,
    /// Where it listens; port 0 stands for any.
    pub place: Place<'a>,
    /// How many connections are served.
    pub count: u32,
    pub moments: Moments,
    /// How long one read or write of a connection may take, in seconds.
    pub patience: u64,
}

/// What the words of the command line ask; or the exit, once it was told or shown why they ask nothing.
pub fn read_command<'a, R: AllocGlobal + Print, E: Sink>(
    rt: &R,
    words: &'a [String],
    errors: &mut E,
) -> Result<BrokerWords<'a>, Exit> {
    let alloc = rt.alloc();
    let mut out = Counted::new(io::writer(rt));
    let matches = match parse(alloc, words) {
        Ok(matches) => matches,
        Err(error) => return Err(show(alloc, PROGRAM, &error, &mut out, errors)),
    };
    match command_of(&matches) {
        Ok(command) => Ok(command),
        Err(text) => match mistake(alloc, text) {
            Ok(error) => Err(show(alloc, PROGRAM, &error, &mut out, errors)),
            Err(_) => Err(Stop::Memory.report(PROGRAM, errors)),
        },
    }
}

/// The command, with all its values; or the mistake of the first that is none. After this nothing asks for a value by its name.
fn command_of<'a>(matches: &ArgMatches<'a>) -> Result<BrokerWords<'a>, &'static str> {
    let file = matches.get_str("FILE").ok_or(FILE_MISTAKE)?;
    let place = matches.get_str("PORT").ok_or(PORT_MISTAKE)?;
    let moments = matches.get_str("MOMENT").ok_or(MOMENT_MISTAKE)?;
    Ok(BrokerWords {
        file,
        place: place_to_listen(place).ok_or(PORT_MISTAKE)?,
        count: count_of(matches).ok_or(COUNT_MISTAKE)?,
        moments: moments_of(moments).ok_or(MOMENT_MISTAKE)?,
        patience: number_or(matches, "timeout", PATIENCE).ok_or(SECONDS_MISTAKE)?,
    })
}

fn count_of(matches: &ArgMatches<'_>) -> Option<u32> {
    u32::try_from(matches.get_one::<u64>("COUNT")?).ok()
}

fn moments_of(word: &str) -> Option<Moments> {
    if word == "-" {
        return Some(Moments::Lines);
    }
    Some(Moments::All(Moment::new(word.parse::<u64>().ok()?)?))
}
