//! What the words of the command line ask.
use crate::agent_commands::BROKER;
use crate::call_commands::called;
use crate::job::{Called, EndsRoom, Job, LintWords, Live, Rehearsed, ServeWords, Socket};
use crate::parser::{mistake, parse};
use base_clients::{Entrance, entrance_of};
use base_device::{Counted, Place, Sink};
use base_log::Form;
use base_moment::{Moment, Text};
use clap::error::ErrorKind;
use clap::{ArgMatches, Error};
use plan_commands::{MarginQuery, PlanCommand};
use program_report::{Exit, PROGRAM, Stop, tell};
use program_words::{number_or, place_to_ask, show};
use std::alloc::{AllocError, AllocFailed, Global};
use std::io;
use vault_exchange::PATIENCE;
use watch_machine::WIDTH;

const PORT_MISTAKE: &str = "\
invalid value for '<PORT|SOCKET>': a port is 1 to 65535, and the path of a UNIX socket has a `/` in it and at most 107 bytes";

const URL_MISTAKE: &str =
    "invalid value for '<PORT|SOCKET>': write the port alone, as 8200 for http://127.0.0.1:8200, or the path of a UNIX socket";

const CONTROL_MISTAKE: &str =
    "invalid value for '--control <SOCKET>': the path of a UNIX socket has a `/` in it and at most 107 bytes";

const LISTEN_MISTAKE: &str = "\
invalid value for '--listen <PLACE>': a place is PORT or ADDR:PORT, with a port from 1 to 65535 and a number as 127.0.0.1 for ADDR, \
or the path of a UNIX socket, which has a `/` in it and at most 107 bytes";

/// The bytes of a socket's path at most. Linux has room for one more, which is 0 (unix(7)).
const MOST_PATH: usize = 107;

// What a moment is, after clap's own text: a date there is a common mistake.
const MOMENT_TIP: &[u8] =
    b"\ntip: a moment is a whole number of seconds since 1970-01-01T00:00:00Z; $(date +%s) is now\n";

const UNREADABLE: &[u8] = b"error: a value of the command line is unreadable\n";

/// A value that says a place.
#[derive(Clone, Copy, Debug)]
enum PlaceWord {
    /// Where Vault is reached.
    Port,
    /// The same, written as a URL.
    Url,
    /// Where commands come in.
    Control,
    /// Where pages are served.
    Listen,
}

impl PlaceWord {
    /// What is wrong where it says none.
    fn mistake(self) -> &'static str {
        match self {
            PlaceWord::Port => PORT_MISTAKE,
            PlaceWord::Url => URL_MISTAKE,
            PlaceWord::Control => CONTROL_MISTAKE,
            PlaceWord::Listen => LISTEN_MISTAKE,
        }
    }
}

/// Why the matches of a command line give no command.
#[derive(Clone, Copy, Debug)]
enum Unread {
    /// A value is not there, or is not of its kind.
    Value,
    /// A value says no place.
    Place(PlaceWord),
    /// Memory was refused.
    Memory,
}

impl From<AllocError> for Unread {
    fn from(_e: AllocError) -> Unread {
        Unread::Memory
    }
}

impl<T: Drop> From<AllocFailed<T>> for Unread {
    fn from(_e: AllocFailed<T>) -> Unread {
        Unread::Memory
    }
}

/// What the words of the command line ask; or the exit, once it was told or shown why they ask nothing. The program's own help is
/// `overview`, as [`overview`](crate::overview) gives it.
pub fn read_command<'a, R: AllocGlobal + Print, E: Sink>(
    rt: &R,
    overview: &'a str,
    words: &'a [String],
    errors: &mut E,
) -> Result<Job<'a>, Exit> {
    let alloc = rt.alloc();
    let matches = match parse(alloc, overview, words) {
        Ok(matches) => matches,
        Err(error) => return Err(show_with_tip(rt, &error, errors)),
    };
    match job_of(alloc, &matches) {
        Ok(job) => Ok(job),
        Err(why) => {
            let command = matches.subcommand_name().unwrap_or("");
            Err(refuse(rt, command, why, errors))
        }
    }
}

/// Tells why the matches of this command give none.
fn refuse<R: AllocGlobal + Print, E: Sink>(
    rt: &R,
    command: &str,
    why: Unread,
    errors: &mut E,
) -> Exit {
    match why {
        Unread::Place(word) => match mistake(rt.alloc(), command, word.mistake()) {
            Ok(error) => show_with_tip(rt, &error, errors),
            Err(_) => Stop::Memory.report(PROGRAM, errors),
        },
        Unread::Value => {
            tell(errors, UNREADABLE);
            Exit::CommandLine
        }
        Unread::Memory => Stop::Memory.report(PROGRAM, errors),
    }
}

/// Shows the text of a command line that asks nothing, and tells after a mistake of a moment what a moment is.
fn show_with_tip<R: AllocGlobal + Print, E: Sink>(rt: &R, error: &Error, errors: &mut E) -> Exit {
    let exit = show(
        rt.alloc(),
        PROGRAM,
        error,
        &mut Counted::new(io::writer(rt)),
        errors,
    );
    if is_of_a_moment(rt.alloc(), error) {
        tell(errors, MOMENT_TIP);
    }
    exit
}

/// Whether the mistake is a moment that cannot be read. If memory for its text is refused, the answer is no.
fn is_of_a_moment(alloc: Global, error: &Error) -> bool {
    if error.kind() != ErrorKind::ValueValidation {
        return false;
    }
    match format!(in alloc; "{error}") {
        Ok(text) => {
            text.contains("for '<START>'")
                || text.contains("for '[START]'")
                || text.contains("for '[MOMENT]")
        }
        Err(_) => false,
    }
}

/// What is asked, with all its values.
fn job_of<'a>(alloc: Global, matches: &ArgMatches<'a>) -> Result<Job<'a>, Unread> {
    if let Some(called) = call_of(matches)? {
        return Ok(Job::Call(called));
    }
    match matches.subcommand() {
        Some(("run", matches)) => live(matches),
        Some(("serve", matches)) => served(matches),
        Some(("lint", matches)) => linted(matches),
        Some(("rehearse", matches)) => rehearsed(alloc, matches),
        Some((command, matches)) => Ok(Job::Plans(command_of(alloc, command, matches)?)),
        None => Err(Unread::Value),
    }
}

/// What `run` asks.
fn live<'a>(matches: &ArgMatches<'a>) -> Result<Job<'a>, Unread> {
    Ok(Job::Live(Live {
        file: matches.get_str("FILE").ok_or(Unread::Value)?,
        place: place(matches)?,
        start: start(matches)?,
        patience: number_or(matches, "timeout", PATIENCE).ok_or(Unread::Value)?,
    }))
}

/// What `serve` asks.
fn served<'a>(matches: &ArgMatches<'a>) -> Result<Job<'a>, Unread> {
    Ok(Job::Serve(ServeWords {
        file: matches.get_str("FILE").ok_or(Unread::Value)?,
        place: place(matches)?,
        patience: number_or(matches, "timeout", PATIENCE).ok_or(Unread::Value)?,
        width: number_or(matches, "width", WIDTH as u64).ok_or(Unread::Value)?,
        names_are_secrets: matches.get_flag("names-are-secrets"),
        form: form(matches),
        control: socket_at(matches, "control", PlaceWord::Control)?,
        listen: socket_at(matches, "listen", PlaceWord::Listen)?,
        room: room(matches),
        name: matches.get_str("name"),
        state: matches.get_str("state"),
        spread: number_or(matches, "spread", 0).ok_or(Unread::Value)?,
        behind: matches.get_flag("behind"),
    }))
}

/// What `lint` asks.
fn linted<'a>(matches: &ArgMatches<'a>) -> Result<Job<'a>, Unread> {
    Ok(Job::Lint(LintWords {
        file: matches.get_str("FILE").ok_or(Unread::Value)?,
        json: matches.get_flag("json"),
        patience: number_or(matches, "timeout", PATIENCE).ok_or(Unread::Value)?,
        names_are_secrets: matches.get_flag("names-are-secrets"),
    }))
}

/// What `rehearse` asks.
fn rehearsed<'a>(alloc: Global, matches: &ArgMatches<'a>) -> Result<Job<'a>, Unread> {
    Ok(Job::Rehearse(Rehearsed {
        file: matches.get_str("FILE").ok_or(Unread::Value)?,
        start: start(matches)?,
        faults: faults(alloc, matches)?,
    }))
}

/// Where the ends are kept over a restart: in the folder that is given, else beside the control socket, if there is one.
fn room<'a>(matches: &ArgMatches<'a>) -> Option<EndsRoom<'a>> {
    match matches.get_str("runtime") {
        Some(folder) => Some(EndsRoom::Folder(folder)),
        None => Some(EndsRoom::Beside(matches.get_str("control")?)),
    }
}

/// Where guests come in, if a socket for them is asked for by this option.
fn socket_at<'a>(
    matches: &ArgMatches<'a>,
    option: &str,
    place: PlaceWord,
) -> Result<Option<Socket<'a>>, Unread> {
    let Some(word) = matches.get_str(option) else {
        return Ok(None);
    };
    match entrance_of(word) {
        Some(entrance) if is_place(entrance, place) => Ok(Some(Socket { word, entrance })),
        _ => Err(Unread::Place(place)),
    }
}

/// Whether it is one place, of which clients can know: at port 0 the system would choose one that nobody knows. Commands come in by a path
/// alone.
fn is_place(entrance: Entrance<'_>, place: PlaceWord) -> bool {
    match entrance {
        Entrance::Address(address) => matches!(place, PlaceWord::Listen) && address.port() != 0,
        Entrance::Path(path) => has_room(path),
    }
}

/// Whether a socket can have this path.
fn has_room(path: &str) -> bool {
    path.len() <= MOST_PATH
}

/// What is asked of a running agent, if one is asked.
fn call_of<'a>(matches: &ArgMatches<'a>) -> Result<Option<Called<'a>>, Unread> {
    let Some((command, matches)) = matches.subcommand() else {
        return Ok(None);
    };
    let called = called(command, matches);
    if let Some(
        Called {
            control: Some(path),
            ..
        },
    ) = called
    {
        if !has_room(path) {
            return Err(Unread::Place(PlaceWord::Control));
        }
    }
    Ok(called)
}

/// How the lines of a log are to be written: as text unless JSON is asked for.
fn form(matches: &ArgMatches<'_>) -> Form {
    match matches.get_str("log") {
        Some("json") => Form::Json,
        _ => Form::Text,
    }
}

/// Where Vault is reached. A URL would be taken for a path, since it has a slash in it, and nobody would ever listen there.
fn place<'a>(matches: &ArgMatches<'a>) -> Result<Place<'a>, Unread> {
    let word = matches.get_str(BROKER).ok_or(Unread::Value)?;
    if word.contains("://") {
        return Err(Unread::Place(PlaceWord::Url));
    }
    match place_to_ask(word) {
        Some(Place::Path(path)) if !has_room(path) => Err(Unread::Place(PlaceWord::Port)),
        Some(place) => Ok(place),
        None => Err(Unread::Place(PlaceWord::Port)),
    }
}

/// The command about plans of this name, with all its values. After this nothing asks for a value by its name.
fn command_of(
    alloc: Global,
    command: &str,
    matches: &ArgMatches<'_>,
) -> Result<PlanCommand, Unread> {
    match command {
        "ends" => ends(alloc, matches),
        "plan" => plan(alloc, matches),
        "margin" => margin(alloc, matches),
        "reach" => reach(alloc, matches),
        "check" => check(alloc, matches),
        _ => Err(Unread::Value),
    }
}

fn ends(alloc: Global, matches: &ArgMatches<'_>) -> Result<PlanCommand, Unread> {
    Ok(PlanCommand::Ends {
        file: word(alloc, matches, "FILE")?,
        start: start(matches)?,
        moments: moments(alloc, matches)?,
    })
}

fn plan(alloc: Global, matches: &ArgMatches<'_>) -> Result<PlanCommand, Unread> {
    Ok(PlanCommand::Plan {
        file: word(alloc, matches, "FILE")?,
        start: start(matches)?,
        dates: matches.get_flag("dates"),
    })
}

fn margin(alloc: Global, matches: &ArgMatches<'_>) -> Result<PlanCommand, Unread> {
    Ok(PlanCommand::Margin {
        file: word(alloc, matches, "FILE")?,
        query: MarginQuery {
            start: start(matches)?,
            most_wakes: most_wakes(matches)?,
            renewed: matches.get_flag("renewed"),
        },
    })
}

fn reach(alloc: Global, matches: &ArgMatches<'_>) -> Result<PlanCommand, Unread> {
    Ok(PlanCommand::Reach {
        file: word(alloc, matches, "FILE")?,
        start: start(matches)?,
        dates: matches.get_flag("dates"),
    })
}

fn check(alloc: Global, matches: &ArgMatches<'_>) -> Result<PlanCommand, Unread> {
    Ok(PlanCommand::Check {
        file: word(alloc, matches, "FILE")?,
        certificate: word(alloc, matches, "CERT")?,
        start: start_if_any(matches)?,
    })
}

fn word(alloc: Global, matches: &ArgMatches<'_>, name: &str) -> Result<String, Unread> {
    match matches.get_str(name) {
        Some(word) => Ok(String::from_str(alloc, word)?),
        None => Err(Unread::Value),
    }
}

fn start(matches: &ArgMatches<'_>) -> Result<Moment, Unread> {
    let seconds = matches.get_one::<u64>("START").ok_or(Unread::Value)?;
    Moment::new(seconds).ok_or(Unread::Value)
}

/// The start, where one is given. One that is given and unreadable is a fault.
fn start_if_any(matches: &ArgMatches<'_>) -> Result<Option<Moment>, Unread> {
    match matches.try_get_one::<u64>("START") {
        Ok(Some(seconds)) => Ok(Some(Moment::new(seconds).ok_or(Unread::Value)?)),
        Ok(None) => Ok(None),
        Err(_) => Err(Unread::Value),
    }
}

/// The number of wake-ups, `None` where it is not given. One that is given and unreadable is a fault.
fn most_wakes(matches: &ArgMatches<'_>) -> Result<Option<u64>, Unread> {
    matches
        .try_get_one::<u64>("WAKES")
        .map_err(|_| Unread::Value)
}

fn moments(alloc: Global, matches: &ArgMatches<'_>) -> Result<Vec<Moment>, Unread> {
    let mut moments = Vec::new(alloc);
    if let Some(values) = matches.get_many::<u64>("MOMENT") {
        for value in values {
            let Ok(seconds) = value else {
                return Err(Unread::Value);
            };
            let Some(moment) = Moment::new(seconds) else {
                return Err(Unread::Value);
            };
            moments.push(moment)?;
        }
    }
    Ok(moments)
}

/// The FAULT words, as they were given.
fn faults(alloc: Global, matches: &ArgMatches<'_>) -> Result<Vec<Text>, Unread> {
    let mut words = Vec::new(alloc);
    if let Some(values) = matches.get_strs("FAULT") {
        for word in values {
            words.push(Text::of(alloc, word.as_bytes())?)?;
        }
    }
    Ok(words)
}
