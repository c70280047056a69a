//! What a command line of `leasekeep` may ask.
use base_clients::Entrance;
use base_device::Place;
use base_log::Form;
use base_moment::{Moment, Text};
use plan_commands::PlanCommand;
use program_calls::CallWords;

/// What the words of the command line ask.
#[derive(Debug, Drop)]
pub enum Job<'a> {
    /// A command about plans.
    Plans(PlanCommand),
    /// `rehearse`, which plays a plan against a broker of its own.
    Rehearse(Rehearsed<'a>),
    /// A command of a running agent.
    Call(Called<'a>),
    /// `run`, the agent.
    Live(Live<'a>),
    /// `serve`, the agent that runs by itself.
    Serve(ServeWords<'a>),
    /// `lint`, which shows what is wrong with an inventory.
    Lint(LintWords<'a>),
}

/// What the words of the command line ask of a running agent.
#[derive(Clone, Copy, Debug)]
pub struct Called<'a> {
    pub ask: CallWords<'a>,
    /// The path of its control socket, if it is given.
    pub control: Option<&'a str>,
}

/// What the words of `run` ask.
#[derive(Debug, Drop)]
pub struct Live<'a> {
    /// The path of the inventory.
    pub file: &'a str,
    /// Where Vault is reached.
    pub place: Place<'a>,
    /// The moment from which entries are kept.
    pub start: Moment,
    /// How long one connect, read or write may take, in seconds.
    pub patience: u64,
}

/// What the words of `rehearse` ask.
#[derive(Debug, Drop)]
pub struct Rehearsed<'a> {
    /// The path of the inventory.
    pub file: &'a str,
    /// The moment of the first plan.
    pub start: Moment,
    /// The FAULT words, as they were given.
    pub faults: Vec<Text>,
}

/// What the words of `serve` ask.
#[derive(Debug, Drop)]
pub struct ServeWords<'a> {
    /// The path of the inventory.
    pub file: &'a str,
    /// Where Vault is reached.
    pub place: Place<'a>,
    /// How long the connect, write and first read of a request may take, in seconds.
    pub patience: u64,
    /// How many requests are out at once at most.
    pub width: u64,
    /// Whether the name of an entry may be sent as its credential.
    pub names_are_secrets: bool,
    /// How the lines of the log are written.
    pub form: Form,
    /// Where commands come in.
    pub control: Option<Socket<'a>>,
    /// Where pages are served.
    pub listen: Option<Socket<'a>>,
    /// Where the ends are kept over a restart.
    pub room: Option<EndsRoom<'a>>,
    /// The agent's own name, where it is given one.
    pub name: Option<&'a str>,
    /// The folder in which changes are kept over a restart, where there is one.
    pub state: Option<&'a str>,
    /// The seconds over which agents are spread that would wake up together.
    pub spread: u64,
    /// Whether it stands behind another agent.
    pub behind: bool,
}

/// What the words of `lint` ask.
#[derive(Clone, Copy, Debug)]
pub struct LintWords<'a> {
    /// The path of the inventory.
    pub file: &'a str,
    /// Whether the findings are written as an array of JSON.
    pub json: bool,
    /// The time-out of the agent that is to serve it, in seconds.
    pub patience: u64,
    /// Whether the name of an entry may be sent as its credential.
    pub names_are_secrets: bool,
}

/// Where guests come in, and the word of the command line that says so.
#[derive(Clone, Copy, Debug)]
pub struct Socket<'a> {
    pub word: &'a str,
    pub entrance: Entrance<'a>,
}

/// Where the file of the ends is.
#[derive(Clone, Copy, Debug)]
pub enum EndsRoom<'a> {
    /// In this folder.
    Folder(&'a str),
    /// Beside the file of this path.
    Beside(&'a str),
}
