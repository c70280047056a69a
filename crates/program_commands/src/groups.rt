//! The commands in groups, and the help that shows them so.
use crate::agent_commands::{RUN, SERVE};
use crate::call_commands::{ADD, DROP, FOLLOW, HEALTH, NEED, RELOAD, REPLACE, SETTLE, STATUS};
use crate::described::Described;
use crate::file_commands::{CHECK, ENDS, LINT, MARGIN, PLAN, REACH, REHEARSE};
use clap::Command;
use program_report::PROGRAM;
use std::alloc::{AllocError, Global};

pub const ABOUT: &str = "Keeps Vault tokens and leases alive with the fewest wake-ups.";

const OPTIONS: &str = "\

Options:
  -h, --help     Print help
  -V, --version  Print version

`leasekeep COMMAND --help` shows the words of a command, with an example and its exit statuses.
";

/// All commands, group by group: for plans, of an agent, of changes and of trials.
const ALL: [Described; 18] = [
    LINT, REACH, PLAN, MARGIN, CHECK, SERVE, STATUS, HEALTH, FOLLOW, NEED, REPLACE, ADD, DROP,
    RELOAD, SETTLE, ENDS, REHEARSE, RUN,
];

/// The same, as the command line takes them.
pub fn commands<'a>(alloc: Global) -> Result<Vec<Command<'a>>, AllocError> {
    let mut commands = Vec::new(alloc);
    for described in &ALL {
        let command = described.command(alloc)?;
        commands.push(command)?;
    }
    Ok(commands)
}

/// The heading of the group that begins with this command, where one does.
fn heading(command: &str) -> Option<&'static str> {
    match command {
        "lint" => Some("Plan"),
        "serve" => Some("Agent"),
        "need" => Some("Change what the agent keeps"),
        "ends" => Some("Trial"),
        _ => None,
    }
}

/// The help of the program: what it is for, and its commands in groups.
pub fn overview(alloc: Global) -> Result<String, AllocError> {
    let mut text = format!(in alloc; "{ABOUT}\n\nUsage: {PROGRAM} <COMMAND>\n")?;
    for command in &commands(alloc)? {
        push_command(command, &mut text)?;
    }
    text.push_str(OPTIONS)?;
    Ok(text)
}

/// Appends the line of a command, after the heading of its group where it is the first of one.
fn push_command(command: &Command<'_>, text: &mut String) -> Result<(), AllocError> {
    let name = command.get_name();
    if let Some(heading) = heading(name) {
        write!(text, "\n{heading}:\n")?;
    }
    write!(text, "  {name:<10}{}\n", command.get_about().unwrap_or(""))
}
