//! The commands of a running agent: how the command line has them, and what its words ask.
use crate::described::{Described, DescribedWord, Takes, Value};
use crate::job::Called;
use clap::ArgMatches;
use program_calls::CallWords;

/// `need NAME WHEN [--control SOCKET]`
pub const NEED: Described = Described {
    name: "need",
    about: "Changes until when an entry is needed",
    after: "\
WHEN is a moment in whole seconds since 1970-01-01T00:00:00Z, a date as 2026-11-22T09:00:00Z, a time
from now as +90s, +30m, +6h or +2d, or always.

Example:
  leasekeep need app-db +6h

Exit status: 0 done, 1 refused or no answer, 2 command line, 6 write, 7 memory",
    words: &[
        CONTROL,
        NAME,
        DescribedWord {
            name: "WHEN",
            takes: Takes::Text,
            help: "Until when it is needed",
        },
    ],
};

/// `replace NAME [--control SOCKET]`
pub const REPLACE: Described = Described {
    name: "replace",
    about: "Gives an entry the secret or lease id on standard input",
    after: "\
Standard input is read to its end; white space around the credential is ignored. Only the agent gets
it: it looks the credential up in Vault, and keeps the old one if Vault refuses it.

Example:
  leasekeep replace app < new-secret

Exit status: 0 done, 1 refused or no answer, 2 command line, 6 read or write, 7 memory",
    words: &[CONTROL, NAME],
};

/// `add [--control SOCKET]`
pub const ADD: Described = Described {
    name: "add",
    about: "Adds the entry whose table is on standard input",
    after: "\
Standard input is one table [[token]] or [[lease]] in TOML, as in an inventory. Only the agent gets
it, and looks its credential up in Vault first.

Example:
  leasekeep add < job.toml

Exit status: 0 done, 1 refused or no answer, 2 command line, 6 read or write, 7 memory",
    words: &[CONTROL],
};

/// `drop NAME [--control SOCKET]`
pub const DROP: Described = Described {
    name: "drop",
    about: "Stops keeping an entry",
    after: EXITS,
    words: &[CONTROL, NAME],
};

/// `status [--control SOCKET]`
pub const STATUS: Described = Described {
    name: "status",
    about: "Shows how the agent and each entry stand",
    after: EXITS,
    words: &[CONTROL],
};

/// `health [--control SOCKET]`
pub const HEALTH: Described = Described {
    name: "health",
    about: "Tells whether every needed entry is kept, for health checks",
    after: "\
Prints `every needed entry is kept`, or a line for each needed entry that is not, and why.

Exit status: 0 all are kept, 1 some are not or no agent answers, 2 command line, 6 write, 7 memory",
    words: &[CONTROL],
};

/// `settle [--control SOCKET]`
pub const SETTLE: Described = Described {
    name: "settle",
    about: "Writes the inventory's file anew, with the changes since it was read",
    after: "\
The whole file is written anew: tokens, then leases, with dates, and durations such as 90m.
Comments are lost. To keep a file as you wrote it, make the changes in it by hand, and run
`leasekeep reload`.

Exit status: 0 done, 1 refused or no answer, 2 command line, 6 write, 7 memory",
    words: &[CONTROL],
};

/// `reload [--control SOCKET]`
pub const RELOAD: Described = Described {
    name: "reload",
    about: "Has the agent read the inventory's file again",
    after: EXITS,
    words: &[CONTROL],
};

/// `follow [--control SOCKET] [--alerts]`
pub const FOLLOW: Described = Described {
    name: "follow",
    about: "Shows the agent's log as it comes",
    after: "\
Shows each line that the agent logs from now on, until the agent ends or the command is stopped.
Lines that it does not read in time are dropped, and `warning: log dropped N lines` replaces them.
At most 8 clients can follow at a time.

Examples:
  leasekeep follow
  leasekeep follow --alerts | while read -r line; do logger -p user.err \"$line\"; done

Exit status: 0 the agent ended, 1 refused or no answer, 2 command line, 6 write, 7 memory",
    words: &[
        CONTROL,
        DescribedWord {
            name: "alerts",
            takes: Takes::Flag,
            help: "Only warnings and alerts",
        },
    ],
};

const EXITS: &str =
    "Exit status: 0 done, 1 refused or no answer, 2 command line, 6 write, 7 memory";

/// The agent's socket, which each of them may name.
const CONTROL: DescribedWord = DescribedWord {
    name: "control",
    takes: Takes::Option("SOCKET", Value::Text),
    help: "\
The agent's control socket [default: control.sock in $RUNTIME_DIRECTORY,
else in $XDG_RUNTIME_DIR/leasekeep, else in /run/leasekeep]",
};

/// The name of an entry.
const NAME: DescribedWord = DescribedWord {
    name: "NAME",
    takes: Takes::Text,
    help: "The entry",
};

/// What is asked of a running agent, if this command asks something of one. `None` also where one of its words is not there, which
/// the parser does not let happen.
pub fn called<'a>(command: &str, matches: &ArgMatches<'a>) -> Option<Called<'a>> {
    Some(Called {
        ask: ask(command, matches)?,
        control: matches.get_str("control"),
    })
}

fn ask<'a>(command: &str, matches: &ArgMatches<'a>) -> Option<CallWords<'a>> {
    match command {
        "need" => Some(CallWords::Need {
            name: matches.get_str("NAME")?,
            when: matches.get_str("WHEN")?,
        }),
        "replace" => Some(CallWords::Replace {
            name: matches.get_str("NAME")?,
        }),
        "add" => Some(CallWords::Add),
        "drop" => Some(CallWords::Drop {
            name: matches.get_str("NAME")?,
        }),
        "status" => Some(CallWords::Status),
        "health" => Some(CallWords::Health),
        "settle" => Some(CallWords::Settle),
        "reload" => Some(CallWords::Reload),
        "follow" => Some(CallWords::Follow {
            alerts: matches.get_flag("alerts"),
        }),
        _ => None,
    }
}
