//! The commands that keep entries alive, with their help.
use crate::described::{Described, DescribedWord, FILE, Takes, Value};
use watch_machine::WIDTH_MAX;

/// `run FILE PORT|SOCKET START [--timeout SECONDS]`
pub const RUN: Described = Described {
    name: "run",
    about: "Keeps the entries alive at the moments that lines on standard input give",
    after: "\
It looks each entry up first. It reads no clock: each line of standard input gives the moment,
`tick T`, or a new need, `need NAME T`, in whole seconds since 1970-01-01T00:00:00Z. Each line is
answered before the next one is read:
  entry NAME END    a lookup: NAME ends at END
  wake T NAME..     these are renewed now, and each has a line: `told NAME SECONDS`,
                    `refused NAME STATUS` or `lost NAME`
  next T            the round is over, and the next wake-up is due at T; `next none`: there is none
  sleep T, idle     nothing is due before T, or nothing at all
  short NAME NEED   NAME cannot be kept past NEED, which is now its need
  planned           the new need is in force
  fault clock-back, fault unknown-name    the line was not taken
docs/commands/run.md says what to do about each. After a lost answer `next` is the same moment, and
a tick at it tries again. Vault is reached over plain HTTP: through a TLS proxy on this machine, at
a port of 127.0.0.1 or at a UNIX socket, which keeps other users out.

Example (lines that begin with > are typed):
  leasekeep run web.toml 8200 1000
  entry web 1060
  > tick 1059
  wake 1059 web
  told web 60
  next 1118

Exit status: 0 the lines have ended, 1 inventory, 2 command line, 5 more than 10000000 wake-ups,
6 read, write, a lookup or a malformed line, 7 memory",
    words: &[
        FILE,
        PORT,
        DescribedWord {
            name: "START",
            takes: Takes::Moment,
            help: "\
The moment of the lookups, from which entries are kept; $(date +%s) is
now",
        },
        DescribedWord {
            name: "timeout",
            takes: Takes::Option("SECONDS", Value::Number(1, 60)),
            help: "\
How long one connect, read or write may take, 1 to 60 seconds
[default: 5]",
        },
    ],
};

/// `serve FILE PORT|SOCKET [--timeout SECONDS] [--width K] [--names-are-secrets] [--log text|json] [--state FOLDER]
/// [--control SOCKET] [--listen PLACE] [--runtime FOLDER] [--spread SECONDS] [--behind] [--name NAME]`
pub const SERVE: Described = Described {
    name: "serve",
    about: "The agent: keeps the entries alive until it is stopped, and logs what it does",
    after: "\
It reads the clocks, sleeps, looks the entries up and renews them; SIGTERM, SIGINT and SIGHUP end
it, and the entries then live until their ends. The inventory needs a margin of at least four times
the time-out (with --behind eight times), and a `secret` for each token and a `lease_id` for each
lease, or a file that holds it (`secret_file`, `lease_id_file`), which is read at the start, and
with --state again whenever it changes. With --state an entry whose file holds none waits for it,
and all others are kept; without it such a file is refused at the start.

Each event is one line on standard output, with its moment. The log delays no renewal unless it is a
file: up to 1 MiB of lines wait for their reader, and whole lines after that are dropped and
counted.

With --control it takes commands (`leasekeep status`, `need` and so on), and with --listen it serves
pages over HTTP. No client of either can stop the agent or make it wait, except for the disk that a
change waits for. If a socket cannot be had, it serves without, with an alert. With --state it keeps
what commands change: what was acknowledged holds after a restart, and after a crash at any moment.
Without it only a need is taken, until a restart. A start in the same boot renews by the ends that
were known before, if they are kept (--runtime, or beside SOCKET). Vault is reached over plain HTTP:
through a TLS proxy on this machine, at a port of 127.0.0.1 or at a UNIX socket, which keeps other
users out. The path of a socket has at most 107 bytes.

Example:
  leasekeep serve fleet.toml ./vault.sock --state ./state --control ./control.sock --listen 9105

Exit status: 1 the inventory is refused, or another agent holds FOLDER, 2 command line, 6 read,
7 memory",
    words: &[
        FILE,
        PORT,
        TIMEOUT_OF_LANES,
        WIDTH,
        DescribedWord {
            name: "names-are-secrets",
            takes: Takes::Flag,
            help: "\
For trials: sends the name of an entry in place of a credential that is
not written",
        },
        DescribedWord {
            name: "log",
            takes: Takes::Option("FORM", Value::OneOf(LOG_FORMS)),
            help: "\
How the lines of the log are written: text or json
[default: text]",
        },
        DescribedWord {
            name: "state",
            takes: Takes::Option("FOLDER", Value::Text),
            help: "\
Keeps the changes that commands make in this folder, which only one agent
may use; it is created if it does not exist",
        },
        DescribedWord {
            name: "control",
            takes: Takes::Option("SOCKET", Value::Text),
            help: "\
Takes commands at this UNIX socket, a path with a `/` in it, for its user
and its group",
        },
        DescribedWord {
            name: "listen",
            takes: Takes::Option("PLACE", Value::Text),
            help: "\
Serves /metrics, /health and /status over HTTP: at a port of 127.0.0.1,
at ADDR:PORT, or at a UNIX socket, a path with a `/` in it",
        },
        DescribedWord {
            name: "runtime",
            takes: Takes::Option("FOLDER", Value::Text),
            help: "\
Keeps the ends in this folder for a restart in the same boot, in the file
`ends` [default: the folder of SOCKET]",
        },
        DescribedWord {
            name: "name",
            takes: Takes::Option("NAME", Value::Text),
            help: "\
This agent's name, for --spread and --behind
[default: the machine's name and the path FILE]",
        },
        DescribedWord {
            name: "spread",
            takes: Takes::Option("SECONDS", Value::Number(0, 3600)),
            help: "\
Wakes up earlier by this agent's share of SECONDS, 0 to 3600, so that
agents of one Vault do not wake up together [default: 0]",
        },
        DescribedWord {
            name: "behind",
            takes: Takes::Flag,
            help: "\
Stands behind another agent that serves the same inventory: looks before
it renews, and renews what the one in front has left undone",
        },
    ],
};

/// The word that says where Vault is reached.
pub const BROKER: &str = "PORT|SOCKET";

const PORT: DescribedWord = DescribedWord {
    name: BROKER,
    takes: Takes::Text,
    help: "\
Where Vault is reached: a port of 127.0.0.1, or the path of a UNIX socket,
with a `/` in it",
};

const TIMEOUT_OF_LANES: DescribedWord = DescribedWord {
    name: "timeout",
    takes: Takes::Option("SECONDS", Value::Number(1, 60)),
    help: "\
How long the connect, the write and the first read of a request may take,
1 to 60 seconds [default: 5]",
};

const WIDTH: DescribedWord = DescribedWord {
    name: "width",
    takes: Takes::Option("K", Value::Number(1, WIDTH_MAX as i64)),
    help: "The greatest number of requests in parallel, 1 to 32 [default: 8]",
};

const LOG_FORMS: &[&str] = &["text", "json"];
