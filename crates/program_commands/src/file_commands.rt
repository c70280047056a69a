//! The commands over files alone, with their help.
use crate::described::{Described, DescribedWord, FILE, START, Takes, Value};
use plan_commands::LIMIT;

/// `ends FILE START [MOMENT..]`
pub const ENDS: Described = Described {
    name: "ends",
    about: "Shows when each entry ends if all are renewed at these moments",
    after: "\
The last line is `keeps yes` if every need is kept so, else `keeps no`. The inventory is a TOML
document: docs/inventory.md describes its keys and what each fault means. Moments are whole seconds
since 1970-01-01T00:00:00Z; $(date +%s) is now.

Example:
  leasekeep ends web.toml 1000 1059 1118 1177

Exit status: 0 done, 1 inventory, 2 command line or moments, 6 read or write, 7 memory",
    words: &[
        FILE,
        START,
        DescribedWord {
            name: "MOMENT",
            takes: Takes::Moments,
            help: "A moment at which every entry is renewed",
        },
    ],
};

/// `plan FILE START [--dates]`
pub const PLAN: Described = Described {
    name: "plan",
    about: "Plans the fewest wake-ups that keep every need, each as late as possible",
    after: "\
The plan is printed as a certificate, which `leasekeep check` judges. A line
`run FIRST STEP COUNT ENTRY NEEDED` stands for COUNT wake-ups, the first at FIRST, STEP seconds
apart. No plan can put any of them off: without it ENTRY would end while NEEDED still needs it.
docs/certificate.md describes the whole text.

A line `unkeepable ENTRY NEEDED` says that no plan keeps NEEDED. It takes the place of the whole
plan: `leasekeep reach` shows every need that cannot be kept, and `rehearse` and `run` go on with
the rest.

Examples:
  leasekeep plan --dates web.toml $(date +%s)
  leasekeep plan web.toml 1000 > web.plan

Exit status: 0 done, 1 inventory, 2 command line, 3 unkeepable, 5 more than 10000000 wake-ups,
6 read or write, 7 memory",
    words: &[
        FILE,
        START,
        DescribedWord {
            name: "dates",
            takes: Takes::Flag,
            help: "\
Shows the plan to people, with moments as RFC 3339 dates: `check` does
not read that",
        },
    ],
};

/// `margin FILE START [WAKES] [--renewed]`
pub const MARGIN: Described = Described {
    name: "margin",
    about: "Shows the widest margin, and so the longest outage, that costs no more wake-ups",
    after: "\
Each line is `MARGIN WAKES`: a margin in seconds, and the fewest wake-ups with it. Without WAKES the
first line has the inventory's own margin, and the second the widest margin that takes no more
wake-ups. With WAKES there is one line: the widest margin for which WAKES wake-ups are enough. A
margin is 1 to 3600 seconds, and less than each increment and period.

An entry that ends soon after START allows no wide margin. For a margin that is to last, ask with
--renewed while all entries can be renewed: it renews each of them once at START, and answers for
the ends that this leaves.

A line `unkeepable ENTRY NEEDED` says that no plan keeps NEEDED, even with a margin of 1; or,
without WAKES, with the inventory's own. A line `none` says that some plan keeps every need, but
none with so few wake-ups. The inventory is not changed.

Examples:
  leasekeep margin --renewed web.toml $(date +%s)
  leasekeep margin web.toml 1000

Exit status: 0 done, 1 inventory, 2 command line, 3 unkeepable or none, 5 more than 10000000
wake-ups, 6 read or write, 7 memory",
    words: &[
        FILE,
        START,
        DescribedWord {
            name: "WAKES",
            takes: Takes::NumberUpTo(LIMIT as i64),
            help: "\
How many wake-ups the plan may have [default: as many as with the
inventory's own margin]",
        },
        DescribedWord {
            name: "renewed",
            takes: Takes::Flag,
            help: "Renews every entry once at START first",
        },
    ],
};

/// `reach FILE START [--dates]`
pub const REACH: Described = Described {
    name: "reach",
    about: "Shows how long each entry can live, and whether every need can be kept",
    after: "\
Each entry has a line `NAME UNTIL BY NEED`. UNTIL is the moment at which it ends at the latest,
`always` if nothing limits it. BY is the entry whose ceiling or end that is: the entry itself, or a
token over it. NEED is the moment until which it is needed, 0 if it is not. The last line is
`keeps yes` if some plan from START on keeps every entry until its need, else `keeps no`. With
--dates the lines are in columns, and `SHORT` marks each entry that ends before its need.

Examples:
  leasekeep reach --dates web.toml $(date +%s)
  leasekeep reach web.toml 1000

Exit status: 0 done, 1 inventory, 2 command line, 6 read or write, 7 memory",
    words: &[
        FILE,
        START,
        DescribedWord {
            name: "dates",
            takes: Takes::Flag,
            help: "\
For people: in columns, with moments as RFC 3339 dates where they have
one, and with `SHORT`",
        },
    ],
};

/// `rehearse FILE START [FAULT..]`
pub const REHEARSE: Described = Described {
    name: "rehearse",
    about: "Plays an inventory against Vault's rules in memory, with faults if you like",
    after: "\
A FAULT word says what goes wrong with renewal request number K: `K=short:SECONDS` grants that many
seconds at most, `K=drop` loses its reply, `K=deny` refuses it.

A line `wake T NAME..` is a wake-up at T that renews these entries. Then each of them has a line:
`told NAME SECONDS`, it was granted that many seconds from T on; `refused NAME STATUS`; or
`lost NAME`, no reply came. `short NAME NEED` says that no plan keeps the need of NAME any more, and
until when it is kept. The last line is `done WAKES REQUESTS`.

Example:
  leasekeep rehearse web.toml 1000 1=drop

Exit status: 0 done, 1 inventory, 2 command line or FAULT words, 5 more than 100000 wake-ups,
6 read or write, 7 memory",
    words: &[
        FILE,
        START,
        DescribedWord {
            name: "FAULT",
            takes: Takes::Texts,
            help: "What goes wrong with a renewal request: K=short:SECONDS, K=drop or K=deny",
        },
    ],
};

/// `check FILE CERT [START]`
pub const CHECK: Described = Described {
    name: "check",
    about: "Judges a plan against an inventory, whoever made it",
    after: "\
CERT is a certificate, as `leasekeep plan` prints it. The answer is `yes` if what it claims is true:
you need not trust the planner. Otherwise it is `no` with the first test that fails, or `unreadable`
with the fault of the first faulty line. A certificate is true from its own start on: with START,
one that has another start is answered `no start`.

Example:
  leasekeep check web.toml web.plan 1000

Exit status: 0 yes, 1 inventory, 2 command line, 4 no or unreadable, 6 read or write, 7 memory",
    words: &[
        FILE,
        DescribedWord {
            name: "CERT",
            takes: Takes::Text,
            help: "The certificate, at most 16 MiB; read after FILE",
        },
        DescribedWord {
            name: "START",
            takes: Takes::MomentIfAny,
            help: "The moment that the certificate has to start from [default: any]",
        },
    ],
};

/// `lint FILE [--timeout SECONDS] [--names-are-secrets] [--json]`
pub const LINT: Described = Described {
    name: "lint",
    about: "Shows what is wrong with an inventory or probably not meant, with line and fix",
    after: "\
Each finding is a line `FILE:LINE: SEVERITY: ENTRY KEY: PROBLEM; FIX`. `leasekeep serve` refuses an
inventory for a `fault`, and takes it with a `doubt`. What has no line of its own is said of FILE,
or of the entry's table. A text that is no inventory has one fault, its first. Files of credentials
are read as at a start without --state. No line has a credential in it.

The last line, on standard error, counts the faults and the doubts.

Example:
  leasekeep lint fleet.toml

Exit status: 0 no fault, 1 a fault, 2 command line, 6 read or write, 7 memory",
    words: &[
        FILE,
        DescribedWord {
            name: "timeout",
            takes: Takes::Option("SECONDS", Value::Number(1, 60)),
            help: "\
The time-out of the agent that is to serve it, 1 to 60 seconds
[default: 5]",
        },
        DescribedWord {
            name: "names-are-secrets",
            takes: Takes::Flag,
            help: "\
Passes over credentials that are not written, as `serve` does with
the same word, for trials",
        },
        DescribedWord {
            name: "json",
            takes: Takes::Flag,
            help: "Shows an array of JSON, with an object for each finding",
        },
    ],
};
