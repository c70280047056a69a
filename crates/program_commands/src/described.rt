//! Commands as the command line takes them: each a row of a table, with its words and their help.
use base_moment::LAST;
use clap::{Arg, ArgAction, Command};
use std::alloc::{AllocError, Global};

/// A command.
#[derive(Clone, Copy, Debug)]
pub struct Described {
    pub name: &'static str,
    pub about: &'static str,
    /// What its help has below the words.
    pub after: &'static str,
    pub words: &'static [DescribedWord],
}

/// A word of a command, and what is written for it.
#[derive(Clone, Copy, Debug)]
pub struct DescribedWord {
    pub name: &'static str,
    pub takes: Takes,
    pub help: &'static str,
}

/// What is written for a word. An option is written `--NAME`, and may be left out.
#[derive(Clone, Copy, Debug)]
pub enum Takes {
    /// A text.
    Text,
    /// Any number of texts.
    Texts,
    /// A moment.
    Moment,
    /// A moment, which may be left out.
    MomentIfAny,
    /// Any number of moments.
    Moments,
    /// A number up to this one, which may be left out.
    NumberUpTo(i64),
    /// An option that stands for itself.
    Flag,
    /// An option with a value: what its help calls that, and what it may be.
    Option(&'static str, Value),
}

/// What the value of an option may be.
#[derive(Clone, Copy, Debug)]
pub enum Value {
    /// Any text.
    Text,
    /// One of these texts.
    OneOf(&'static [&'static str]),
    /// A number from the first of these to the second.
    Number(i64, i64),
}

/// The inventory.
pub const FILE: DescribedWord = DescribedWord {
    name: "FILE",
    takes: Takes::Text,
    help: "\
The inventory, at most 1 MiB; read first. `leasekeep lint FILE` shows what is
wrong with it, with line and fix",
};

/// The start of a plan.
pub const START: DescribedWord = DescribedWord {
    name: "START",
    takes: Takes::Moment,
    help: "\
The moment from which entries are kept, in whole seconds since
1970-01-01T00:00:00Z; $(date +%s) is now",
};

impl Described {
    /// The command with its words.
    pub fn command<'a>(&self, alloc: Global) -> Result<Command<'a>, AllocError> {
        let args = self.args(alloc)?;
        Command::new(alloc, self.name)
            .about(self.about)
            .after_help(self.after)
            .args(args)
    }

    fn args<'a>(&self, alloc: Global) -> Result<Vec<Arg<'a>>, AllocError> {
        let mut args = Vec::new(alloc);
        for word in self.words {
            args.push(word.arg(alloc))?;
        }
        Ok(args)
    }
}

impl DescribedWord {
    fn arg<'a>(&self, alloc: Global) -> Arg<'a> {
        let arg = Arg::new(alloc, self.name).help(self.help);
        match self.takes {
            Takes::Text => arg.required(true).action(ArgAction::Set),
            Takes::Texts => many(arg),
            Takes::Moment => moment(arg).required(true),
            Takes::MomentIfAny => moment(arg),
            Takes::Moments => many(moment(arg)),
            Takes::NumberUpTo(most) => number(arg, 0, most),
            Takes::Flag => arg.long(self.name).action(ArgAction::SetTrue),
            Takes::Option(called, value) => {
                option(arg.long(self.name).value_name(called), value)
            }
        }
    }
}

fn option<'a>(arg: Arg<'a>, value: Value) -> Arg<'a> {
    match value {
        Value::Text => arg,
        Value::OneOf(texts) => arg.value_parser(texts),
        Value::Number(least, most) => number(arg, least, most),
    }
}

fn moment<'a>(arg: Arg<'a>) -> Arg<'a> {
    number(arg, 0, LAST as i64)
}

fn number<'a>(arg: Arg<'a>, least: i64, most: i64) -> Arg<'a> {
    arg.value_parser(clap::value_parser!(u64).range(least..=most))
}

fn many<'a>(arg: Arg<'a>) -> Arg<'a> {
    arg.action(ArgAction::Append).num_args(0..)
}
