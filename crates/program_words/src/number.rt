//! Numbers of a command line that the parser has taken.
ghost use Rattle.clap.specs.Matches.{found_of, one_text};
ghost use Rattle.program_words.specs.Numbers.{NumberOr};

use clap::ArgMatches;

/// The number that is given, or the one that stands for it where it is absent. `None`: it is given and unreadable.
pub fn number_or(matches: &ArgMatches<'_>, name: &str, absent: u64) -> Option<u64>
    ensures { NumberOr absent (one_text (found_of matches.now) name.now) result }
{
    match matches.try_get_one::<u64>(name) {
        Ok(Some(number)) => Some(number),
        Ok(None) => Some(absent),
        Err(_) => None,
    }
}
