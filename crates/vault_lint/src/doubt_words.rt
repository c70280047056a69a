//! What is said of a doubt: the entry, the key, what is doubted and what helps. No credential is handed to it but those of the subject,
//! which it does not read.
use crate::doubt_mends::mend_of;
use crate::finding::{Finding, Severity};
use crate::naming::{shown_name, whose};
use crate::place::line_of;
use crate::subject::Subject;
use crate::units::{date_or_number, duration_text, long_text};
use crate::what::{Doubt, EntryDoubt, Whole};
use plan_forest::Kind;
use std::alloc::{AllocError, Global};
use vault_inventory::Key;

/// What is said of a doubt. The only error is lack of memory.
pub fn finding_of(alloc: Global, subject: &Subject, doubt: &Doubt) -> Result<Finding, AllocError> {
    match doubt {
        Doubt::Whole(whole) => Ok(Finding {
            severity: Severity::Doubt,
            line: 0,
            entry: String::new(alloc),
            key: "",
            problem: String::from_str(alloc, whole_problem(*whole))?,
            mend: String::from_str(alloc, whole_mend(*whole))?,
        }),
        Doubt::LongRound(count) => of_round(alloc, subject, *count),
        Doubt::Of(index, what) => of_entry(alloc, subject, *index, *what),
    }
}

fn whole_problem(whole: Whole) -> &'static str {
    match whole {
        Whole::NoEntries => "there are no entries",
        Whole::NoNeeds => "no entry has a need",
        Whole::AllPast => "all needs are past",
    }
}

fn whole_mend(whole: Whole) -> &'static str {
    match whole {
        Whole::NoEntries => "add [[token]] and [[lease]] tables: nothing is kept now",
        Whole::NoNeeds => "add a need to each entry that has to be kept",
        Whole::AllPast => "set needs in the future: nothing is kept now",
    }
}

fn of_round(alloc: Global, subject: &Subject, count: u64) -> Result<Finding, AllocError> {
    let timeout = u64::from(subject.timeout);
    let wanted = count.div_ceil(8).saturating_mul(timeout);
    Ok(Finding {
        severity: Severity::Doubt,
        line: line_of(&subject.places, None, Key::Margin),
        entry: String::new(alloc),
        key: Key::Margin.text(),
        problem: format!(in alloc;
            "the fullest round, 8 at a time, may take longer than the margin ({count} entries, {timeout} s each)"
        )?,
        mend: format!(in alloc;
            "a slower broker loses the last ones: write a margin of {wanted}, or give the agent a greater --width"
        )?,
    })
}

fn of_entry(
    alloc: Global,
    subject: &Subject,
    index: u32,
    what: EntryDoubt,
) -> Result<Finding, AllocError> {
    let key = key_of(subject, index, what);
    Ok(Finding {
        severity: Severity::Doubt,
        line: line_of(&subject.places, Some(index), key),
        entry: shown_name(alloc, subject, index)?,
        key: key.text(),
        problem: problem_of(alloc, subject, index, what)?,
        mend: mend_of(alloc, subject, what)?,
    })
}

// The key of an entry that a doubt is about.
fn key_of(subject: &Subject, index: u32, what: EntryDoubt) -> Key {
    match what {
        EntryDoubt::TokenLike => Key::Name,
        EntryDoubt::OpenFile => file_key(subject, index),
        EntryDoubt::Swapped => Key::Issued,
        EntryDoubt::Late(key) | EntryDoubt::Milliseconds(key, _) => key,
        EntryDoubt::Ended(_) => Key::End,
        EntryDoubt::OverMax(_, _) | EntryDoubt::BesidePeriod | EntryDoubt::NoStep => Key::Increment,
        EntryDoubt::NearMargin(_) => step_key(subject, index),
        _ => Key::Need,
    }
}

fn file_key(subject: &Subject, index: u32) -> Key {
    let forest = subject.inventory.forest();
    if index < forest.len() && matches!(forest.get(index).kind, Kind::Lease) {
        Key::LeaseIdFile
    } else {
        Key::SecretFile
    }
}

fn step_key(subject: &Subject, index: u32) -> Key {
    let inventory = &subject.inventory;
    if index < inventory.forest().len() && inventory.terms(index).period != 0 {
        Key::Period
    } else {
        Key::Increment
    }
}

// What is doubted of an entry.
fn problem_of(
    alloc: Global,
    subject: &Subject,
    index: u32,
    what: EntryDoubt,
) -> Result<String, AllocError> {
    match what {
        EntryDoubt::Milliseconds(_, seconds) => {
            let days = seconds / 86_400;
            format!(in alloc; "is {seconds} s, over {days} days")
        }
        EntryDoubt::OverMax(asked, most) => over_max(alloc, asked, most),
        EntryDoubt::NearMargin(step) => {
            let margin = subject.inventory.forest().margin();
            format!(in alloc; "is {step} s, under four thirds of the margin of {margin} s")
        }
        EntryDoubt::Ended(moment) | EntryDoubt::NeedPast(moment) => past(alloc, moment),
        EntryDoubt::PastCeiling(over, seconds) => {
            let long = long_text(alloc, seconds)?;
            let owner = whose(alloc, subject, index, over)?;
            format!(in alloc; "is {long} past {owner} maximum TTL")
        }
        EntryDoubt::PastLife(over, seconds) => {
            let long = long_text(alloc, seconds)?;
            let owner = whose(alloc, subject, index, over)?;
            format!(in alloc; "is {long} or more past {owner} maximum TTL")
        }
        EntryDoubt::PastEnd(over) => {
            let owner = whose(alloc, subject, index, over)?;
            format!(in alloc; "is past {owner} end, which cannot be renewed")
        }
        EntryDoubt::ShortLife(over, life) => short_life(alloc, subject, index, over, life),
        _ => String::from_str(alloc, plain_problem(what)),
    }
}

fn plain_problem(what: EntryDoubt) -> &'static str {
    match what {
        EntryDoubt::TokenLike => "looks like a token's value",
        EntryDoubt::OpenFile => "may be read or written by others",
        EntryDoubt::Swapped => "is after its end",
        EntryDoubt::Late(_) => "is past the year 3000",
        EntryDoubt::BesidePeriod => "has no effect next to a period",
        EntryDoubt::NoStep => "is not written: 3600 s are asked for",
        _ => "is not set, here or under it",
    }
}

fn over_max(alloc: Global, asked: u32, most: u32) -> Result<String, AllocError> {
    let asked = duration_text(alloc, u64::from(asked))?;
    let most = duration_text(alloc, u64::from(most))?;
    format!(in alloc; "is {asked}, longer than its maximum TTL of {most}")
}

fn past(alloc: Global, moment: u64) -> Result<String, AllocError> {
    let date = date_or_number(alloc, moment)?;
    format!(in alloc; "is past ({date})")
}

fn short_life(
    alloc: Global,
    subject: &Subject,
    index: u32,
    over: u32,
    life: u64,
) -> Result<String, AllocError> {
    let owner = whose(alloc, subject, index, over)?;
    let long = duration_text(alloc, life)?;
    format!(in alloc; "is always, and {owner} maximum TTL of {long} is a day or less")
}
