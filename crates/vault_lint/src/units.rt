//! Durations and moments as people write them. The only error is lack of memory.
use base_moment::{Moment, date_text};
use std::alloc::{AllocError, Global};

/// A duration in the greatest unit that gives a whole number.
pub(crate) fn duration_text(alloc: Global, seconds: u64) -> Result<String, AllocError> {
    let (size, word) = if seconds % 86_400 == 0 {
        (86_400, "d")
    } else if seconds % 3600 == 0 {
        (3600, "h")
    } else if seconds % 60 == 0 {
        (60, "m")
    } else {
        (1, "s")
    };
    let count = seconds / size;
    format!(in alloc; "{count}{word}")
}

/// A duration, rounded down, so that it is that or more.
pub(crate) fn long_text(alloc: Global, seconds: u64) -> Result<String, AllocError> {
    let (size, word) = if seconds >= 86_400 {
        (86_400, "d")
    } else if seconds >= 3600 {
        (3600, "h")
    } else if seconds >= 60 {
        (60, "min")
    } else {
        (1, "s")
    };
    let count = seconds / size;
    format!(in alloc; "{count} {word}")
}

/// A moment as a date, or as a number where it has none.
pub(crate) fn date_or_number(alloc: Global, seconds: u64) -> Result<String, AllocError> {
    let Some(moment) = Moment::new(seconds) else {
        return format!(in alloc; "{seconds}");
    };
    match date_text(alloc, moment) {
        Ok(date) => String::from_str(alloc, std::str::from_utf8(date.list()).unwrap_or("")),
        Err(_) => Err(AllocError),
    }
}
