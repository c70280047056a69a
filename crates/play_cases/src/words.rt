//! What the words of steps say; each has the fault of a step of which it cannot be read.
use crate::fault::CaseFault;
use base_clock::Reading;
use base_disk::Failing;
use base_log::SinkAnswer;
use vault_lanes::LaneFault;

/// A number.
pub fn number(word: &str, unread: CaseFault) -> Result<u64, CaseFault> {
    match word.parse::<u64>() {
        Ok(number) => Ok(number),
        Err(_) => Err(unread),
    }
}

/// A number that a small one can be.
pub fn small(word: &str, unread: CaseFault) -> Result<u32, CaseFault> {
    match word.parse::<u32>() {
        Ok(number) => Ok(number),
        Err(_) => Err(unread),
    }
}

/// What goes wrong with a request to the broker.
pub fn lane_fault(words: &[&str], unread: CaseFault) -> Result<LaneFault, CaseFault> {
    match words {
        ["refuse"] => Ok(LaneFault::Refuse),
        ["lose"] => Ok(LaneFault::Lose),
        ["hang"] => Ok(LaneFault::Hang),
        ["garble"] => Ok(LaneFault::Garble),
        ["late", millis] => Ok(LaneFault::Late(number(millis, unread)?)),
        ["status", status] => match status.parse::<u16>() {
            Ok(status) => Ok(LaneFault::Status(status)),
            Err(_) => Err(unread),
        },
        _ => Err(unread),
    }
}

/// What the log's reader answers to a call.
pub fn answer(words: &[&str], unread: CaseFault) -> Result<SinkAnswer, CaseFault> {
    match words {
        ["waits"] => Ok(SinkAnswer::Waits),
        ["fails"] => Ok(SinkAnswer::Fails),
        ["takes", most] => Ok(SinkAnswer::Takes(number(most, unread)? as usize)),
        _ => Err(unread),
    }
}

/// Which calls of a disk fail.
pub fn failing(words: &[&str], unread: CaseFault) -> Result<Failing, CaseFault> {
    match words {
        [] => Ok(Failing::Never),
        ["fails", "once", call] => Ok(Failing::Once(number(call, unread)?)),
        ["fails", "from", call] => Ok(Failing::From(number(call, unread)?)),
        _ => Err(unread),
    }
}

/// Readings of the clocks, one after the other.
#[derive(Clone, Copy)]
pub struct Stretch {
    /// What is read first; `None` where it cannot be read.
    pub first: Option<Reading>,
    /// How much later each next one is, in milliseconds.
    pub step: u64,
    pub count: u64,
}

/// The readings that a word says: `none`, or milliseconds, of the wall's clock and the elapsed one where they differ, how much later each
/// next one is, and how many they are, as in `1000000/5000+2000*3`.
pub fn readings(word: &str, unread: CaseFault) -> Result<Stretch, CaseFault> {
    let (word, count) = with_number(word, '*', 1, unread)?;
    let (word, step) = with_number(word, '+', 0, unread)?;
    let first = match word {
        "none" => None,
        word => Some(reading(word, unread)?),
    };
    Ok(Stretch { first, step, count })
}

/// What stands in front of a mark, and the number after it; `none` where there is no mark.
fn with_number(
    word: &str,
    mark: char,
    none: u64,
    unread: CaseFault,
) -> Result<(&str, u64), CaseFault> {
    match word.split_once(mark) {
        None => Ok((word, none)),
        Some((front, after)) => Ok((front, number(after, unread)?)),
    }
}

fn reading(word: &str, unread: CaseFault) -> Result<Reading, CaseFault> {
    let (wall, elapsed) = word.split_once('/').unwrap_or((word, word));
    Ok(Reading {
        wall: number(wall, unread)?,
        elapsed: number(elapsed, unread)?,
    })
}

impl Stretch {
    /// The one with that number, from 0.
    pub fn get(&self, number: u64) -> Option<Reading> {
        let Reading { wall, elapsed } = self.first?;
        let later = self.step.saturating_mul(number);
        Some(Reading {
            wall: wall.saturating_add(later),
            elapsed: elapsed.saturating_add(later),
        })
    }
}
