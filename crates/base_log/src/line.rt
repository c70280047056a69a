use crate::level::Level;
use base_moment::{Moment, Text};

/// A word of a line.
#[derive(Debug, Drop)]
pub enum LineWord {
    /// A name, or words for people.
    Text(Text),
    /// A number.
    Number(u64),
    /// A moment: a date for people, and its seconds in JSON.
    Moment(Moment),
}

/// A line of the log: an event with its moment.
#[derive(Debug, Drop)]
pub struct LogLine {
    /// When it happened.
    pub moment: Moment,
    /// How much it matters.
    pub level: Level,
    /// What happened, in one word.
    pub event: &'static str,
    /// What belongs to it: names and numbers, never a credential.
    pub words: Vec<LineWord>,
}
