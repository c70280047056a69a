//! In which members an object of the log has the words of its event.
ghost use Rattle.std.specs.Prelude.{◌≡◌};
ghost use Rattle.base_log.specs.Keys.{has_end, has_names, has_reason, has_seconds, is_about_entry, is_change, is_trouble, key_name, key_of, number_key, shape, shape_of};

use crate::line::LineWord;

/// The key of a member.
#[derive(Clone, Copy, Debug, PartialEq, Eq)]
pub(crate) enum Key {
    /// The moment of a round.
    At,
    /// The name of an entry.
    Entry,
    /// The moment up to which an entry lives, or can be kept.
    End,
    /// For how many seconds an entry lives.
    Seconds,
    /// Until when an entry is needed.
    Until,
    /// Why.
    Reason,
    /// The status of a reply.
    Status,
    /// The margin of an agent that stands behind another, in seconds.
    Margin,
}

/// What the words of a line are, after the first if that has a key of its own.
#[derive(Clone, Copy, Debug, PartialEq, Eq)]
pub(crate) enum Rest {
    /// The names of entries.
    Names,
    /// Words for people.
    Message,
    /// One word, with this key.
    One(Key),
}

/// The members of a line: that of its first word, if that has a key of its own, and the rest.
#[derive(Clone, Copy, Debug, PartialEq, Eq)]
pub(crate) struct Shape {
    pub(crate) lead: Option<Key>,
    pub(crate) rest: Rest,
}

impl Shape {
    fn of(lead: Option<Key>, rest: Rest) -> Shape
        ensures { result ≡ shape lead rest }
    {
        Shape { lead, rest }
    }
}

impl Key {
    /// As it is written.
    pub(crate) fn name(self) -> &'static str
        ensures { result.now ≡ key_name self }
    {
        match self {
            Key::At => "at",
            Key::Entry => "entry",
            Key::End => "end",
            Key::Seconds => "seconds",
            Key::Until => "until",
            Key::Reason => "reason",
            Key::Status => "status",
            Key::Margin => "margin",
        }
    }

    /// The key of this word: a reason that is a number is the status of a reply.
    pub(crate) fn of(self, word: &LineWord) -> Key
        ensures { result ≡ key_of self word.now }
    {
        match word {
            LineWord::Text(_) | LineWord::Moment(_) => self,
            LineWord::Number(_) => self.of_number(),
        }
    }

    // The key of a number.
    fn of_number(self) -> Key
        ensures { result ≡ number_key self }
    {
        match self {
            Key::Reason => Key::Status,
            Key::At
            | Key::Entry
            | Key::End
            | Key::Seconds
            | Key::Until
            | Key::Status
            | Key::Margin => self,
        }
    }
}

/// The members of an event with so many words.
#[tactic(auto, unfolding(crate::specs::Keys::shape_of))]
pub(crate) fn shape_of(event: &str, count: usize) -> Shape
    ensures { result ≡ shape_of event.now count }
{
    if has_reason(event) {
        Shape::of(None, Rest::One(Key::Reason))
    } else if has_names(event) {
        Shape::of(None, Rest::Names)
    } else if event == "wake" {
        Shape::of(Some(Key::At), Rest::Names)
    } else if event == "next" {
        Shape::of(Some(Key::At), Rest::One(Key::Entry))
    } else if has_end(event) {
        Shape::of(Some(Key::Entry), Rest::One(Key::End))
    } else if has_seconds(event) {
        Shape::of(Some(Key::Entry), Rest::One(Key::Seconds))
    } else if event == "need" {
        Shape::of(Some(Key::Entry), Rest::One(Key::Until))
    } else if event == "behind" {
        Shape::of(None, Rest::One(Key::Margin))
    } else if is_about_entry(event, count) {
        Shape::of(Some(Key::Entry), Rest::One(Key::Reason))
    } else {
        Shape::of(None, Rest::Message)
    }
}

#[tactic(auto, unfolding(crate::specs::Keys::has_reason))]
fn has_reason(event: &str) -> bool
    ensures { result ≡ has_reason event.now }
{
    event == "begin" || event == "away"
}

#[tactic(auto, unfolding(crate::specs::Keys::has_names))]
fn has_names(event: &str) -> bool
    ensures { result ≡ has_names event.now }
{
    event == "look" || event == "renew"
}

#[tactic(auto, unfolding(crate::specs::Keys::has_end))]
fn has_end(event: &str) -> bool
    ensures { result ≡ has_end event.now }
{
    event == "entry" || event == "ended" || event == "top" || event == "short"
}

#[tactic(auto, unfolding(crate::specs::Keys::has_seconds))]
fn has_seconds(event: &str) -> bool
    ensures { result ≡ has_seconds event.now }
{
    event == "told" || event == "ahead"
}

fn is_about_entry(event: &str, count: usize) -> bool
    ensures { result ≡ is_about_entry event.now count }
{
    is_trouble(event) || is_change(event) || (event == "secret-file" && count > 1)
}

#[tactic(auto, unfolding(crate::specs::Keys::is_trouble))]
fn is_trouble(event: &str) -> bool
    ensures { result ≡ is_trouble event.now }
{
    event == "lost"
        || event == "refused"
        || event == "gone"
        || event == "orphan"
        || event == "never"
        || event == "steps-in"
}

#[tactic(auto, unfolding(crate::specs::Keys::is_change))]
fn is_change(event: &str) -> bool
    ensures { result ≡ is_change event.now }
{
    event == "replace" || event == "add" || event == "drop"
}
