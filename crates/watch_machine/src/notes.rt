ghost use Rattle.std.specs.Prelude.{◌≡◌};
ghost use Rattle.watch_machine.specs.Step.{nothing_noted};

use plan_forest::Indices;

/// Why everything is looked up anew.
#[derive(Clone, Copy, Debug, PartialEq, Eq)]
pub enum BeginReason {
    /// It is the first clock.
    Start,
    /// It was asked for.
    Asked,
    /// The wall's clock has stepped.
    Jump,
    /// The last time is a day ago.
    Day,
}

/// Whether the broker answers.
#[derive(Clone, Copy, Debug, PartialEq, Eq)]
pub enum Link {
    /// It answers no more.
    Away,
    /// It answers again.
    Back,
}

/// What is to be noted of a step. What is said of an entry is said of the event's.
#[derive(Debug, Drop)]
pub struct Notes {
    /// Everything is looked up anew.
    pub began: Option<BeginReason>,
    /// A round opened: the entries that it asks, by index.
    pub round: Option<Indices>,
    /// The broker does not know the entry: the status.
    pub gone: Option<u16>,
    /// The entry is led no further: its end, in whole seconds of the clock that never steps.
    pub top: Option<u64>,
    /// The token has no parent, though the inventory names one.
    pub orphan: bool,
    /// The token never ends.
    pub endless: bool,
    /// The broker went away, or came back.
    pub link: Option<Link>,
}

impl Notes {
    /// Nothing is to be noted.
    pub(crate) fn none() -> Notes
        ensures { result ≡ nothing_noted }
    {
        Notes {
            began: None,
            round: None,
            gone: None,
            top: None,
            orphan: false,
            endless: false,
            link: None,
        }
    }
}
