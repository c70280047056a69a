//! Changes that are served together.
ghost use Rattle.std.specs.Prelude.{◌≡◌, None, is_some};
ghost use Rattle.agent_standing.specs.Waiting.{change_due_at, changed, is_change_due};

use std::marker::Model;
use watch_machine::Millis;

/// Changes wait for others for so long, counted from the first, in milliseconds.
pub const TOGETHER: u64 = 5000;

/// Changes that wait to be served: when the first of them came, by the clock that never steps.
#[derive(Clone, Copy, Debug, PartialEq, Eq)]
pub struct Waiting {
    first: Option<Millis>,
}

impl Model for Waiting {
    ghost use Rattle.std.specs.Prelude.{Option, ℕ};

    ghost Value = { Option ℕ };

    ghost view = { λ w. w.first };

    ghost inverse = { λ first. record { first = first } };
}

impl Waiting {
    /// No change waits.
    pub fn none() -> Waiting
        ensures { result ≡ None }
    {
        Waiting { first: None }
    }

    /// After a change that comes now.
    pub fn changed(self, now: Millis) -> Waiting
        ensures { result ≡ changed self now }
    {
        match self.first {
            None => Waiting { first: Some(now) },
            Some(_) => self,
        }
    }

    /// Whether a change waits.
    pub fn is_some(self) -> bool
        ensures { result ≡ is_some self }
    {
        self.first.is_some()
    }

    /// Whether they are due: the first change came five seconds ago.
    pub fn is_due(self, now: Millis) -> bool
        ensures { result ≡ is_change_due self now }
    {
        match self.first {
            None => false,
            Some(first) => now.saturating_sub(first) >= TOGETHER,
        }
    }

    /// From when on the changes are due, where one waits.
    pub fn due_at(self) -> Option<Millis>
        ensures { result ≡ change_due_at self }
    {
        match self.first {
            None => None,
            Some(first) => Some(first.saturating_add(TOGETHER)),
        }
    }
}
