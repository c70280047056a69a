ghost use Rattle.std.specs.Prelude.{◌≡◌};

use crate::event::Operation;
use crate::notes::Notes;
use crate::reading::Millis;
use std::marker::Model;

/// How long a connect, a write and the first read of a request may take in all.
#[derive(Clone, Copy, Debug, PartialEq, Eq)]
pub enum Patience {
    /// The time-out of whoever sends it.
    Full,
    /// The lesser of that and so many milliseconds.
    AtMost(u64),
}

/// A request that goes out: the index of its entry, what is asked, and for how long.
#[derive(Clone, Copy, Debug, PartialEq, Eq)]
pub struct WatchRequest {
    pub entry: u32,
    pub operation: Operation,
    pub patience: Patience,
}

/// A list of requests, in the order in which they go out.
#[derive(Debug, Drop)]
pub struct Requests {
    pub(crate) items: Vec<WatchRequest>,
}

impl Model for Requests {
    ghost use Rattle.std.specs.Prelude.{List};
    ghost use Rattle.watch_machine.specs.declared.command.WatchRequest.{WatchRequest};

    ghost Value = { List WatchRequest };

    ghost view = { λ x. x.items.items };
}

impl Requests {
    /// The requests in order.
    pub fn list(&self) -> &[WatchRequest]
        ensures { result.now ≡ self.now }
    {
        &self.items
    }

    /// The same as a vector.
    pub fn into_vec(self) -> Vec<WatchRequest>
        ensures { result.items ≡ self }
    {
        self.items
    }
}

/// What is to be done now.
#[derive(Debug, Drop)]
pub enum WatchCommand {
    /// These requests go out at once, each by itself; there may be none. And nothing else is to be done before this moment of
    /// the clock that never steps, in phase with the wall's seconds, but to take answers and changes as they come.
    Go { requests: Requests, until: Millis },
    /// The event is taken. Only a clock is answered by more.
    Taken,
}

/// What a step gives: a command, and what is to be noted.
#[derive(Debug, Drop)]
pub struct WatchOutput {
    pub command: WatchCommand,
    pub notes: Notes,
}
