ghost use Rattle.std.specs.Prelude.{◌≡◌};
ghost use Rattle.agent_house.specs.Awaiting.{addressed};
ghost use Rattle.agent_house.specs.Commands.{is_served};

use agent_log::Mark;
use base_moment::{Name, Text};
use state_changes::ChangeKind;

/// A need that a client gave, as long as it is not settled.
#[derive(Clone, Copy, Debug, PartialEq, Eq)]
pub struct GivenNeed {
    /// The index of its entry.
    pub entry: u32,
    /// Until when the entry is to be needed by the broker's clock, in seconds since 1970-01-01T00:00:00Z: 0 where it is not, and
    /// [`LAST`](base_moment::LAST) where it always is.
    pub until: u64,
    /// When it was given, in milliseconds of the clock that never steps.
    pub at: u64,
}

/// What a client that was set aside is told of a change that was carried out, or refused, as long as that is not settled.
#[derive(Debug, Drop)]
pub struct GivenAside {
    /// The number of the client, where it is to be told.
    pub client: Option<u64>,
    /// What it is sent then; `None` where memory was wanting for that.
    pub sent: Option<Text>,
    /// When the change was carried out, in milliseconds of the clock that never steps.
    pub at: u64,
}

/// What was given to the loop last, as long as it is not settled.
#[derive(Debug, Drop)]
pub enum Given {
    /// A need, whose client is told once it is made.
    Need(GivenNeed),
    /// What a client asked for was carried out, or refused.
    Answer {
        /// What it is sent then; `None` where memory was wanting for that.
        sent: Option<Text>,
        /// When it was carried out, in milliseconds of the clock that never steps.
        at: u64,
    },
    /// The same of a client that was set aside.
    Aside(GivenAside),
    /// Another inventory, and marks for its entries.
    Served(Vec<Mark>),
    /// The inventory that is served already.
    Unchanged,
}

/// A change of a client's that is made once the credential was looked up that it brings.
#[derive(Drop)]
pub struct Awaited {
    /// The number of the client, where it is to be told.
    pub client: Option<u64>,
    /// The name of the entry.
    pub name: Name,
    pub what: ChangeKind,
}

/// Whether another inventory was given last.
pub(crate) fn is_served(given: &Option<Given>) -> bool
    ensures { result ≡ is_served given.now }
{
    match given {
        Some(Given::Served(_)) => true,
        Some(Given::Need(_) | Given::Answer { .. } | Given::Aside(_) | Given::Unchanged) | None =>
            false,
    }
}

/// An answer is for this client, which was set aside.
pub(crate) fn addressed(given: Option<Given>, client: Option<u64>) -> Option<Given>
    ensures { result ≡ addressed client given }
{
    match given {
        Some(Given::Answer { sent, at }) => Some(Given::Aside(GivenAside { client, sent, at })),
        other => other,
    }
}
