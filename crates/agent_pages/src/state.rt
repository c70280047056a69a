//! What an operator has to know of an entry, in one word.
ghost use Rattle.std.specs.Prelude.{◌≡◌};
ghost use Rattle.agent_pages.specs.States.{is_kept, state_of, state_word, tried_state};

use agent_standing::Condition;

/// What an operator has to know of an entry, the gravest first.
#[derive(Clone, Copy, Debug, PartialEq, Eq)]
pub enum EntryState {
    /// The broker does not know it, or refuses to look it up.
    Gone,
    /// Its end is past.
    Ended,
    /// The inventory names it, and it is not served yet: it waits for its credential, or for that of a token over it.
    Waiting,
    /// It cannot be kept as long as it is needed.
    Short,
    /// Nothing is known of it yet.
    Unknown,
    /// The last request of it failed and is tried again.
    Trying,
    /// Nothing is wrong.
    Kept,
}

impl EntryState {
    /// As it is told.
    pub(crate) fn word(self) -> &'static str
        ensures { result.now ≡ state_word self }
    {
        match self {
            EntryState::Gone => "gone",
            EntryState::Ended => "ended",
            EntryState::Waiting => "waiting",
            EntryState::Short => "short",
            EntryState::Unknown => "unknown",
            EntryState::Trying => "trying",
            EntryState::Kept => "kept",
        }
    }

    /// Whether an entry in it is kept: it lives and nothing is wrong, or it is asked again.
    pub(crate) fn is_kept(self) -> bool
        ensures { result ≡ is_kept self }
    {
        matches!(self, EntryState::Trying | EntryState::Kept)
    }
}

/// The state of an entry that is served, by its condition and its end.
pub(crate) fn state_of(condition: Condition, end: Option<u64>) -> EntryState
    ensures { result ≡ state_of condition end }
{
    match condition {
        Condition::Gone => EntryState::Gone,
        Condition::Ended => EntryState::Ended,
        Condition::Short => EntryState::Short,
        Condition::Trying => tried_state(end),
        Condition::Kept => EntryState::Kept,
    }
}

/// The state of an entry of which a request failed, or which was never asked for.
fn tried_state(end: Option<u64>) -> EntryState
    ensures { result ≡ tried_state end }
{
    match end {
        None => EntryState::Unknown,
        Some(_) => EntryState::Trying,
    }
}
