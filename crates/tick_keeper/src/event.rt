use plan_forest::Indices;

/// What happens to a keeper: the clock, an answer to a renewal that it asked for, or a need of the application. Moments are
/// seconds since 1970-01-01T00:00:00Z.
#[derive(Clone, Copy, Debug, PartialEq, Eq)]
pub enum Event {
    /// It is this moment now.
    Tick(u64),
    /// Entry `i` was renewed: it ends so many seconds after its round's moment, and can be renewed again or not.
    Told {
        i: u32,
        seconds: u64,
        renewable: bool,
    },
    /// The renewal of this entry was refused.
    Refused(u32),
    /// No answer came for this entry, or none that could be read.
    Lost(u32),
    /// Entry `i` is needed until that moment.
    Need {
        i: u32,
        until: u64,
    },
}

/// What a keeper answers to an event that it does not refuse. Moments are seconds since 1970-01-01T00:00:00Z.
#[derive(Debug, Drop)]
pub enum Output {
    /// Nothing is to be done before this moment.
    Sleep(u64),
    /// Nothing is to be done any more.
    Idle,
    /// These entries are to be renewed now, and their answers handed in: a round is open.
    Ask(Indices),
    /// The answer was taken; the round waits for others.
    Waiting,
    /// The round is closed; the next wake-up is at this moment, `None` where there is none.
    Round { next: Option<u64> },
    /// The new need is in force.
    Planned,
}
