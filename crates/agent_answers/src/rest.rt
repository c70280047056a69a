//! How the pages of onlookers are spread over time, so that those that ask in a loop cannot take all of it.
ghost use Rattle.std.specs.Prelude.{◌≡◌, nat_le, Some, None};
ghost use Rattle.agent_answers.specs.Resting.{rest_before, rest_length};

/// The longest rest after a page, in milliseconds.
pub const MOST_REST: u64 = 500;

/// How many times as long as a page took the rest after it is.
const TIMES: u64 = 9;

/// When the next page may be made. After a page none is made for nine times as long as it took, and for half a second at most: so
/// pages take a tenth of the time, whatever the fleet and the machine. Moments are in milliseconds of a clock that never steps.
#[derive(Clone, Copy, Debug, PartialEq, Eq)]
pub struct Rest {
    /// No page is made before this moment.
    pub until: u64,
    /// When the last page was begun, until the turn after it tells how long it took.
    pub begun: Option<u64>,
}

impl Rest {
    /// No page was made yet.
    pub const fn none() -> Rest
        ensures { result ≡ record { until = 0; begun = None } }
    {
        Rest {
            until: 0,
            begun: None,
        }
    }

    /// Where the last call made a page, the rest after it begins.
    pub fn go_on(&mut self, now: u64)
        ensures { self.new ≡ rest_before now self.old }
    {
        let Some(begun) = self.begun else {
            return;
        };
        *self = Rest {
            until: now.saturating_add(length(begun, now)),
            begun: None,
        };
    }

    /// Whether a page may be made now.
    pub const fn is_over(&self, now: u64) -> bool
        ensures { result ≡ nat_le self.now.until now }
    {
        self.until <= now
    }

    /// A page is made now.
    pub const fn page_begins(&mut self, now: u64)
        ensures { self.new ≡ record self.old { begun = Some now } }
    {
        self.begun = Some(now);
    }
}

/// How long the rest after a page is. A page that took less than a millisecond counts as one.
fn length(begun: u64, now: u64) -> u64
    ensures { result ≡ rest_length begun now }
{
    let took = now.saturating_sub(begun).min(MOST_REST) + 1;
    (TIMES * took).min(MOST_REST)
}
