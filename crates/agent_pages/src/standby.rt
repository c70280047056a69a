//! How an agent stands to others that serve the same inventory.
ghost use Rattle.std.specs.Prelude.{◌≡◌};
ghost use Rattle.agent_pages.specs.Standby.{begun_standby, standby_word};

/// How an agent stands to others that serve the same inventory, and what it has done behind another since its start.
#[derive(Clone, Copy, Debug, PartialEq, Eq)]
pub struct Standby {
    /// Whether it stands behind another.
    pub is_behind: bool,
    /// How many later ends it found by looking ahead.
    pub looked_ahead: u64,
    /// How often it stepped in for the one in front.
    pub stepped_in: u64,
}

impl Standby {
    /// How an agent stands that has done nothing yet.
    pub fn new(is_behind: bool) -> Standby
        ensures { result ≡ begun_standby is_behind }
    {
        Standby {
            is_behind,
            looked_ahead: 0,
            stepped_in: 0,
        }
    }

    /// As it is told.
    pub(crate) fn word(self) -> &'static str
        ensures { result.now ≡ standby_word self.is_behind }
    {
        if self.is_behind { "behind" } else { "first" }
    }
}
