ghost use Rattle.std.specs.Prelude.{◌≡◌};
ghost use Rattle.vault_inventory.specs.Needs.{has_always, until};

use base_moment::Moment;

/// Until when an entry is needed.
#[derive(Clone, Copy, Debug, PartialEq, Eq)]
pub enum Need {
    /// Until this moment.
    Until(Moment),
    /// As long as it can be kept.
    Always,
}

impl Need {
    /// Its moment, in seconds since 1970-01-01T00:00:00Z; 0, which is no need, where it has none of its own.
    pub fn until(self) -> u64
        ensures { result ≡ until self }
    {
        match self {
            Need::Until(moment) => moment.get(),
            Need::Always => 0,
        }
    }

    /// Whether it is as long as the entry can be kept.
    pub fn is_always(self) -> bool
        ensures { result ≡ has_always self }
    {
        match self {
            Need::Until(_) => false,
            Need::Always => true,
        }
    }
}
