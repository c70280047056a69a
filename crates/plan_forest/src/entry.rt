ghost use Rattle.std.specs.Prelude.{◌≡◌};
ghost use Rattle.plan_forest.specs.Push.{is_lease};

use base_moment::Name;

/// What an entry is: a token, or a lease that was created with one.
///
/// Source: Vault, "Tokens"; Vault, "Lease, renew, and revoke".
#[derive(Clone, Copy, Debug, PartialEq, Eq)]
pub enum Kind {
    /// A service token.
    Token,
    /// A lease of a secret, which ends with the token that it was created with.
    Lease,
}

impl Kind {
    /// Whether it is a lease.
    pub fn is_lease(self) -> bool
        ensures { result ≡ is_lease self }
    {
        match self {
            Kind::Token => false,
            Kind::Lease => true,
        }
    }
}

/// A token or a lease, as the agent keeps it. Moments are seconds since 1970-01-01T00:00:00Z, durations seconds.
///
/// Source: Vault, "Tokens" (TTL, child tokens, period, explicit max TTL); Vault, "Lease, renew, and revoke" (increment,
/// maximum TTL). The need is this project's own.
#[derive(Clone, Debug, PartialEq, Eq, Drop)]
pub struct Entry {
    /// The name, which no other entry of the forest has.
    pub name: Name,
    pub kind: Kind,
    /// The index of the token that this one is a child of, or that the lease belongs to; `None` for an orphan.
    pub parent: Option<u32>,
    /// The moment at which it ends unless it is renewed.
    pub end: u64,
    /// Whether it can be renewed at all.
    pub renewable: bool,
    /// How long after a renewal it ends: the period of a periodic token, else the increment that is asked for.
    pub step: u32,
    /// The moment past which no renewal leads (the maximum TTL counted from the issue), `None` where there is none.
    pub ceiling: Option<u64>,
    /// The moment until which it is needed, 0 where it is not.
    pub need: u64,
}
