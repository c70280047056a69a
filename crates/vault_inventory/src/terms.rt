ghost use Rattle.std.specs.Prelude.{◌≡◌, ◌≤◌, IfSome};
ghost use Rattle.plan_forest.specs.declared.forest.TheConstants.{END_MAX};
ghost use Rattle.vault_inventory.specs.Terms.{step_of, ceiling_of, max_ttl_of};

use base_moment::{Moment, Span};

/// On what terms an entry is renewed. Durations are in seconds.
///
/// Source: Vault, "Tokens" (period, explicit max TTL); Vault, "Lease, renew, and revoke" (maximum TTL).
#[derive(Clone, Copy, Debug, PartialEq, Eq)]
pub struct Terms {
    /// The moment of its issue, from which its maximum TTLs count.
    pub issued: Moment,
    /// The increment that is written, also beside a period.
    pub increment: Option<Span>,
    /// The period of a periodic token, else 0.
    pub period: Span,
    /// The maximum TTL.
    pub max_ttl: Span,
    /// The explicit max TTL, 0 where none is set.
    pub explicit_max: Span,
    /// Whether another program issues it again in time, and hands in the new credential.
    pub reissued: bool,
}

impl Terms {
    /// What a renewal asks for: the period where it is not 0, else the increment.
    pub fn step(&self) -> Span
        ensures { result ≡ step_of self.now }
    {
        if self.period == 0 {
            self.increment.unwrap_or(0)
        } else {
            self.period
        }
    }

    /// The moment past which no renewal leads, in seconds since 1970-01-01T00:00:00Z; `None` where there is none.
    pub fn ceiling(&self) -> Option<u64>
        ensures value { result ≡ ceiling_of self.now }
        ensures within { IfSome result (λ c. c ≤ END_MAX) }
    {
        if self.period == 0 {
            let explicit = 0 < self.explicit_max && self.explicit_max < self.max_ttl;
            if explicit {
                Some(self.issued.plus(self.explicit_max))
            } else {
                Some(self.issued.plus(self.max_ttl))
            }
        } else if self.explicit_max == 0 {
            None
        } else {
            Some(self.issued.plus(self.explicit_max))
        }
    }
}

/// The maximum TTL that is written, or the system's where that is 0 or absent.
pub(crate) fn max_ttl(system_max: Span, written: Option<Span>) -> Span
    ensures { result ≡ max_ttl_of system_max written }
{
    match written {
        None | Some(0) => system_max,
        Some(longest) => longest,
    }
}
