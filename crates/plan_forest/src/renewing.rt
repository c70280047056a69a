ghost use Rattle.std.specs.Prelude.{◌≡◌, ◌≤◌};
ghost use Rattle.base_moment.specs.declared.moment.TheConstants.{LAST};
ghost use Rattle.plan_forest.specs.Renewal.{capped, renewal};

use crate::entry::Entry;

/// The end that a granted renewal at `at` gives: `at` and the entry's step, or its ceiling where that comes sooner. All are
/// seconds since 1970-01-01T00:00:00Z, and `at` is at most `base_moment::LAST`.
///
/// Source: Vault, "Lease, renew, and revoke" (a renewal counts from now; maximum TTL); Vault, "Tokens" (period, explicit
/// max TTL).
#[tactic(auto, unfolding(crate::specs::Renewal::renewal))]
pub fn renewal(entry: &Entry, at: u64) -> u64
    requires { at ≤ LAST }
    ensures { result ≡ renewal entry.now at }
{
    capped(entry.ceiling, at + entry.step as u64)
}

/// An end, or the ceiling where there is one and it comes sooner.
#[tactic(auto, unfolding(crate::specs::Renewal::capped))]
pub fn capped(ceiling: Option<u64>, end: u64) -> u64
    ensures { result ≡ capped ceiling end }
{
    match ceiling {
        None => end,
        Some(ceiling) => end.min(ceiling),
    }
}
