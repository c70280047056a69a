ghost use Rattle.std.specs.Prelude.{◌≡◌, ◌<◌, length};
ghost use Rattle.plan_forest.specs.Forest.{end_of};
ghost use Rattle.plan_forest.specs.Renewal.{all_last, is_granted, renewed};
ghost use Rattle.plan_rule.specs.Reach.{reach, reach_of};

use base_moment::Moment;
use plan_forest::{Entry, Forest, renewal};

/// The end, in seconds since 1970-01-01T00:00:00Z, that the entry at `index` has after it was asked at `at`, by the
/// present ends: `at` and its step, at most its ceiling, where it is renewable and every entry over it ends the margin
/// after `at` or later; else its end as it is.
///
/// Source: Vault, "Lease, renew, and revoke" (a renewal counts from now; maximum TTL); Vault, "Tokens" (period, explicit
/// max TTL).
#[tactic(auto, unfolding(plan_forest::specs::Renewal::renewed, plan_forest::specs::Forest::end_of))]
pub fn granted_end(forest: &Forest, index: u32, at: Moment) -> u64
    requires { index < length forest.now.entries }
    ensures { result ≡ renewed forest.now.entries forest.now.margin (end_of forest.now.entries) at index }
{
    if is_granted(forest, index, at) {
        renewal(forest.get(index), at.get())
    } else {
        forest.get(index).end
    }
}

/// Whether the present ends let a renewal at `at` be granted.
#[tactic(auto, unfolding(plan_forest::specs::Renewal::is_granted))]
fn is_granted(forest: &Forest, index: u32, at: Moment) -> bool
    requires { index < length forest.now.entries }
    ensures { result ≡ is_granted forest.now.entries forest.now.margin (end_of forest.now.entries) at index }
{
    forest.get(index).renewable && all_last(forest, index, at.plus(forest.margin()))
}

/// Whether the entry and every one over it end at `moment` or later.
fn all_last(forest: &Forest, index: u32, moment: u64) -> bool
    requires { index < length forest.now.entries }
    ensures { result ≡ all_last forest.now.entries (end_of forest.now.entries) moment index }
{
    let entry = forest.get(index);
    if entry.end < moment {
        return false;
    }
    match entry.parent {
        None => true,
        Some(parent) => all_last(forest, parent, moment),
    }
}

/// How far renewals from `start` on can lead the entry at `index`, in seconds since 1970-01-01T00:00:00Z; `None` where
/// there is no limit.
///
/// Source: Vault, "Lease, renew, and revoke" (maximum TTL); Vault, "Tokens" (explicit max TTL, period).
#[tactic(auto, unfolding(crate::specs::Reach::reach, plan_forest::specs::Forest::end_of))]
pub fn reach(forest: &Forest, index: u32, start: Moment) -> Option<u64>
    requires { index < length forest.now.entries }
    ensures { result ≡ reach forest.now.entries forest.now.margin start (end_of forest.now.entries) index }
{
    reach_of(forest.get(index), forest.margin(), start)
}

#[tactic(auto, unfolding(crate::specs::Reach::reach_of))]
fn reach_of(entry: &Entry, margin: u32, start: Moment) -> Option<u64>
    ensures { result ≡ reach_of entry.now margin start entry.now.end }
{
    if entry.renewable && start.plus(margin) <= entry.end {
        entry.ceiling.map(|ceiling| entry.end.max(ceiling))
    } else {
        Some(entry.end)
    }
}
