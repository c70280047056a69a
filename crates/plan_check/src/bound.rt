ghost use Rattle.std.specs.Prelude.{◌≡◌, ℕ, ◌<◌, ◌≤◌, Some, None, IfSome};
ghost use Rattle.base_moment.specs.declared.moment.TheConstants.{LAST};
ghost use Rattle.plan_rule.specs.Forced.{latest_end};
ghost use Rattle.plan_check.specs.code.Steps.{LongFrom};

use plan_forest::{Entry, renewal};

/// The latest end that the entry can have after a wake-up at `previous`; its present end before any.
#[tactic(auto, unfolding(plan_rule::specs::Forced::latest_end))]
pub(crate) fn latest_end(entry: &Entry, previous: Option<u64>) -> u64
    requires { IfSome previous (λ t. t ≤ LAST) }
    ensures { result ≡ latest_end entry.now entry.now.end previous }
{
    match previous {
        None => entry.end,
        Some(at) => {
            if entry.renewable {
                entry.end.max(renewal(entry, at))
            } else {
                entry.end
            }
        }
    }
}

/// The least moment from which on a wake-up leads the entry up to `need`; `None` where none does.
pub(crate) fn long_from(entry: &Entry, need: u64) -> Option<u64>
    requires { entry.now.end < need }
    ensures found { IfSome result (λ top. LongFrom entry.now need top × (top ≤ need)) }
    ensures none { result ≡ None → (t : ℕ) → latest_end entry.now entry.now.end (Some t) < need }
{
    if !entry.renewable {
        return None;
    }
    let top = need.saturating_sub(entry.step as u64);
    match entry.ceiling {
        None => Some(top),
        Some(ceiling) => { if ceiling < need { None } else { Some(top) } }
    }
}
