ghost use Rattle.std.specs.Prelude.{◌≡◌, ℕ, ◌<◌, length, nat_lt, IfOk};
ghost use Rattle.plan_forest.specs.Forest.{end_of};
ghost use Rattle.plan_forest.specs.Renewal.{renewed};
ghost use Rattle.plan_rule.specs.Asks.{asks, is_end_due};
ghost use Rattle.plan_needs.specs.Carried.{IsCarried, load_at};
ghost use Rattle.plan_search.specs.code.Wanted.{is_test, waits_until};

use base_moment::Moment;
use plan_forest::{Forest, Indices};
use plan_needs::Carried;
use plan_rule::granted_end;
use std::alloc::{AllocError, Global};

/// The Asks at `at`, where the next moment is `next`, `None` for none, and the entries carry `carried`: one pass over the
/// entries, and a look at those that are over each that cannot wait. The only error is out of memory.
pub fn asks_before(
    alloc: Global,
    forest: &Forest,
    carried: &Carried,
    at: Moment,
    next: Option<Moment>,
) -> Result<Indices, AllocError>
    requires { length carried.now ≡ length forest.now.entries }
    ensures { IfOk result (λ asked. (s : ℕ) → IsCarried forest.now s carried.now → asked ≡ asks forest.now.entries forest.now.margin s (end_of forest.now.entries) at next) }
{
    let until = waits_until(forest.margin(), next);
    let mut asked = Vec::new(alloc);
    for index in 0..forest.len() {
        if is_wanted(forest, carried, index, at, until) {
            asked.push(index)?;
        }
    }
    Ok(Indices::from_vec(asked))
}

/// Until when an end has to last so that its entry can wait for the next moment, `None` where there is none.
fn waits_until(margin: u32, next: Option<Moment>) -> Option<u64>
    ensures { result ≡ waits_until margin next }
{
    match next {
        None => None,
        Some(next) => Some(next.plus(margin)),
    }
}

/// Whether the entry is to be asked at `at`: it ends before the need that it carries, cannot wait, since it ends before
/// `until`, and gains by a renewal; so it can be renewed, and is alive.
fn is_wanted(forest: &Forest, carried: &Carried, index: u32, at: Moment, until: Option<u64>) -> bool
    requires within { index < length forest.now.entries }
    requires carried { length carried.now ≡ length forest.now.entries }
    ensures { result ≡ is_test forest.now carried.now at until index }
{
    ends_too_soon(forest, carried, index)
        && is_before(forest, index, until)
        && gains(forest, index, at)
}

/// Whether the entry ends before the need that it carries.
#[tactic(auto, unfolding(plan_forest::specs::Forest::end_of))]
fn ends_too_soon(forest: &Forest, carried: &Carried, index: u32) -> bool
    requires within { index < length forest.now.entries }
    requires carried { length carried.now ≡ length forest.now.entries }
    ensures { result ≡ nat_lt (end_of forest.now.entries index) (load_at carried.now index).need }
{
    forest.get(index).end < carried.need(index)
}

/// Whether a renewal at `at` gives the entry a later end.
#[tactic(auto, unfolding(plan_forest::specs::Forest::end_of))]
fn gains(forest: &Forest, index: u32, at: Moment) -> bool
    requires { index < length forest.now.entries }
    ensures { result ≡ nat_lt (end_of forest.now.entries index) (renewed forest.now.entries forest.now.margin (end_of forest.now.entries) at index) }
{
    forest.get(index).end < granted_end(forest, index, at)
}

/// Whether the end of the entry comes before that moment; it does where there is none.
#[tactic(auto, unfolding(plan_forest::specs::Forest::end_of))]
fn is_before(forest: &Forest, index: u32, until: Option<u64>) -> bool
    requires { index < length forest.now.entries }
    ensures { result ≡ is_end_due 0 until (end_of forest.now.entries index) }
{
    match until {
        None => true,
        Some(until) => forest.get(index).end < until,
    }
}
