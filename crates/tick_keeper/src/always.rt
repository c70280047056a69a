//! Needs that last as long as an entry can be kept.
ghost use Rattle.std.specs.Prelude.{◌≡◌, ◌<◌, IfOk, length, min};
ghost use Rattle.base_moment.specs.declared.moment.TheConstants.{LAST};
ghost use Rattle.plan_forest.specs.Forest.{entry_at};
ghost use Rattle.tick_keeper.specs.Always.{AlwaysLaw, NeverLaw, need_from, needs_from, until_reach};
ghost use Rattle.tick_keeper.specs.code.Passes.{AreLeast};

use crate::least::least_reaches;
use base_moment::{LAST, Moment};
use plan_forest::Forest;
use std::alloc::{AllocError, Global};

/// How long an entry is needed always that nothing limits, in seconds: a year.
pub const YEAR: u64 = 31_536_000;

/// The needs of all entries from `start` on, where `always` marks those that are needed as long as they can be kept: of a marked
/// entry the least reach over it, or a year from `start` where nothing limits it, and no later than the last moment; of another
/// its own. `always` has a place for each entry.
///
/// The only error is out of memory.
pub fn needs_always(
    alloc: Global,
    forest: &Forest,
    always: &[bool],
    start: Moment,
) -> Result<Vec<Moment>, AllocError>
    requires { length always.now ≡ length forest.now.entries }
    ensures { IfOk result (λ needs. needs.items ≡ needs_from forest.now always.now start) }
{
    let reaches = least_reaches(alloc, forest, start)?;
    needs_from(alloc, forest, &reaches, always, start)
}

/// The needs of all entries from `start` on, where they have these least reaches.
#[tactic(auto, unfolding(crate::specs::Always::needs_from))]
fn needs_from(
    alloc: Global,
    forest: &Forest,
    reaches: &[Option<u64>],
    always: &[bool],
    start: Moment,
) -> Result<Vec<Moment>, AllocError>
    requires least { AreLeast forest.now start (length forest.now.entries) reaches.now }
    requires places { length always.now ≡ length forest.now.entries }
    ensures { IfOk result (λ needs. needs.items ≡ needs_from forest.now always.now start) }
{
    let mut needs = Vec::new(alloc);
    for index in 0..forest.len() {
        needs.push(need_from(forest, reaches, always, index, start))?;
    }
    Ok(needs)
}

/// The need of an entry from `start` on, where the entries have these least reaches.
#[tactic(auto, unfolding(crate::specs::Always::need_from))]
fn need_from(
    forest: &Forest,
    reaches: &[Option<u64>],
    always: &[bool],
    index: u32,
    start: Moment,
) -> Moment
    requires within { index < length forest.now.entries }
    requires least { AreLeast forest.now start (length forest.now.entries) reaches.now }
    requires places { length always.now ≡ length forest.now.entries }
    ensures { result ≡ need_from forest.now always.now start index }
{
    if always[index as usize] {
        until_reach(reaches[index as usize], start)
    } else {
        own_need(forest, index)
    }
}

/// Until when an entry is needed always that reaches so far, `None` for no limit.
fn until_reach(reach: Option<u64>, start: Moment) -> Moment
    ensures { result ≡ until_reach reach start }
{
    match reach {
        None => no_later_than_last(start.get() + YEAR),
        Some(most) => no_later_than_last(most),
    }
}

/// This moment, or the last one where it comes after that.
fn no_later_than_last(until: u64) -> Moment
    ensures { result ≡ min until LAST }
{
    Moment::new(until.min(LAST)).unwrap()
}

/// The need of an entry as it stands.
fn own_need(forest: &Forest, index: u32) -> Moment
    requires { index < length forest.now.entries }
    ensures { result ≡ (entry_at forest.now.entries index).need }
{
    Moment::new(forest.get(index).need).unwrap()
}

/// The law that a need that is `always` is never too long: planning does not shorten it, and where nothing else is needed, some
/// plan keeps every entry; the forest is one as before.
pub fn always_law()
    ensures always { AlwaysLaw }
    ensures never { NeverLaw }
{}
