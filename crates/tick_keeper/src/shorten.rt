ghost use Rattle.std.specs.Prelude.{◌≡◌, ◌<◌, length, IfOk};
ghost use Rattle.tick_keeper.specs.code.Passes.{AreLeast, AreNeeds, ForestHasNeeds, forest_with_needs, shorter};
ghost use Rattle.tick_keeper.specs.Shorten.{need_left, pairs};

use crate::shortened::ShortNeed;
use base_moment::Moment;
use plan_forest::Forest;
use std::alloc::{AllocError, Global};

/// The needs that are shortened at `at`, by index, where the entries have these least reaches.
pub(crate) fn pairs(
    alloc: Global,
    forest: &Forest,
    reaches: &[Option<u64>],
    at: Moment,
) -> Result<Vec<ShortNeed>, AllocError>
    requires { AreLeast forest.now at (length forest.now.entries) reaches.now }
    ensures { IfOk result (λ list. list.items ≡ pairs forest.now at) }
{
    let mut list = Vec::new(alloc);
    for entry in 0..forest.len() {
        let need = forest.get(entry).need;
        if let Some(need) = shorter(at, reaches[entry as usize], need) {
            list.push(ShortNeed { entry, need })?;
        }
    }
    Ok(list)
}

/// What a need is shortened to, `None` where it is not: it comes after `at` and is greater than the reach.
#[tactic(auto, unfolding(crate::specs::code::Passes::shorter))]
fn shorter(at: Moment, reach: Option<u64>, need: u64) -> Option<u64>
    ensures { result ≡ shorter at reach need }
{
    match reach {
        None => None,
        Some(most) => {
            if at.get() < need && most < need {
                Some(most)
            } else {
                None
            }
        }
    }
}

/// The needs of all entries after shortening at `at`, where they have these least reaches.
pub(crate) fn needs_left(
    alloc: Global,
    forest: &Forest,
    reaches: &[Option<u64>],
    at: Moment,
) -> Result<Vec<Moment>, AllocError>
    requires { AreLeast forest.now at (length forest.now.entries) reaches.now }
    ensures { IfOk result (λ needs. AreNeeds (length forest.now.entries) (need_left forest.now at) needs.items) }
{
    let mut needs = Vec::new(alloc);
    for index in 0..forest.len() {
        let need = forest.get(index).need;
        let left = shorter(at, reaches[index as usize], need).unwrap_or(need);
        needs.push(Moment::new(left).unwrap())?;
    }
    Ok(needs)
}

/// The needs of all entries.
pub(crate) fn needs_of(alloc: Global, forest: &Forest) -> Result<Vec<Moment>, AllocError>
    ensures { IfOk result (λ needs. ForestHasNeeds forest.now needs.items) }
{
    let mut needs = Vec::new(alloc);
    for index in 0..forest.len() {
        needs.push(Moment::new(forest.get(index).need).unwrap())?;
    }
    Ok(needs)
}

/// Gives the entries these needs.
pub(crate) fn set_needs(forest: &mut Forest, needs: &[Moment])
    requires { length needs.now ≡ length forest.old.entries }
    ensures { forest.new ≡ forest_with_needs forest.old needs.now }
{
    for index in 0..forest.len() {
        forest.set_need(index, needs[index as usize]);
    }
}
