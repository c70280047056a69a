ghost use Rattle.std.specs.Prelude.{◌≡◌, ◌<◌, length, IfOk};
ghost use Rattle.tick_keeper.specs.code.Passes.{AreLeast};
ghost use Rattle.tick_keeper.specs.Shorten.{least_reach, lesser};

use base_moment::Moment;
use plan_forest::Forest;
use plan_rule::reach;
use std::alloc::{AllocError, Global};

/// The least reach from `at` of each entry, in seconds since 1970-01-01T00:00:00Z, `None` for no limit. One pass, since a
/// parent stands before its child. The only error is out of memory.
pub(crate) fn least_reaches(
    alloc: Global,
    forest: &Forest,
    at: Moment,
) -> Result<Vec<Option<u64>>, AllocError>
    ensures { IfOk result (λ reaches. AreLeast forest.now at (length forest.now.entries) reaches.items) }
{
    let mut reaches = Vec::new(alloc);
    for index in 0..forest.len() {
        let least = least_reach(forest, &reaches, index, at);
        reaches.push(least)?;
    }
    Ok(reaches)
}

/// The least reach of an entry, where `reaches` has those of the entries before it.
fn least_reach(forest: &Forest, reaches: &[Option<u64>], index: u32, at: Moment) -> Option<u64>
    requires within { index < length forest.now.entries }
    requires before { AreLeast forest.now at index reaches.now }
    ensures { result ≡ least_reach forest.now at index }
{
    let own = reach(forest, index, at);
    match forest.get(index).parent {
        None => own,
        Some(parent) => lesser(own, reaches[parent as usize]),
    }
}

/// The lesser of two reaches, of which `None` is without limit.
fn lesser(a: Option<u64>, b: Option<u64>) -> Option<u64>
    ensures { result ≡ lesser a b }
{
    match (a, b) {
        (None, b) => b,
        (Some(a), None) => Some(a),
        (Some(a), Some(b)) => Some(a.min(b)),
    }
}
