ghost use Rattle.std.specs.Prelude.{◌≡◌, ◌⊎◌, ◌<◌, length};
ghost use Rattle.plan_commands.specs.ReachText.{binding_reach, nearer};

use base_moment::Moment;
use plan_forest::Forest;
use plan_rule::reach;

/// Until when an entry can live, and what binds it.
#[derive(Clone, Copy, Debug)]
pub(crate) struct Bound {
    /// The least reach over the entry, in seconds since 1970-01-01T00:00:00Z; `None` where there is no limit.
    pub most: Option<u64>,
    /// The lowest entry over it whose reach that is; itself where there is no limit.
    pub by: u32,
}

/// What binds the entry at `index` from `start` on.
pub(crate) fn bound_of(forest: &Forest, start: Moment, index: u32) -> Bound
    requires { index < length forest.now.entries }
    ensures value { result ≡ binding_reach forest.now start index }
    ensures within { result.by < length forest.now.entries }
{
    let most = reach(forest, index, start);
    let own = Bound { most, by: index };
    match forest.get(index).parent {
        None => own,
        Some(parent) => nearer(own, bound_of(forest, start, parent)),
    }
}

/// The one that binds, of an entry's own and its parent's.
fn nearer(own: Bound, over: Bound) -> Bound
    ensures value { result ≡ nearer own.most own.by over.most over.by }
    ensures one { (result.by ≡ own.by) ⊎ (result.by ≡ over.by) }
{
    match (own.most, over.most) {
        (_, None) => own,
        (Some(reach), Some(most)) if reach < most => own,
        _ => over,
    }
}
