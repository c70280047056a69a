ghost use Rattle.std.specs.Prelude.{◌≡◌, ◌<◌, ◌≤◌, ◌^◌, length};
ghost use Rattle.base_moment.specs.declared.moment.TheConstants.{LAST};
ghost use Rattle.plan_forest.specs.declared.forest.TheConstants.{END_MAX};
ghost use Rattle.plan_forest.specs.Forest.{end_of};
ghost use Rattle.plan_forest.specs.Push.{IsForest};
ghost use Rattle.plan_forest.specs.Renewal.{renewed};
ghost use Rattle.plan_commands.specs.Renewed.{all_renewed};

use base_moment::Moment;
use plan_forest::Forest;
use plan_rule::granted_end;

/// Gives every entry the end that a request for it at `at` leaves, all judged by the ends before. By falling index, what is
/// over an entry has its old end when the entry's turn comes.
pub(crate) fn renew_all(forest: &mut Forest, at: Moment)
    ensures { forest.new ≡ all_renewed forest.old at }
{
    for index in (0..forest.len()).rev() {
        let end = renewed_end(forest, index, at);
        forest.set_end(index, end);
    }
}

/// The end that a request for an entry leaves.
fn renewed_end(forest: &Forest, index: u32, at: Moment) -> u64
    requires { index < length forest.now.entries }
    ensures value { result ≡ renewed forest.now.entries forest.now.margin (end_of forest.now.entries) at index }
    ensures within { result ≤ END_MAX }
    ensures sound { IsForest forest.now }
{
    are_in_range(at, forest.get(index).step);
    granted_end(forest, index, at)
}

/// The law that a moment is at most LAST, and a step of 32 bits: so no renewal leads past the greatest end. It does nothing.
fn are_in_range(at: Moment, step: u32)
    ensures moment { at ≤ LAST }
    ensures span { step < 2 ^ 32 }
{
    let _ = (at.get(), step);
}
