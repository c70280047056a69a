//! The margin of an agent that stands behind another, and that of the one in front.
ghost use Rattle.std.specs.Prelude.{◌≡◌, ◌≤◌, ◌<◌, ◌+◌, ◌*◌, ◌/◌, List};
ghost use Rattle.plan_forest.specs.Margins.{IsMargin};
ghost use Rattle.plan_forest.specs.declared.entry.Entry.{Entry};
ghost use Rattle.plan_spread.specs.Behind.{margin_behind, margin_by, margin_in_front};

use crate::part::{number_of, part_by};
use plan_forest::MARGIN_MAX;

/// The margin, in seconds, of the agent whose name has that number, where it stands behind one of that margin: a quarter of it less, and a
/// part by the number. So several that stand behind one come to an entry's time at different moments. Whatever entries allow the one
/// margin allow the other.
#[tactic(auto, using(crate::proofs::Fronts::behind_allowed))]
pub fn margin_by(margin: u32, number: u64) -> u32
    ensures value { result ≡ margin_by margin number }
    ensures least { 0 < margin → margin / 2 < result }
    ensures most { result ≤ 3 * margin / 4 + 1 }
    ensures allowed { (es : List Entry) → IsMargin es margin → IsMargin es result }
{
    let quarter = margin / 4;
    margin - quarter - part_by(number, quarter.saturating_sub(1))
}

/// The same by the name of the agent.
pub fn margin_behind(margin: u32, name: &[u8]) -> u32
    ensures value { result ≡ margin_behind margin name.now }
    ensures least { 0 < margin → margin / 2 < result }
    ensures most { result ≤ 3 * margin / 4 + 1 }
    ensures allowed { (es : List Entry) → IsMargin es margin → IsMargin es result }
{
    margin_by(margin, number_of(name))
}

/// The margin, in seconds, of the agent in front of one whose own margin is `behind`, and whose name has that number: the greatest of which
/// that is the margin behind it, or `behind` where there is none. (One margin behind another may be that of two or three.)
pub fn margin_in_front(behind: u32, number: u64) -> u32
    ensures { result ≡ margin_in_front behind number }
{
    for less in (0..MARGIN_MAX).rev() {
        if margin_by(less + 1, number) == behind {
            return less + 1;
        }
    }
    behind
}
