//! The margin of an agent that wakes up earlier.
ghost use Rattle.std.specs.Prelude.{◌≡◌, ◌≤◌, length};
ghost use Rattle.plan_forest.specs.Margins.{IsMargin};
ghost use Rattle.plan_forest.specs.Push.{IsForest};
ghost use Rattle.plan_spread.specs.Margins.{room_of, wider};

use plan_forest::{Forest, MARGIN_MAX};

/// The margin of a forest, in seconds, and `seconds` besides: by no more than the margin itself, and as far as three quarters of
/// each step have room for it. It is never less than the margin.
#[tactic(auto, using(crate::proofs::Rooms::wider_allowed))]
pub fn margin_with(forest: &Forest, seconds: u32) -> u32
    ensures wider { result ≡ wider forest.now.margin seconds (room_of forest.now.entries) }
    ensures allowed { IsMargin forest.now.entries result }
{
    let room = room_of(forest);
    let margin = forest.margin();
    let wider = margin + seconds.min(margin);
    margin.max(wider.min(room))
}

// Three quarters of the shortest step, or the greatest margin.
fn room_of(forest: &Forest) -> u32
    ensures room { result ≡ room_of forest.now.entries }
    ensures sound { IsForest forest.now }
{
    let mut room = MARGIN_MAX;
    for index in 0..forest.len() {
        let step = u64::from(forest.get(index).step);
        room = room.min((step * 3 / 4) as u32);
    }
    room
}
