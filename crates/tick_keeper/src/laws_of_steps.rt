ghost use Rattle.std.specs.Prelude.{◌≡◌};
ghost use Rattle.tick_keeper.specs.declared.refusal.TheConstants.{LONGEST};
ghost use Rattle.tick_keeper.specs.LawsOfSteps.{AddsLaw, AskLaw, NextAsksLaw, OneResultLaw, ShapeLaw, StateLaw};

/// The limit of events as a number: no more seconds are told. It does nothing.
pub fn limits_of_events()
    ensures seconds { LONGEST ≡ 4294967295 }
{}

/// The law of states: whatever events come after the opening, and whatever of them is refused, the forest stays one; a round
/// is open since the last moment, waits for someone, and has its moment and the moments to come from the plan that was in
/// force when it opened; and the plan is in force whenever no round is open.
pub fn state_law()
    ensures { StateLaw }
{}

/// The law of added pairs: each need that the opening or an event notes as shortened is shortened as far as it has to be and
/// no farther, and no other need is changed but by [`Event::Need`](crate::Event::Need).
pub fn adds_law()
    ensures { AddsLaw }
{}

/// The law of asking: entries are asked only at a tick, at the first moment of the plan in force, which is made anew where
/// the tick is late; they are the Asks, and there is at least one.
pub fn ask_law()
    ensures { AskLaw }
{}

/// The law of one answer: lack of memory aside, an event gives one result, and leaves one state.
pub fn once_law()
    ensures { OneResultLaw }
{}

/// The law of shape: no event changes an entry but in its end, its need and whether it is renewable; names, kinds, parents,
/// steps, ceilings, the margin and the number of entries stay.
pub fn shape_law()
    ensures { ShapeLaw }
{}

/// The law of the next wake-up: a tick at the first moment of the plan in force asks. So it does at the moment of
/// [`Output::Sleep`](crate::Output::Sleep), and at the next one of [`Output::Round`](crate::Output::Round).
pub fn next_asks_law()
    ensures { NextAsksLaw }
{}
