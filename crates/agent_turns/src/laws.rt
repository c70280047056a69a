//! Laws of the loop.
ghost use Rattle.agent_turns.specs.Alike.{AlikeLaw, ChangedAlikeLaw, ServedAlikeLaw};
ghost use Rattle.agent_turns.specs.Laws.{CallsLaw, OneWayLaw, StretchLaw, TurnWaitLaw, WordsLaw};
ghost use Rattle.agent_turns.specs.RunOfWatch.{ResumedLaw, ServingLaw};

/// The law that any turns lead the Watch from the one state to the other: whatever the neighbours do, it was handed what the readings, the
/// answers, the needs, the beginnings and the known ends say, and watched each other inventory that was served, in their order, and nothing
/// else was done to it. `happenings_of` has each of these, with what it gave.
pub fn a_stretch_is_a_run()
    ensures { StretchLaw }
{}

/// The law that all that happens to its Watch from a start on is one run, from its making on, whatever inventories are served one after
/// another. At a start the ends that were told before come first; a start may wait, and a change may end its wait; then come turns, as in
/// [`a_stretch_is_a_run`].
pub fn a_serving_is_a_run()
    ensures run { ServingLaw }
    ensures start { ResumedLaw }
{}

/// The law that no neighbour is heard but by its words: what goes out in turns for which memory sufficed, and what is held after them,
/// follows from what was held before, the readings, the answers that came and the changes that were taken, and from nothing else.
pub fn nothing_else_is_heard()
    ensures words { WordsLaw }
    ensures one_way { OneWayLaw }
{}

/// The law that a turn is bounded: it makes one wait, of a sixteenth of the margin that is served at most, but of a second, and of no more
/// than half a minute; and, where the time was handed in, never past the Watch's moment, nor past that by which the neighbours are to be
/// called again. It calls its neighbours six times at most, once more where memory was wanting, and once more for each answer of which
/// they hear. Those are no more than there are lanes.
pub fn a_turn_is_bounded()
    ensures wait { TurnWaitLaw }
    ensures calls { CallsLaw }
{}

/// The law that credentials change no turn: of two agents that differ in credentials alone, with the same readings and changes and with
/// answers of the same content, the same requests go out, and they differ in credentials alone after it. And so they do after another
/// inventory is served, if the same of its entries were served before, and after one that may be served already, if it is so in both or in
/// neither.
pub fn secrets_change_no_turn()
    ensures turns { AlikeLaw }
    ensures change { ChangedAlikeLaw }
    ensures served { ServedAlikeLaw }
{}
