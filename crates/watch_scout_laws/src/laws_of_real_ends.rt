ghost use Rattle.watch_scout_laws.specs.RealEnds.{BehindLaw, HarmlessLaw};

/// The law of a true lookup: with a clock that counts honestly, an end that is handed in comes no later than the real one if the reply was
/// true when the broker read the lookup, but for what the clock has lagged since.
pub fn harmless_law()
    ensures { HarmlessLaw }
{}

/// The law of ends of an agent that stands behind another: whatever others ask, as long as the real end of an entry does not come to be
/// earlier, no end that is believed comes later than the real one, those that the scout handed in among them.
pub fn behind_law()
    ensures { BehindLaw }
{}
