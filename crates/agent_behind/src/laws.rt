//! Laws of an agent that stands behind another.
ghost use Rattle.agent_behind.specs.Laws.{GivesLaw, GoesLaw, ToldLaw};

use vault_lanes::Lanes;

/// The law that the scout of a lookout goes by steps, as `watch_scout_laws` has them: in each turn, from the one that there was on or from a new
/// one on, and where an answer is handed in.
pub fn a_scout_goes_by_steps<L: Lanes>()
    ensures turns { GoesLaw L }
    ensures answers { GivesLaw L }
{}

/// The law that an agent is told of no change by its lookout but of an end, known, of an entry that is not out, later than the one that is
/// believed, and ahead.
pub fn a_later_end_is_told<L: Lanes>()
    ensures { ToldLaw L }
{}
