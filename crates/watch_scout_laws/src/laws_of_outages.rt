ghost use Rattle.watch_scout_laws.specs.Resting.{RestLaw};

/// The law of outages of an agent that stands behind another: nothing rests on the one in front. From a clock on at which the time of an entry
/// is ahead that is wanted and in the plan, its end is ahead through any outage that the agent's own margin outlasts, whatever its scout
/// hands in meanwhile, of this entry or of others.
pub fn rest_law()
    ensures { RestLaw }
{}
