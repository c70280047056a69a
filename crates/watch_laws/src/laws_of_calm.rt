//! How what a watch asks goes with the least and latest plan.
ghost use Rattle.watch_laws.specs.Calm.{CalmLaw, NextMomentLaw, RoundOfPlanLaw};

/// The law of the next moment: in every state of every history, where no pair is Unkeepable by what is believed and each entry that
/// is wanted is in the plan, the least time of these is the first moment of the least and latest plan; and where nobody is wanted,
/// that plan is empty.
pub fn next_moment_law()
    ensures { NextMomentLaw }
{}

/// The law of the round of the plan: at every clock of every history that finds the state calm, a round opens where the first moment
/// of the least and latest plan has come, and only there; and it asks the Asks.
pub fn round_of_plan_law()
    ensures { RoundOfPlanLaw }
{}

/// The law of calm: from a state at rest on, while each clock comes in time, every reply comes before the next round opens, and each
/// renewal is granted by the rule from the second of its round, the rounds are exactly the wake-ups of the least and latest plan with
/// its Asks, and nothing else is asked. A round may take as long as it leaves room for the next one. After a change of what is watched
/// that leaves a state at rest, the rounds are the wake-ups of the plan of that state.
pub fn calm_law()
    ensures { CalmLaw }
{}
