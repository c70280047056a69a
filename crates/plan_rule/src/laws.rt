ghost use Rattle.plan_rule.specs.Laws.{EnoughLaw, ExistenceLaw, ForcedLaw, LeastMarginLaw, MarginLaw, ScheduleLaw, UniqueLaw, UnkeepableLaw};

/// The law of what cannot be kept: where an entry over a needed one cannot be led to that need by any renewal, no plan
/// keeps. Its end can never pass its reach, and at the greater of start and reach the needed entry is gone.
pub fn unkeepable_law()
    ensures { UnkeepableLaw }
{}

/// The law of forced wake-ups: a plan that keeps, each of whose wake-ups some pair forces, is least and latest. Without a
/// wake-up at a forced moment at the latest, the entry that forces it ends before a need that it carries.
pub fn forced_law()
    ensures { ForcedLaw }
{}

/// The law that there is one: at most one list of moments is least and latest.
pub fn unique_law()
    ensures { UniqueLaw }
{}

/// The law of enough: where any requests keep at given moments, the Asks do. An entry that the Asks leave out is covered
/// without a renewal until the next moment, and the Asks shorten no end.
pub fn enough_law()
    ensures { EnoughLaw }
{}

/// The law of existence: where no pair of entries is unkeepable, there is a schedule. The next moment always comes a step
/// less the margin after the one before, or later, and before some need; so the moments come to an end.
pub fn existence_law()
    ensures { ExistenceLaw }
{}

/// The law of the schedule: where no pair of entries is unkeepable, the moments of a schedule rise strictly, each is
/// forced by some pair, they are kept with their Asks, and they are least and latest.
pub fn schedule_law()
    ensures { ScheduleLaw }
{}

/// The law of the margin: where some plan keeps, some plan with the same moments keeps with each smaller margin. A plan
/// that keeps comes in time for each end by its margin, so by a smaller one, and then the Asks keep.
pub fn margin_law()
    ensures { MarginLaw }
{}

/// The law of least plans by their margins: with a smaller margin the least and latest moments are no more, and each comes
/// no earlier.
pub fn least_margin_law()
    ensures { LeastMarginLaw }
{}
