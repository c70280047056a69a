ghost use Rattle.tick_keeper.specs.LawsOfNeeds.{KeepableLaw, PlannableLaw, ShortenedLaw, UnchangedLaw};

/// The law of shortened needs: each need that planning anew shortens was greater than every plan can keep its entry to, and
/// becomes the latest moment that some plan, which keeps all needs in force, keeps it to. Where that is no later than the
/// moment of planning, the entry has ended, and no plan keeps it to a later one.
pub fn shortened_law()
    ensures { ShortenedLaw }
{}

/// The law that planning anew changes no other need, and nothing of the entries but needs.
pub fn unchanged_law()
    ensures { UnchangedLaw }
{}

/// The law that no need is shortened where no pair of entries is unkeepable, and so wherever some plan keeps.
pub fn keepable_law()
    ensures { KeepableLaw }
{}

/// The law that a plan can always be made: after shortening no pair of entries is unkeepable, and there is a least and latest
/// list of moments.
pub fn plannable_law()
    ensures { PlannableLaw }
{}
