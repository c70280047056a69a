ghost use Rattle.watch_scout_laws.specs.Behind.{HandedLaw, KeptLaw, LeaveLaw};

/// The law of what is handed in: it is an end, known, of an entry that is not out; it is later than the one that is believed, and ahead.
pub fn handed_law()
    ensures { HandedLaw }
{}

/// The law of what that does: the watch takes it, believes that end from then on, and nothing else is changed: no try is set. The
/// entry's time is as long before the new end as it was before the old one.
pub fn kept_law()
    ensures { KeptLaw }
{}

/// The law of what is left to the one in front: from an answer on that told an entry, as long as each clock finds its time ahead, and the
/// time of each other one that is wanted, and each answer tells it so too, no renewal of it goes out.
pub fn leave_law()
    ensures { LeaveLaw }
{}
