ghost use Rattle.tick_keeper.specs.LawsOfHistories.{ClosesLaw, InForceLaw, OrderLaw};

/// The law that every round closes: answers of entries that are waited for, one of each and in whatever order, are taken, want
/// of memory aside; and where nobody is left, they close the round.
pub fn closes_law()
    ensures { ClosesLaw }
{}

/// The law of the order of answers: two orders of the same answers to one round, of entries that are waited for and one of
/// each, end in equal states, lack of memory aside.
pub fn order_law()
    ensures { OrderLaw }
{}

/// The law of the plan in force: whatever events come, and whatever of them is refused, the moments to come are those of the
/// least and latest plan whenever no round is open.
pub fn in_force_law()
    ensures { InForceLaw }
{}
