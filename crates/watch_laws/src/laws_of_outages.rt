ghost use Rattle.watch_laws.specs.Outage.{GrantLaw, KillLaw, LeftLaw, OutageLaw};

/// The law of outages: from a clock on at which the time of an entry is ahead that is wanted and in the plan, and until it is granted or
/// looked up, its end is ahead, through any outage that the margin outlasts: it is no longer than the margin less the request that its
/// end cuts, two requests more, all the rounds of the lanes that hold those that wait meanwhile, and one pause. A lookup of it may be
/// owed, everything may begin anew meanwhile, and what is watched may change, as long as the entry stays: a change counts as the lookups
/// that it brings. If its time comes later after a change, as with a smaller margin, and it is not pressed yet, the outage has to be
/// short for what is left from that time on, too. The entry is answered no later than all those rounds take, after its time or after
/// the first pause after the outage, whichever is later.
pub fn outage_law()
    ensures { OutageLaw }
{}

/// The law of several outages: the law of outages holds from each grant and each lookup of an entry on until the next one, if its time
/// is ahead after it. So outages of which no two lie between the same two count each by itself.
pub fn grant_law()
    ensures { GrantLaw }
{}

/// The law of what is left: of any entry that is wanted and whose end is known the same holds with what is left to its end in the place
/// of the margin, from a moment on from which it may be asked. So it holds outside the plan, after a lookup at which the entry's time
/// has come, and from the first clock on of a watch that was told the ends of an earlier one.
pub fn left_law()
    ensures { LeftLaw }
{}

/// The law of a kill: from the first clock on of a watch that was told the end of an entry, this outlives each outage that what is left
/// to its end outlasts, from its time on, or from that clock where it is later. (Where it is looked up at that clock, from a second
/// after it at the earliest.)
pub fn kill_law()
    ensures { KillLaw }
{}
