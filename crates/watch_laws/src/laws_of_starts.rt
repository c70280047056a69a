ghost use Rattle.watch_laws.specs.Line.{LineLaw, ReadyLaw};
ghost use Rattle.watch_laws.specs.Starts.{KnownFirstLaw, NobodyLaw, SoonLaw, StartLaw};

/// The law of a start: from a beginning, or any other clock, on, while the broker is there and an entry is being asked or waits for a
/// lane, no clock comes later than all the rounds of the lanes that hold whatever is asked or to be asked at first and comes to wait
/// meanwhile, and one round later for each answer to the entry. So it is answered the first time within those rounds, and the second
/// time, as a renewal after its lookup, within one round more. What is watched may change meanwhile, as long as the entry stays: a change
/// counts as the lookups that it brings. Requests of entries that are no more are among what is asked at first; until what is watched
/// changes there are none.
pub fn start_law()
    ensures rounds { StartLaw }
    ensures nobody { NobodyLaw }
{}

/// The law of a wanted entry's start: so it is of each entry that is wanted and on its first try, while no reply is lost. It is looked up
/// within all those rounds, and renewed, if its time has come, within one round more.
pub fn soon_law()
    ensures { SoonLaw }
{}

/// The law of known ends: while the broker is there, as long as an entry that is wanted, whose end is known and ahead, whose time has
/// come and that has not failed may go out and does not, nothing goes out but first tries of such ends, earlier ones. So at a start
/// those of known end whose time has come are renewed before anything is looked up.
pub fn known_first_law()
    ensures { KnownFirstLaw }
{}

/// The law of the line: whatever goes out at a clock stands in front of each entry that may go out and does not. First tries whose ends are
/// ahead come before the other first tries, these before later tries, and these before lookups that are only owed; while the broker is away
/// the later tries and the owed lookups come before the first. First tries that renew an entry whose time has not come are last. First
/// tries stand by the ends of their entries, any others by when they were last asked. A first try may go out from its own moment on, any
/// other not before the hold is over either; an answer that the broker is busy keeps nobody else back.
pub fn line_law()
    ensures line { LineLaw }
    ensures ready { ReadyLaw }
{}
