ghost use Rattle.watch_scout_laws.specs.Looks.{LanesLaw, LookLaw, OnceLaw};

/// The law of one look: as long as the believed end of an entry stays the same, at most one lookup of it goes out.
pub fn once_law()
    ensures { OnceLaw }
{}

/// The law of the lanes: no more lookups are out than the scout's width.
pub fn lanes_law()
    ensures { LanesLaw }
{}

/// The law of the look: a lookup goes out of an entry that is wanted and not out, whose end is known and ahead, from its look moment on, and
/// before its time.
pub fn look_law()
    ensures { LookLaw }
{}
