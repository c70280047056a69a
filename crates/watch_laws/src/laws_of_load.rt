ghost use Rattle.watch_laws.specs.Load.{LoadLaw, SpacedLaw, WidthLaw};

/// The law of the second between: whatever happens, two requests of an entry are a second apart by the clocks at which they go out, but
/// for the renewal right after its own lookup. Over changes the entry is followed through its indices.
pub fn spaced_law()
    ensures { SpacedLaw }
{}

/// The law of load: in any `x` seconds an entry is asked at most `2 (x + 1)` times.
pub fn load_law()
    ensures { LoadLaw }
{}

/// The law of the width: no more requests are out than the watch's width, those of entries that are no more among them.
pub fn width_law()
    ensures { WidthLaw }
{}
