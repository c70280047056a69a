ghost use Rattle.plan_needs.specs.code.Loads.{IsHeavier};

/// A need that an entry carries, as a moment, 0 where it carries none, and the index of the entry that has it.
#[derive(Clone, Copy, Debug)]
pub(crate) struct Load {
    pub(crate) need: u64,
    pub(crate) from: u32,
}

/// The one with the greater need; of equal needs, the one from the lower index.
pub(crate) fn heavier(a: Load, b: Load) -> Load
    ensures { IsHeavier a b result }
{
    if a.need < b.need || (a.need == b.need && b.from < a.from) {
        b
    } else {
        a
    }
}
