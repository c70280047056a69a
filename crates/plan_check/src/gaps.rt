ghost use Rattle.std.specs.Prelude.{◌≡◌, ◌+◌, ◌*◌, ◌<◌, ◌≤◌, ◌⊎◌};

/// The least number of gaps that lead from `from` to `to` or past it.
pub(crate) fn gaps_to(from: u64, gap: u64, to: u64) -> u64
    requires { 0 < gap }
    ensures reached { to ≤ from + result * gap }
    ensures least { (result ≡ 0) ⊎ (from + result * gap < to + gap) }
    ensures small { result ≤ to }
{
    if to <= from {
        0
    } else {
        (to - from - 1) / gap + 1
    }
}

/// The greatest number of gaps, at most `most`, that lead from `from` no further than `last`.
pub(crate) fn gaps_until(from: u64, gap: u64, most: u64, last: u64) -> u64
    requires from { from ≤ last }
    requires gap { 0 < gap }
    ensures most { result ≤ most }
    ensures within { from + result * gap ≤ last }
    ensures stop { (result ≡ most) ⊎ (last < from + result * gap + gap) }
{
    most.min((last - from) / gap)
}
