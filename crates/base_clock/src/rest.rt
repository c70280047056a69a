//! For how long an agent may rest that something is due for, in milliseconds of the clock that never steps.
ghost use Rattle.std.specs.Prelude.{◌≡◌};
ghost use Rattle.base_device.specs.Moments.{earlier};
ghost use Rattle.base_clock.specs.Rests.{rest_until, shorter, until_due};

/// After how long that is tried again which could not be done, in milliseconds.
pub const TRY_AGAIN: u64 = 1000;

/// Until a moment at which something is due, where there is one. Where that has come, it was tried and could not be done: it is tried again
/// after [`TRY_AGAIN`].
pub fn rest_until(at: Option<u64>, now: u64) -> Option<u64>
    ensures { result ≡ rest_until at now }
{
    match at {
        None => None,
        Some(at) => Some(until_due(at, now)),
    }
}

fn until_due(at: u64, now: u64) -> u64
    ensures { result ≡ until_due at now }
{
    if now < at { at - now } else { TRY_AGAIN }
}

/// The shorter of two rests, of which there may be none.
pub fn shorter(first: Option<u64>, second: Option<u64>) -> Option<u64>
    ensures { result ≡ shorter first second }
{
    match first {
        None => second,
        Some(first) => Some(no_longer(first, second)),
    }
}

/// The first rest, or the second, where there is one that is shorter.
pub fn no_longer(first: u64, second: Option<u64>) -> u64
    ensures { result ≡ earlier first second }
{
    match second {
        None => first,
        Some(second) => first.min(second),
    }
}
