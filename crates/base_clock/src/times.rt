ghost use Rattle.std.specs.Prelude.{◌≡◌};
ghost use Rattle.base_clock.specs.Times.{millis_of, natural, whole_millis};

/// The whole milliseconds of seconds and nanoseconds, [`u64::MAX`] at most; `None` where one of them is negative.
pub(crate) fn millis_of(seconds: i64, nanos: i64) -> Option<u64>
    ensures { result ≡ millis_of seconds nanos }
{
    Some(whole_millis(natural(seconds)?, natural(nanos)?))
}

fn whole_millis(seconds: u64, nanos: u64) -> u64
    ensures { result ≡ whole_millis seconds nanos }
{
    let whole = seconds.saturating_mul(1_000);
    whole.saturating_add(nanos / 1_000_000)
}

fn natural(number: i64) -> Option<u64>
    ensures { result ≡ natural number }
{
    if number < 0 {
        None
    } else {
        Some(number as u64)
    }
}
