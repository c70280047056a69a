ghost use Rattle.std.specs.Prelude.{◌≡◌, ◌≤◌};
ghost use Rattle.base_moment.specs.declared.moment.TheConstants.{LAST};
ghost use Rattle.watch_machine.specs.Clocks.{reading, sec};
ghost use Rattle.watch_machine.specs.declared.reading.TheConstants.{READING_MAX};

use base_moment::Moment;

/// The greatest reading of a clock: 9999-12-31T23:59:59.999Z, in milliseconds since 1970-01-01T00:00:00Z.
pub const READING_MAX: u64 = 253402300799999;

/// A moment of the clock that never steps, or a duration, in milliseconds.
pub type Millis = u64;

/// A moment of the clock that never steps, in whole seconds.
pub type Seconds = u64;

/// A moment of the wall's clock, in milliseconds since 1970-01-01T00:00:00Z.
pub type WallMillis = u64;

/// A moment of the broker's clock, in seconds since 1970-01-01T00:00:00Z.
pub type BrokerSeconds = u64;

/// A reading of a clock, one past the greatest as the greatest.
pub(crate) fn reading(ms: u64) -> u64
    ensures value { result ≡ reading ms }
    ensures within { result ≤ READING_MAX }
{
    ms.min(READING_MAX)
}

/// The second of a moment in milliseconds.
#[tactic(auto, unfolding(crate::specs::Clocks::sec))]
pub(crate) fn second(ms: u64) -> u64
    ensures value { result ≡ sec ms }
    ensures within { ms ≤ READING_MAX → result ≤ LAST }
    ensures most { result ≤ 18446744073709551 }
{
    ms / 1000
}

/// A second as a moment of the broker's clock.
pub(crate) fn moment_at(second: u64) -> Moment
    requires { second ≤ LAST }
    ensures { result ≡ second }
{
    Moment::new(second).unwrap()
}
