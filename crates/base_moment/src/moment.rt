ghost use Rattle.std.specs.Prelude.{◌≡◌, ℕ, ◌+◌, ◌≤◌, ◌↔◌, IsSome, IfSome};

use std::marker::Model;

/// The last moment, 9999-12-31T23:59:59Z: the last second that RFC 3339 can write with its years of four digits.
pub const LAST: u64 = 253402300799;

/// A duration in whole seconds, 0 to 4294967295.
pub type Span = u32;

/// A moment: whole seconds since 1970-01-01T00:00:00Z, from 0 to [`LAST`].
///
/// No clock is behind it: every moment is handed in by a caller.
#[derive(Clone, Copy, Debug, PartialEq, Eq, PartialOrd, Ord, Hash)]
pub struct Moment {
    seconds: u64,
}

impl Model for Moment {
    ghost use Rattle.std.specs.Prelude.{ℕ, ◌≤◌};
    ghost use Rattle.base_moment.specs.declared.moment.TheConstants.{LAST};

    ghost Value = { ℕ };

    ghost view = { λ m. m.seconds };

    ghost invariant = { λ m. m.seconds ≤ LAST };

    ghost inverse = { λ n. record { seconds = n } };
}

impl Moment {
    /// The moment so many seconds after 1970-01-01T00:00:00Z, or `None` where that is after [`LAST`].
    pub fn new(seconds: u64) -> Option<Moment>
        ensures within { IsSome result ↔ (seconds ≤ LAST) }
        ensures value { IfSome result (λ m. m ≡ seconds) }
    {
        if seconds <= LAST {
            Some(Moment { seconds })
        } else {
            None
        }
    }

    /// The seconds since 1970-01-01T00:00:00Z.
    pub fn get(self) -> u64
        ensures value { result ≡ self }
        ensures within { result ≤ LAST }
    {
        self.seconds
    }

    /// The seconds since 1970-01-01T00:00:00Z of the moment `span` later, which may lie after [`LAST`].
    pub fn plus(self, span: Span) -> u64
        ensures value { result ≡ self + span }
        ensures within { self ≤ LAST }
    {
        self.get() + span as u64
    }
}
