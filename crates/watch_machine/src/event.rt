use base_moment::Span;

/// What is asked of the broker.
///
/// Source: Vault, HTTP API: `auth/token`, "Lookup a token (self)", "Renew a token (self)"; `sys/leases`, "Read lease",
/// "Renew lease".
#[derive(Clone, Copy, Debug, PartialEq, Eq)]
pub enum Operation {
    /// What it says of the entry.
    Look,
    /// A renewal.
    Renew,
}

/// What became of a request.
///
/// Source: Vault, HTTP API, "HTTP status codes"; RFC 9110, 5.6.7 and 6.6.1 (`Date`).
#[derive(Clone, Copy, Debug, PartialEq, Eq)]
pub enum WatchReply {
    /// 200, and read: the entry ends so many seconds later, and can be renewed or not; with the reply's `Date`.
    Told {
        seconds: Span,
        renewable: bool,
        date: Option<u64>,
    },
    /// 400, 403, 404 or 405: the request itself is refused; with the reply's `Date`.
    Refused {
        status: u16,
        date: Option<u64>,
    },
    /// 429: too many requests.
    Busy,
    /// No reply, one that could not be read, or another status.
    Lost,
}

/// What a lookup that was told says of its entry beside its end.
#[derive(Clone, Copy, Debug, PartialEq, Eq)]
pub struct WatchTerms {
    /// The step in seconds, where it is more than the margin; `None` leaves it as it was.
    pub step: Option<Span>,
    /// The ceiling by the broker's clock, seconds since 1970-01-01T00:00:00Z; `None` where there is none.
    pub ceiling: Option<u64>,
    /// The token has no parent, whatever the inventory says.
    pub orphan: bool,
    /// The token never ends.
    pub endless: bool,
}

/// What happens to a watch. Each may come at any time.
///
/// A reading after 9999-12-31T23:59:59.999Z is taken as that moment, a need or a date after 9999-12-31T23:59:59Z as that, and an
/// `end` past the greatest as the greatest, so no number is refused.
#[derive(Clone, Copy, Debug, PartialEq, Eq)]
pub enum WatchEvent {
    /// The two clocks, in milliseconds: the wall's since 1970-01-01T00:00:00Z, and one that never steps. A reading of the latter
    /// before its last one is taken as that.
    Clock {
        wall: u64,
        elapsed: u64,
    },
    /// The answer to a lookup. The terms count where it was told.
    Looked {
        entry: u32,
        reply: WatchReply,
        terms: WatchTerms,
    },
    /// The answer to a renewal.
    Renewed {
        entry: u32,
        reply: WatchReply,
    },
    /// The entry is needed until that moment by the broker's clock, 0 where it is not.
    Need {
        entry: u32,
        until: u64,
    },
    /// Everything is to be looked up anew.
    Begin,
    /// An end in whole seconds of the clock that never steps, as an earlier watch of the same boot or a lookup beside this one told it.
    /// Where it is past a lookup is owed.
    Known {
        entry: u32,
        end: u64,
        renewable: bool,
    },
}
