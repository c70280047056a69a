use base_moment::{Moment, Name, Span, Text};
use plan_forest::Kind;
use std::fmt;

/// A token or a lease, as a broker lists it. Moments are seconds since 1970-01-01T00:00:00Z, durations seconds.
///
/// Source: Vault, "Tokens"; Vault, "Lease, renew, and revoke".
#[derive(Drop)]
pub struct BrokerRow {
    /// The name, which no other row has.
    pub name: Name,
    pub kind: Kind,
    /// The name of the token that this one is a child of, or that the lease belongs to; `None` for an orphan.
    pub parent: Option<Name>,
    /// The moment at which it ends unless it is renewed.
    pub end: u64,
    /// Whether it can be renewed at all.
    pub renewable: bool,
    /// How long after a renewal it ends where a request asks for nothing else.
    pub step: Span,
    /// The moment past which no renewal leads, `None` where there is none.
    pub ceiling: Option<u64>,
    /// The moment of its issue.
    pub issued: Moment,
    /// The period of a periodic token, else 0.
    pub period: Span,
    /// The explicit max TTL, 0 where none is set.
    pub explicit_max: Span,
    /// A token's own value, or a lease's id.
    pub credential: Text,
}

impl fmt::Debug for BrokerRow {
    /// Shows all but the credential, which is secret.
    fn fmt<W: fmt::Write>(&self, f: &mut fmt::Formatter<W>) -> fmt::Result {
        f.debug_struct("Row")
            .field("name", &self.name)
            .field("kind", &self.kind)
            .field("parent", &self.parent)
            .field("end", &self.end)
            .field("renewable", &self.renewable)
            .field("step", &self.step)
            .field("ceiling", &self.ceiling)
            .field("issued", &self.issued)
            .field("period", &self.period)
            .field("explicit_max", &self.explicit_max)
            .finish_non_exhaustive()
    }
}
