use base_moment::{Span, Text};
use std::fmt;

/// What the body of a request asks.
#[derive(Drop)]
pub struct AskedBody {
    /// The id of the lease that it names.
    pub lease_id: Option<Text>,
    /// The increment that it asks for, in seconds.
    pub increment: Option<Span>,
}

impl fmt::Debug for AskedBody {
    /// Shows all but the lease id, which is secret.
    fn fmt<W: fmt::Write>(&self, f: &mut fmt::Formatter<W>) -> fmt::Result {
        f.debug_struct("Asked")
            .field("increment", &self.increment)
            .finish_non_exhaustive()
    }
}
