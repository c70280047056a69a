ghost use Rattle.std.specs.Prelude.{◌≡◌};
ghost use Rattle.vault_http.specs.RoundTrip.{is_sent};

use base_moment::Text;
use std::fmt;

/// A reply of the broker.
#[derive(Drop)]
pub struct Reply {
    /// The status, a number of three digits.
    pub status: u16,
    /// The body.
    pub body: Text,
}

impl fmt::Debug for Reply {
    /// Shows the status alone: ids of leases stand in the body, and they are secret.
    fn fmt<W: fmt::Write>(&self, f: &mut fmt::Formatter<W>) -> fmt::Result {
        f.debug_struct("Reply")
            .field("status", &self.status)
            .finish_non_exhaustive()
    }
}

impl Reply {
    /// Whether [`crate::write_reply`] may be asked to write it.
    pub fn is_writable(&self) -> bool
        ensures { result ≡ is_sent self.now.status }
    {
        matches!(self.status, 200 | 400 | 403 | 404 | 405 | 429 | 500 | 503)
    }
}
