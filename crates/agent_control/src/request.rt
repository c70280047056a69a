use crate::when::When;
use base_moment::{Name, Text};
use std::fmt;

/// What a client asks of a running agent.
#[derive(PartialEq, Eq, Drop)]
pub enum ControlRequest {
    /// The entry is needed until then from now on.
    Need {
        /// The name of the entry.
        name: Name,
        /// Until when.
        when: When,
    },
    /// The entry's credential is this one from now on.
    Replace {
        /// The name of the entry.
        name: Name,
        /// A token's own value, or a lease's id.
        credential: Text,
    },
    /// One more entry is to be kept.
    Add {
        /// A table `[[token]]` or `[[lease]]` in TOML, which may hold a credential.
        table: Text,
    },
    /// The entry is to be kept no more.
    Drop {
        /// The name of the entry.
        name: Name,
    },
    /// How each entry stands.
    Status,
    /// Which needed entries are not kept.
    Health,
    /// The file is to hold every change.
    Settle,
    /// The file is to be read anew.
    Reload,
    /// The log's lines from now on.
    Follow {
        /// Whether only warnings and alerts are wanted.
        alerts: bool,
    },
}

impl fmt::Debug for ControlRequest {
    /// Shows what is asked for, without a credential and without a table.
    fn fmt<W: fmt::Write>(&self, f: &mut fmt::Formatter<W>) -> fmt::Result {
        match self {
            ControlRequest::Need { name, when } => f
                .debug_struct("Need")
                .field("name", name)
                .field("when", when)
                .finish(),
            ControlRequest::Replace { name, .. } => f
                .debug_struct("Replace")
                .field("name", name)
                .finish_non_exhaustive(),
            ControlRequest::Add { .. } => f.write_str("Add(..)"),
            ControlRequest::Drop { name } => f.debug_struct("Drop").field("name", name).finish(),
            ControlRequest::Status => f.write_str("Status"),
            ControlRequest::Health => f.write_str("Health"),
            ControlRequest::Settle => f.write_str("Settle"),
            ControlRequest::Reload => f.write_str("Reload"),
            ControlRequest::Follow { alerts } => f
                .debug_struct("Follow")
                .field("alerts", alerts)
                .finish(),
        }
    }
}
