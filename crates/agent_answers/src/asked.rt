use base_moment::{Name, Text};
use vault_inventory::Need;

/// What a client asks to be done.
///
/// Nobody has looked whether there is an entry of the name. It may hold a credential, and shows nothing of itself: it has no
/// `Debug`.
#[derive(Drop)]
pub enum ClientOrder {
    /// The entry is needed until then from now on.
    Need {
        /// The name of the entry.
        name: Name,
        /// Until when.
        need: Need,
    },
    /// The entry's credential is this one from now on.
    Replace {
        /// The name of the entry.
        name: Name,
        /// A token's own value, or a lease's id.
        credential: Text,
    },
    /// One more entry is to be kept.
    Add {
        /// A table `[[token]]` or `[[lease]]` in TOML, which may hold a credential. Nobody has read it yet.
        table: Text,
    },
    /// The entry is to be kept no more.
    Drop {
        /// The name of the entry.
        name: Name,
    },
    /// The file is to hold every change.
    Settle,
    /// The file is to be read anew.
    Reload,
    /// The log's lines from now on.
    Follow {
        /// Whether only warnings and alerts are wanted.
        alerts: bool,
    },
}
