use vault_inventory::Inventory;

/// What is taken from clients and files while the agent runs.
#[derive(Debug, Drop)]
pub enum AgentChange {
    /// The entry at this index is needed until that moment by the broker's clock, in seconds since 1970-01-01T00:00:00Z; 0 where
    /// it is not needed. One of no entry changes nothing.
    Need {
        entry: u32,
        until: u64,
    },
    /// Everything is to be looked up anew.
    Begin,
    /// An end of the entry at this index that is known, in seconds of the clock that never steps, and whether the entry can be renewed: a
    /// lookup beside the agent's own told it. One of no entry changes nothing.
    Known {
        entry: u32,
        end: u64,
        renewable: bool,
    },
    /// This inventory is served from now on. One that is served already, with the same needs, is no change at all.
    Serve(Inventory),
    /// It is kept, and nothing is made of it now: a later [`AgentChange::Serve`] takes it up.
    Kept,
}
