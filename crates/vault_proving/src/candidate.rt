use vault_inventory::Inventory;

/// The number under which a wait is told of the connection of a lookup. No neighbour of the agent has it: those of the lanes for
/// its entries, of clients and of onlookers are lower.
pub const LOOKUP_NUMBER: u32 = u32::MAX;

/// A credential that is to be looked up: that of one entry of an inventory, in which a lease has its token over it.
///
/// It holds credentials and shows nothing of itself: it has no `Debug`.
#[derive(Drop)]
pub struct Candidate {
    /// The entry, and the token that it belongs to, if it is a lease.
    pub inventory: Inventory,
    /// The index of the entry.
    pub entry: u32,
}
