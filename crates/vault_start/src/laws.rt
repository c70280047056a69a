ghost use Rattle.vault_start.specs.Laws.{AlwaysKeptLaw, StartInventoryLaw, StartSecrecyLaw, WholeLaw};

/// The law that an inventory from a start on is one: a forest with a credential and terms for each entry, as the one that was read;
/// and that nothing but its credentials comes from the keys `secret` and `lease_id`.
pub fn starts_are_inventories()
    ensures inventory { StartInventoryLaw }
    ensures secrecy { StartSecrecyLaw }
{}

/// The law that a text that leaves nothing open means the same from every start.
pub fn whole_inventories_start_as_they_are()
    ensures { WholeLaw }
{}

/// The law that a need that is `always` is kept: it is never shortened; and where no other entry is needed after the start, no
/// pair of entries is unkeepable.
pub fn needs_that_are_always_are_kept()
    ensures { AlwaysKeptLaw }
{}
