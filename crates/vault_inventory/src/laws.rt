ghost use Rattle.std.specs.Prelude.{◌≡◌, ◌+◌};
ghost use Rattle.base_moment.specs.declared.moment.TheConstants.{LAST};
ghost use Rattle.plan_forest.specs.declared.forest.TheConstants.{END_MAX, MARGIN_MAX};
ghost use Rattle.vault_inventory.specs.declared.limits.TheConstants.{CREDENTIAL_MAX, MOST_INVENTORY, PATH_MAX, SPAN_MAX, STEP_ABSENT, SYSTEM_MAX};
ghost use Rattle.vault_inventory.specs.Durations.{DurationFound, DurationOnly};
ghost use Rattle.vault_inventory.specs.FirstFault.{FirstFaultLaw};
ghost use Rattle.vault_inventory.specs.Laws.{InventoryLaw, ReadSecrecyLaw, SendableLaw, ServedLaw, ServedSecrecyLaw, StrictLaw, TextLaw, WrittenLaw};

/// The limits of inventories, each by its number; those of moments and margins are cited from the crates below.
pub fn limits_of_inventories()
    ensures text { MOST_INVENTORY ≡ 1048576 }
    ensures span { SPAN_MAX ≡ 4294967295 }
    ensures system { SYSTEM_MAX ≡ 2764800 }
    ensures credential { CREDENTIAL_MAX ≡ 256 }
    ensures path { PATH_MAX ≡ 4096 }
    ensures step { STEP_ABSENT ≡ 3600 }
    ensures margin { MARGIN_MAX ≡ 3600 }
    ensures last { LAST ≡ 253402300799 }
    ensures end { END_MAX ≡ LAST + SPAN_MAX }
{}

/// The law that what is read of a text is a forest, as one that grew entry by entry, with one credential, one set of terms and one
/// note for each of its entries, with no credential twice for tokens or for leases; that each credential can be sent, that
/// each step is a duration, and that the step of a periodic token is its period.
pub fn inventories_are_forests()
    ensures served { ServedLaw }
    ensures inventory { InventoryLaw }
{}

/// The law that what is read of a text is what its document writes: the margin, and one entry for each table and no other, tokens
/// before leases and each in the order of the text, with the name, the parent, the issue, the end, the terms, the need, the
/// credential and the file that its table writes, or what stands for each of them where the key is absent; and no table has another
/// key.
pub fn inventories_are_written()
    ensures { WrittenLaw }
{}

/// The law of durations: a text is read as a duration exactly where it writes one: days, hours, minutes and seconds, one of them at
/// least and in this order, each a number of 1 to 10 digits and its letter; and its seconds are their sum.
pub fn durations_are_read()
    ensures found { DurationFound }
    ensures only { DurationOnly }
{}

/// The law that the fault that is told of a text is its first: the text is no document; or it is the first of the faults that the
/// top level can have; or it is that of the first table at fault, tokens before leases and each in the order of the text, where all
/// tables before it are taken, and there the first of the faults that such a table can have, in the order in which `token_faults`
/// and `lease_faults` list them, before those of its row: why the forest refuses the entry, and a credential that an earlier entry
/// of its kind has.
pub fn faults_are_first()
    ensures { FirstFaultLaw }
{}

/// The law that the strict language is a part of the full one: a text that is read with durations as numbers, with each issue, end
/// and increment written, with needs that are moments and without files, is read as the same.
pub fn strict_inventories_mean_the_same()
    ensures { StrictLaw }
{}

/// The law that each credential of the inventory of a text can be sent: it has 1 to 256 bytes, each from 0x21 to 0x7E. So
/// it is UTF-8.
pub fn credentials_are_sendable()
    ensures inventory { SendableLaw }
    ensures text { TextLaw }
{}

/// The law that nothing but the credentials of an inventory comes from the keys `secret` and `lease_id`: two documents that
/// differ in these keys and their values alone have the same forest, the same terms and the same notes.
pub fn secrets_stay_in_credentials()
    ensures served { ServedSecrecyLaw }
    ensures inventory { ReadSecrecyLaw }
{}
