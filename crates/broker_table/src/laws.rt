//! Laws of the definitions alone.
ghost use Rattle.std.specs.Prelude.{◌≡◌};
ghost use Rattle.broker_table.specs.declared.moment_line.TheConstants.{MOST_LINE};
ghost use Rattle.broker_table.specs.Laws.{RenewalIsByTheRule, SweptInventory, SweptLater, SweptRowsLive, UngrantedIsRefused};

/// The law that a sweep has nothing more to do at the same moment: every row that it has kept is alive, with all that are
/// over it. So a renewal that is served after the sweep meets the renewal rule's condition, with a margin of one second.
pub fn swept_rows_live()
    ensures { SweptRowsLive }
{}

/// The law that a later sweep takes in an earlier one: it leaves what it would have left without that.
pub fn swept_later()
    ensures { SweptLater }
{}

/// The law that a sweep of the rows of an inventory leaves exactly those of the entries that are alive.
pub fn swept_inventory()
    ensures { SweptInventory }
{}

/// The law that a renewal without a fault is by the renewal rule, with a margin of one second: where the rule grants it, it
/// gives the end of the rule; elsewhere it is refused, and no row changes.
pub fn renewal_is_by_the_rule()
    ensures granted { RenewalIsByTheRule }
    ensures refused { UngrantedIsRefused }
{}

/// The most bytes of a line of moments, its line feed included, as a number. It does nothing.
pub fn limits_of_moments()
    ensures { MOST_LINE ≡ 256 }
{}
