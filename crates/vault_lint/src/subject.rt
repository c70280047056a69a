ghost use Rattle.std.specs.Prelude.{◌≡◌, length};

use crate::mark::Mark;
use base_moment::{Moment, Span};
use plan_needs::Carried;
use vault_inventory::{Inventory, ServedInventory};

/// What an inventory is judged by.
#[derive(Debug, Drop)]
pub struct Subject {
    /// What is written.
    pub served: ServedInventory,
    /// The same, where a need that is `always` lasts to the last moment.
    pub inventory: Inventory,
    /// What each entry carries of all needs.
    pub carried: Carried,
    /// Whether others may read or write the file of each entry's credential; of an entry that is not here they may not.
    pub open_files: Vec<bool>,
    /// Where the text has what.
    pub places: Places,
    /// The moment of the judgement.
    pub at: Moment,
    /// How long one request may take, in seconds.
    pub timeout: Span,
    ghost noted: { length served.notes ≡ length inventory.forest.entries },
    ghost counted: { length carried ≡ length inventory.forest.entries },
}

/// What each line of a text begins, and the numbers of the lines, counted from 1, that begin the tables of the entries, in their order.
#[derive(Debug, Drop)]
pub struct Places {
    pub(crate) marks: Vec<Mark>,
    pub(crate) heads: Vec<usize>,
}
