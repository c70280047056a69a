ghost use Rattle.plan_commands.specs.MarginRun.{MarginRun};

use crate::deliver::deliver;
use crate::margin_text::margin_text;
use base_device::{Sink, Watched};
use base_moment::Moment;
use program_report::Exit;
use std::alloc::Global;

/// What `margin` is asked.
#[derive(Clone, Copy, Debug)]
pub struct MarginQuery {
    /// The moment from which entries are kept.
    pub start: Moment,
    /// How many wake-ups may be spent; as many as with the inventory's own margin, where that is absent.
    pub most_wakes: Option<u64>,
    /// Whether every entry is asked once at the start before.
    pub renewed: bool,
}

/// The command `margin`: the widest margin that costs no wake-up more, which is the longest outage that is survived for it.
///
/// It writes a line `MARGIN WAKES`: a margin, and how many wake-ups the least plan from the start on has with it. The widest
/// is the greatest margin from 1 to 3600 seconds and less than each step with which the least plan has at most so many
/// wake-ups. Without `most_wakes` two lines, that of the inventory's own margin, and that of the widest with which the least
/// plan has no more wake-ups; with it the line of the widest with at most so many, where more than
/// [`LIMIT`](plan_search::LIMIT) count as that. With `renewed` the ends are those that one wake-up at the start leaves which
/// asks every entry, each granted by the inventory's own margin.
///
/// Exit 3, with a line `unkeepable ENTRY NEEDED`: no plan keeps with a margin of 1; or, without `most_wakes`, none does with
/// the inventory's own, and then the pair is that of its own margin. Exit 3, with the line `none`: some plan keeps with a
/// margin of 1, and with no margin by so few wake-ups. Exit 5, without `most_wakes`: some plan keeps with the inventory's
/// own margin, and each that does has more than [`LIMIT`](plan_search::LIMIT) wake-ups.
///
/// The inventory is judged first (exit 1). The whole text is made before the first write, so exits but 0, 3 and 6 leave
/// `out` untouched; 7 does but for a sink in memory that itself wants memory. Exit 6 comes only where a write of `out`
/// failed. The exits 2 and 4 never come.
///
/// Source: this project's own.
pub fn run_margin<W: Sink, E: Sink>(
    alloc: Global,
    inventory: &[u8],
    query: &MarginQuery,
    out: &mut W,
    errors: &mut E,
) -> Exit
    ensures { MarginRun inventory.now query.now result (⟦<W as Watched>⟧.change out.old out.new) (⟦<E as Watched>⟧.change errors.old errors.new) }
{
    deliver(margin_text(alloc, inventory, query), out, errors)
}
