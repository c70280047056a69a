ghost use Rattle.std.specs.Prelude.{◌≡◌, ◌<◌, ◌&&◌, not, is_some, slice_set, length};
ghost use Rattle.plan_forest.specs.Forest.{entry_at};
ghost use Rattle.watch_machine.specs.Looked.{by_terms, is_orphaned, orphaned, step_told};

use crate::event::WatchTerms;
use crate::wanted::most;
use plan_forest::{Entry, Forest};

/// The step of an entry after one was told: that one where it is more than the margin.
fn step_told(margin: u32, step: u32, told: Option<u32>) -> u32
    ensures { result ≡ step_told margin step told }
{
    match told {
        None => step,
        Some(told) => { if margin < told { told } else { step } }
    }
}

/// Whether the terms take an entry away from its parent. A lease keeps its token.
pub(crate) fn is_orphaned(entry: &Entry, terms: WatchTerms) -> bool
    ensures { result ≡ is_orphaned terms entry.now }
{
    terms.orphan && !entry.kind.is_lease() && entry.parent.is_some()
}

/// Takes an entry away from its parent where the terms say so. A lease keeps its token.
pub(crate) fn take_orphan(forest: &mut Forest, index: u32, terms: WatchTerms)
    requires { index < length forest.old.entries }
    ensures { forest.new ≡ record forest.old { entries = slice_set forest.old.entries index (orphaned terms (entry_at forest.old.entries index)) } }
{
    if !terms.orphan {
        return;
    }
    if forest.get(index).kind.is_lease() {
        return;
    }
    forest.orphan(index);
}

/// Takes the terms that a lookup told.
pub(crate) fn take_terms(forest: &mut Forest, index: u32, terms: WatchTerms)
    requires { index < length forest.old.entries }
    ensures { forest.new ≡ record forest.old { entries = slice_set forest.old.entries index (by_terms forest.old.margin terms (entry_at forest.old.entries index)) } }
{
    let step = step_told(forest.margin(), forest.get(index).step, terms.step);
    forest.set_terms(index, step, most(terms.ceiling));
    take_orphan(forest, index, terms);
}
