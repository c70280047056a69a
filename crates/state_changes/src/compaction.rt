ghost use Rattle.std.specs.Prelude.{◌≡◌, ◌∷◌, IfOk, List};
ghost use Rattle.state_changes.specs.declared.change.Record.{Record};
ghost use Rattle.state_changes.specs.declared.change.Record.TheVariants.{Made};
ghost use Rattle.state_changes.specs.Compaction.{is_need, is_void, voids};
ghost use Rattle.state_changes.specs.code.Needed.{AreNeedsOf};

use crate::change::{Change, ChangeKind, Record};
use base_moment::{Name, Text};
use std::alloc::{AllocError, Global};
use std::collections::BTreeSet;

// A need of the entry of that name, beside what the file said of it.
#[derive(PartialEq, Eq, PartialOrd, Ord, Drop)]
struct Needed {
    name: Name,
    was: Text,
}

/// Of each record, whether a later one makes it void: a need that is given again beside the same word of the file. A replay of
/// the others gives the same inventory on every file.
///
/// The only error is out of memory.
#[tactic(auto, using(crate::proofs::Later::outs_none, crate::proofs::Later::needs_end, crate::proofs::Later::outs_more, crate::proofs::Later::needs_next, crate::proofs::Later::outs_all))]
pub fn voids(alloc: Global, records: &[Record]) -> Result<Vec<bool>, AllocError>
    ensures { IfOk result (λ outs. outs.items ≡ voids records.now) }
{
    let mut outs = Vec::new(alloc);
    let mut later = BTreeSet::new(alloc);
    let mut index = records.len();
    while index > 0 {
        index -= 1;
        outs.push(is_void(&mut later, &records[index])?)?;
    }
    outs.reverse();
    Ok(outs)
}

// Whether one of the later records makes this one void; it is among the later ones from then on.
#[tactic(auto, using(crate::proofs::Later::given_settling))]
fn is_void(later: &mut BTreeSet<Needed>, earlier: &Record) -> Result<bool, AllocError>
    ensures { IfOk result (λ void. (records : List Record) → AreNeedsOf later.old records → (void ≡ is_void earlier.now records) × AreNeedsOf later.new (earlier.now ∷ records)) }
{
    match earlier {
        Record::Made(change) => is_given_again(later, change),
        Record::Settling(_) => Ok(false),
    }
}

// The same of a change.
#[tactic(auto, using(crate::proofs::Later::given_not, crate::proofs::Later::given_again))]
fn is_given_again(later: &mut BTreeSet<Needed>, change: &Change) -> Result<bool, AllocError>
    ensures { IfOk result (λ void. (records : List Record) → AreNeedsOf later.old records → (void ≡ is_void (Made change.now) records) × AreNeedsOf later.new (Made change.now ∷ records)) }
{
    if !is_need(&change.what) {
        return Ok(false);
    }
    let need = Needed {
        name: change.name.clone()?,
        was: change.was.clone()?,
    };
    let is_new = later.insert(need)?;
    Ok(!is_new)
}

fn is_need(what: &ChangeKind) -> bool
    ensures { result ≡ is_need what.now }
{
    match what {
        ChangeKind::Need(_) => true,
        ChangeKind::Replace(_) | ChangeKind::Add(_) | ChangeKind::Drop => false,
    }
}
