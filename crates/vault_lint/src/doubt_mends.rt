//! What helps where something is doubted of an entry.
use crate::subject::Subject;
use crate::what::EntryDoubt;
use std::alloc::{AllocError, Global};

/// What helps. The only error is lack of memory.
pub(crate) fn mend_of(
    alloc: Global,
    subject: &Subject,
    what: EntryDoubt,
) -> Result<String, AllocError> {
    match what {
        EntryDoubt::NearMargin(step) => near_margin(alloc, subject, step),
        _ => String::from_str(alloc, plain_mend(what)),
    }
}

fn near_margin(alloc: Global, subject: &Subject, step: u32) -> Result<String, AllocError> {
    let margin = u64::from(subject.inventory.forest().margin());
    let own = u64::from(step) * 3 / 4;
    let wanted = (margin * 4).div_ceil(3);
    format!(in alloc;
        "it survives outages of {own} s only: ask for {wanted} s or more, or lower the margin to {own}"
    )
}

fn plain_mend(what: EntryDoubt) -> &'static str {
    match what {
        EntryDoubt::TokenLike => "names are printed in logs: give it another name",
        EntryDoubt::OpenFile => "chmod o-rwx the file: it holds a secret",
        EntryDoubt::Swapped => "were two moments swapped?",
        EntryDoubt::Late(_) => "are these milliseconds? moments are whole seconds",
        EntryDoubt::Milliseconds(_, _) => "are these milliseconds? durations are whole seconds",
        EntryDoubt::OverMax(_, _) =>
            "no renewal grants more than that: ask for less, or correct max_ttl",
        EntryDoubt::BesidePeriod => "remove one of the two",
        EntryDoubt::NoStep =>
            "write what a renewal is to ask for, or the period of a periodic token",
        EntryDoubt::Ended(_) => {
            "if it is alive, write its present end: plans count it as ended, the agent looks it up"
        }
        EntryDoubt::NeedPast(_) => {
            "set one in the future, or remove the entry: it is no longer kept for its own sake"
        }
        EntryDoubt::PastCeiling(_, _) | EntryDoubt::PastLife(_, _) => {
            "no renewal leads there: lower it, or issue the secret afresh before then"
        }
        EntryDoubt::PastEnd(_) => "issue the secret afresh before then",
        EntryDoubt::ShortLife(_, _) => {
            "it is `short`, and not healthy, from its issue on: write reissued = true, or the moment by which you issue it afresh"
        }
        _ => "it is not renewed: add the moment until which it is needed",
    }
}
