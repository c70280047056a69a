ghost use Rattle.std.specs.Prelude.{◌≡◌, ◌++◌, IfOk, OnOk};
ghost use Rattle.state_notes.specs.Lines.{change_fault_text, margin_text, over_words, step_words, twice_words};

use base_moment::Text;
use base_words::push_number;
use state_changes::{ChangeFault, ChangeKind, Row};
use std::alloc::{AllocError, Global};

/// Why a change of the entry of that name cannot be made, in an inventory of that margin in seconds: words for the one who asked for
/// it. The only error is out of memory.
pub fn why(
    alloc: Global,
    margin: u32,
    name: &[u8],
    what: &ChangeKind,
    fault: ChangeFault,
) -> Result<Text, AllocError>
    ensures { IfOk result (λ text. text ≡ change_fault_text margin name.now what.now fault) }
{
    let mut text = Vec::new(alloc);
    push_why(alloc, margin, name, what, fault, &mut text)?;
    Ok(Text::from_vec(text))
}

/// Appends why a change cannot be made.
pub(crate) fn push_why(
    alloc: Global,
    margin: u32,
    name: &[u8],
    what: &ChangeKind,
    fault: ChangeFault,
    text: &mut Vec<u8>,
) -> Result<(), AllocError>
    ensures { OnOk result (text.new.items ≡ text.old.items ++ change_fault_text margin name.now what.now fault) }
{
    let over = over_words(what);
    match fault {
        ChangeFault::NoEntry => push_all(b"no entry is named ", name, b"", text),
        ChangeFault::NameTwice => push_all(b"an entry is named ", name, b" already", text),
        ChangeFault::NoParent => push_all(name, over, b"names no token of this inventory", text),
        ChangeFault::ParentIsLease => push_all(name, over, b"names a lease", text),
        ChangeFault::TooDeep => push_all(name, over, b"is the 65th of its chain", text),
        ChangeFault::StepTooSmall => push_step(alloc, margin, name, what, text),
        ChangeFault::Full => {
            text.extend_from_slice(b"there are 4096 entries already, and no more are allowed")
        }
        ChangeFault::CredentialTwice => push_all(
            b"another entry has that credential already; ",
            name,
            twice_words(what),
            text,
        ),
        ChangeFault::InFile => push_all(
            name,
            b" has its credential in a file: ",
            b"write it there",
            text,
        ),
        ChangeFault::HasUnder => push_all(
            name,
            b" has entries under it: ",
            b"drop them first",
            text,
        ),
        ChangeFault::OutOfMemory => text.extend_from_slice(b"out of memory"),
    }
}

// Appends that what a renewal would ask for is within the margin.
fn push_step(
    alloc: Global,
    margin: u32,
    name: &[u8],
    what: &ChangeKind,
    text: &mut Vec<u8>,
) -> Result<(), AllocError>
    ensures { OnOk result (text.new.items ≡ text.old.items ++ (name.now ++ (step_words what.now ++ margin_text margin))) }
{
    text.extend_from_slice(name)?;
    text.extend_from_slice(step_words(what))?;
    push_margin(alloc, margin, text)
}

#[tactic(auto, unfolding(crate::specs::Lines::margin_text))]
fn push_margin(alloc: Global, margin: u32, text: &mut Vec<u8>) -> Result<(), AllocError>
    ensures { OnOk result (text.new.items ≡ text.old.items ++ margin_text margin) }
{
    let mut digits = Vec::new(alloc);
    push_number(alloc, margin as u64, &mut digits)?;
    push_all(b"is not greater than the margin of ", &digits, b" s", text)
}

// Appends three pieces.
fn push_all(first: &[u8], second: &[u8], third: &[u8], text: &mut Vec<u8>) -> Result<(), AllocError>
    ensures { OnOk result (text.new.items ≡ text.old.items ++ (first.now ++ (second.now ++ third.now))) }
{
    text.extend_from_slice(first)?;
    text.extend_from_slice(second)?;
    text.extend_from_slice(third)
}

// The key by which an entry names the token over it.
fn over_words(what: &ChangeKind) -> &'static [u8]
    ensures { result.now ≡ over_words what.now }
{
    match what {
        ChangeKind::Add(row) if row.kind.is_lease() => b" token: ",
        ChangeKind::Add(_) | ChangeKind::Need(_) | ChangeKind::Replace(_) | ChangeKind::Drop =>
            b" parent: ",
    }
}

// The key of what its renewal would ask for.
fn step_words(what: &ChangeKind) -> &'static [u8]
    ensures { result.now ≡ step_words what.now }
{
    match what {
        ChangeKind::Add(row) if row.terms.period > 0 => b" period: ",
        ChangeKind::Add(_) | ChangeKind::Need(_) | ChangeKind::Replace(_) | ChangeKind::Drop =>
            b" increment: ",
    }
}

fn twice_words(what: &ChangeKind) -> &'static [u8]
    ensures { result.now ≡ twice_words what.now }
{
    match what {
        ChangeKind::Add(_) => b" is not added",
        ChangeKind::Need(_) | ChangeKind::Replace(_) | ChangeKind::Drop => b" keeps its own",
    }
}
