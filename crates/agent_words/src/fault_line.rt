//! What is said of a start that is refused.
ghost use Rattle.std.specs.Prelude.{◌≡◌, ◌∷◌, ◌++◌, [], IfOk, OnOk, codes, decimal};
ghost use Rattle.program_lines.specs.Text.{name_of};
ghost use Rattle.plan_forest.specs.Forest.{entry_at};
ghost use Rattle.plan_forest.specs.Push.{is_lease};
ghost use Rattle.agent_words.specs.Refusing.{file_key, of_key, own_key, refused_words, remedy_where, small_words, start_refusal_line, start_words, taken_words, together_words};

use crate::demands::Demands;
use crate::fault::StartFault;
use base_words::push_number;
use plan_forest::Forest;
use state_file::SettleFault;
use std::alloc::{AllocError, Global};
use vault_inventory::InvFault;

/// What is said of a start that is refused, a line with the program's name in front: the entry, the key and the remedy. `forest` is
/// that of the inventory. The only error is lack of memory.
#[tactic(auto, using(crate::proofs::Pieces::four_pieces))]
pub fn line_of_fault(
    alloc: Global,
    program: &str,
    demands: Demands,
    forest: &Forest,
    fault: StartFault,
) -> Result<Vec<u8>, AllocError>
    ensures { IfOk result (λ text. text.items ≡ start_refusal_line program.now demands forest.now fault) }
{
    let mut text = Vec::from_slice(alloc, program.as_bytes())?;
    text.extend_from_slice(b": ")?;
    push_start(alloc, demands, forest, fault, &mut text)?;
    text.push(b'\n')?;
    Ok(text)
}

/// Appends why a start is refused.
#[tactic(auto, unfolding(crate::specs::Refusing::start_words))]
pub(crate) fn push_start(
    alloc: Global,
    demands: Demands,
    forest: &Forest,
    fault: StartFault,
    text: &mut Vec<u8>,
) -> Result<(), AllocError>
    ensures { OnOk result (text.new.items ≡ text.old.items ++ start_words demands forest.now fault) }
{
    match fault {
        StartFault::Inventory(_) => text.extend_from_slice(b"the inventory is faulty"),
        StartFault::NoMargin => push_unwritten(demands, text),
        StartFault::SmallMargin => { push_small(alloc, demands, u64::from(forest.margin()), text) }
        StartFault::NoCredential(entry) => push_of_key(
            forest,
            entry,
            own_key(forest, entry),
            b"is not written; write it (with --names-are-secrets the name is sent in its place, for trials)",
            text,
        ),
        StartFault::NoFile(entry) => push_of_file(
            forest,
            entry,
            b"the file cannot be read; put the credential there before the start",
            text,
        ),
        StartFault::NoSecret(entry) => push_of_file(
            forest,
            entry,
            b"the file holds no credential of 1 to 256 printable ASCII characters; write it there",
            text,
        ),
        StartFault::Together(fault) => push_together(forest, fault, text),
        StartFault::OutOfMemory => text.extend_from_slice(b"memory"),
    }
}

fn push_together(forest: &Forest, fault: SettleFault, text: &mut Vec<u8>) -> Result<(), AllocError>
    ensures { OnOk result (text.new.items ≡ text.old.items ++ together_words forest.now fault) }
{
    match fault {
        SettleFault::TooLong => text.extend_from_slice(
            b"the inventory with what its files hold is over 1048576 bytes; split it",
        ),
        SettleFault::Refused(fault) => push_refused(forest, fault, text),
        SettleFault::Differs => {
            text.extend_from_slice(b"the inventory with what its files hold is none")
        }
        SettleFault::OutOfMemory => text.extend_from_slice(b"memory"),
    }
}

fn push_refused(forest: &Forest, fault: InvFault, text: &mut Vec<u8>) -> Result<(), AllocError>
    ensures { OnOk result (text.new.items ≡ text.old.items ++ refused_words forest.now fault) }
{
    match fault {
        InvFault::BadValue(entry, _) => push_taken(forest, entry, text),
        _ => text.extend_from_slice(b"the inventory with what its files hold is none"),
    }
}

fn push_taken(forest: &Forest, entry: Option<u32>, text: &mut Vec<u8>) -> Result<(), AllocError>
    ensures { OnOk result (text.new.items ≡ text.old.items ++ taken_words forest.now entry) }
{
    match entry {
        None => text.extend_from_slice(b"the inventory with what its files hold is none"),
        Some(entry) => push_of_file(
            forest,
            entry as usize,
            b"the file holds what another entry has; write each its own",
            text,
        ),
    }
}

// How long a margin is to be written.
fn remedy(behind: Option<u64>) -> &'static [u8]
    ensures { result.now ≡ remedy_where behind }
{
    match behind {
        None => b"write one of at least 4 times the time-out",
        Some(_) => b"with --behind write one of at least 8 times the time-out",
    }
}

// Appends that no margin is written, and how long it is to be.
fn push_unwritten(demands: Demands, text: &mut Vec<u8>) -> Result<(), AllocError>
    ensures { OnOk result (text.new.items ≡ text.old.items ++ (codes "margin: is not written; " ++ remedy_where demands.behind)) }
{
    text.extend_from_slice(b"margin: is not written; ")?;
    text.extend_from_slice(remedy(demands.behind))
}

// Appends how long the margin is, and how long it has to be at least.
fn push_small(
    alloc: Global,
    demands: Demands,
    margin: u64,
    text: &mut Vec<u8>,
) -> Result<(), AllocError>
    ensures { OnOk result (text.new.items ≡ text.old.items ++ small_words demands margin) }
{
    text.extend_from_slice(b"margin: is ")?;
    push_number(alloc, margin, text)?;
    text.extend_from_slice(b" seconds; ")?;
    text.extend_from_slice(remedy(demands.behind))?;
    text.extend_from_slice(b", ")?;
    push_number(alloc, demands.least_margin(), text)?;
    text.extend_from_slice(b" seconds")?;
    Ok(())
}

// Appends an entry, the key of its file, and words.
fn push_of_file(
    forest: &Forest,
    entry: usize,
    words: &[u8],
    text: &mut Vec<u8>,
) -> Result<(), AllocError>
    ensures { OnOk result (text.new.items ≡ text.old.items ++ of_key forest.now entry (file_key forest.now entry) words.now) }
{
    push_of_key(forest, entry, file_key(forest, entry), words, text)
}

// Appends an entry, a key of it, and words.
#[tactic(auto, using(crate::proofs::Pieces::five_pieces))]
fn push_of_key(
    forest: &Forest,
    entry: usize,
    key: &[u8],
    words: &[u8],
    text: &mut Vec<u8>,
) -> Result<(), AllocError>
    ensures { OnOk result (text.new.items ≡ text.old.items ++ of_key forest.now entry key.now words.now) }
{
    text.extend_from_slice(name_of(forest, entry))?;
    text.extend_from_slice(b": ")?;
    text.extend_from_slice(key)?;
    text.extend_from_slice(b": ")?;
    text.extend_from_slice(words)
}

fn own_key(forest: &Forest, entry: usize) -> &'static [u8]
    ensures { result.now ≡ own_key forest.now entry }
{
    if is_lease(forest, entry) {
        b"lease_id"
    } else {
        b"secret"
    }
}

fn file_key(forest: &Forest, entry: usize) -> &'static [u8]
    ensures { result.now ≡ file_key forest.now entry }
{
    if is_lease(forest, entry) {
        b"lease_id_file"
    } else {
        b"secret_file"
    }
}

// The name of an entry, empty past the last one.
#[tactic(auto, using(plan_forest::proofs::Entries::entry_at_past))]
fn name_of(forest: &Forest, entry: usize) -> &[u8]
    ensures { result.now ≡ name_of forest.now entry }
{
    if entry < forest.len() as usize {
        forest.get(entry as u32).name.list()
    } else {
        b""
    }
}

// Whether an entry is a lease; there is none past the last one.
#[tactic(auto, using(plan_forest::proofs::Entries::entry_at_past))]
fn is_lease(forest: &Forest, entry: usize) -> bool
    ensures { result ≡ is_lease (entry_at forest.now.entries entry).kind }
{
    entry < forest.len() as usize && forest.get(entry as u32).kind.is_lease()
}
