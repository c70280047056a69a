//! Why a file is not read or served, and what a disk met, in words for the one who asked.
ghost use Rattle.std.specs.Prelude.{◌≡◌, ◌++◌, ◌∷◌, IfOk, OnOk};
ghost use Rattle.program_report.specs.FaultLine.{inventory_words, place_word, tree_word};
ghost use Rattle.agent_words.specs.Reasons.{disk_words, file_words, unread_words};

use crate::demands::Demands;
use crate::fault::StartFault;
use crate::fault_line::push_start;
use base_disk::{DiskFault, DiskTrouble};
use base_moment::Text;
use base_words::push_number;
use plan_forest::Forest;
use program_report::tree_word;
use state_file::ReadFault;
use std::alloc::{AllocError, Global};
use vault_inventory::InvFault;

/// Why FILE is not read. The only error is out of memory, here and in what follows.
pub fn unread_words(alloc: Global, fault: ReadFault) -> Result<Text, AllocError>
    ensures { IfOk result (λ text. text ≡ unread_words fault) }
{
    match fault {
        ReadFault::Missing => Text::of(alloc, b"there is no such file"),
        ReadFault::NotRegular => Text::of(alloc, b"is not a regular file; name one"),
        ReadFault::ForOthers(_) => Text::of(
            alloc,
            b"others may read or write this file; chmod o-rwx it: it holds secrets",
        ),
        ReadFault::Disk(fault) => after(alloc, b"cannot be read: ", disk_words(fault)),
        ReadFault::OutOfMemory => Text::of(alloc, b"out of memory"),
    }
}

/// Why FILE is not served: its first fault as an inventory, or what is demanded of it.
pub fn file_words(
    alloc: Global,
    demands: Demands,
    forest: &Forest,
    fault: StartFault,
) -> Result<Text, AllocError>
    ensures { IfOk result (λ text. text ≡ file_words demands forest.now fault) }
{
    let mut text = Vec::new(alloc);
    match fault {
        StartFault::Inventory(fault) => push_inventory(alloc, fault, &mut text)?,
        _ => push_start(alloc, demands, forest, fault, &mut text)?,
    }
    Ok(Text::from_vec(text))
}

/// The first fault of an inventory.
pub fn inventory_words(alloc: Global, fault: InvFault) -> Result<Text, AllocError>
    ensures { IfOk result (λ text. text ≡ inventory_words fault) }
{
    let mut text = Vec::new(alloc);
    push_inventory(alloc, fault, &mut text)?;
    Ok(Text::from_vec(text))
}

/// What a disk met.
pub fn disk_words(fault: DiskFault) -> &'static [u8]
    ensures { result.now ≡ disk_words fault }
{
    match fault {
        DiskFault::Failed(DiskTrouble::Full) => b"no space is left",
        DiskFault::Failed(DiskTrouble::ReadOnly) => b"the file system is read-only",
        DiskFault::Failed(DiskTrouble::Denied) => b"permission denied",
        DiskFault::Failed(DiskTrouble::Missing) => b"no such file or folder",
        DiskFault::Failed(DiskTrouble::Irregular) => b"it is not a regular file",
        DiskFault::Failed(DiskTrouble::Other) => b"the disk failed",
        DiskFault::TooLong => b"too long",
        DiskFault::OutOfMemory => b"out of memory",
    }
}

/// Words after others.
pub fn after(alloc: Global, front: &[u8], words: &[u8]) -> Result<Text, AllocError>
    ensures { IfOk result (λ text. text ≡ front.now ++ words.now) }
{
    let mut text = Vec::from_slice(alloc, front)?;
    text.extend_from_slice(words)?;
    Ok(Text::from_vec(text))
}

// Appends the first fault of an inventory.
#[tactic(auto, unfolding(program_report::specs::FaultLine::inventory_words))]
fn push_inventory(alloc: Global, fault: InvFault, text: &mut Vec<u8>) -> Result<(), AllocError>
    ensures { OnOk result (text.new.items ≡ text.old.items ++ inventory_words fault) }
{
    match fault {
        InvFault::NotToml => text.extend_from_slice(b"inventory: not-toml"),
        InvFault::MissingKey(entry, key) => {
            let word = key.text();
            push_place(alloc, b"inventory: missing-key ", Some(entry), word, text)
        }
        InvFault::UnknownKey(place) => { push_at(alloc, b"inventory: unknown-key ", place, text) }
        InvFault::BadValue(place, key) => {
            push_place(alloc, b"inventory: bad-value ", place, key.text(), text)
        }
        InvFault::Tree(entry, fault) => {
            let word = tree_word(fault);
            push_place(alloc, b"inventory: tree ", Some(entry), word, text)
        }
        InvFault::OutOfMemory => text.extend_from_slice(b"memory"),
    }
}

// Appends words, the index of an entry, a blank, and a word.
fn push_place(
    alloc: Global,
    words: &[u8],
    place: Option<u32>,
    word: &str,
    text: &mut Vec<u8>,
) -> Result<(), AllocError>
    ensures { OnOk result (text.new.items ≡ text.old.items ++ (words.now ++ (place_word place ++ (32 ∷ word.now)))) }
{
    text.extend_from_slice(words)?;
    push_index(alloc, place, text)?;
    text.push(b' ')?;
    text.extend_from_slice(word.as_bytes())
}

// Appends words and the index of an entry.
fn push_at(
    alloc: Global,
    words: &[u8],
    place: Option<u32>,
    text: &mut Vec<u8>,
) -> Result<(), AllocError>
    ensures { OnOk result (text.new.items ≡ text.old.items ++ (words.now ++ place_word place)) }
{
    text.extend_from_slice(words)?;
    push_index(alloc, place, text)
}

// Appends the index of an entry, `-` for the top level.
#[tactic(auto, unfolding(program_report::specs::FaultLine::place_word))]
fn push_index(alloc: Global, place: Option<u32>, text: &mut Vec<u8>) -> Result<(), AllocError>
    ensures { OnOk result (text.new.items ≡ text.old.items ++ place_word place) }
{
    match place {
        None => text.extend_from_slice(b"-"),
        Some(entry) => push_number(alloc, u64::from(entry), text),
    }
}
