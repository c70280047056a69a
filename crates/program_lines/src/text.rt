//! Names and numbers in the lines that are written.
ghost use Rattle.std.specs.Prelude.{◌≡◌, ◌++◌, ◌∷◌, [], OnOk, codes, decimal, flat_map};
ghost use Rattle.program_lines.specs.Text.{line, name_of, names_of};

use base_words::push_number;
use plan_forest::Forest;
use std::alloc::{AllocError, Global};

/// The name of an entry, empty where there is none at that index.
#[tactic(auto, using(plan_forest::proofs::Entries::entry_at_past))]
pub fn name_of(forest: &Forest, entry: u32) -> &[u8]
    ensures { result.now ≡ name_of forest.now entry }
{
    if entry < forest.len() {
        forest.get(entry).name.list()
    } else {
        b""
    }
}

/// Appends a blank and a name. The only error is out of memory.
pub fn push_name(name: &[u8], text: &mut Vec<u8>) -> Result<(), AllocError>
    ensures { OnOk result (text.new.items ≡ text.old.items ++ (32 ∷ name.now)) }
{
    text.push(b' ')?;
    text.extend_from_slice(name)
}

/// Appends a blank and the name of each of these entries.
fn push_names(forest: &Forest, asked: &[u32], text: &mut Vec<u8>) -> Result<(), AllocError>
    ensures { OnOk result (text.new.items ≡ text.old.items ++ flat_map (λ i. 32 ∷ name_of forest.now i) asked.now) }
{
    for entry in asked {
        push_name(name_of(forest, *entry), text)?;
    }
    Ok(())
}

/// Appends `wake T NAME..` and a line feed, of the entries that are asked. The only error is out of memory.
pub fn push_wake(
    alloc: Global,
    forest: &Forest,
    t: u64,
    asked: &[u32],
    text: &mut Vec<u8>,
) -> Result<(), AllocError>
    ensures { OnOk result (text.new.items ≡ text.old.items ++ line (codes "wake" ∷ decimal t ∷ names_of forest.now asked.now)) }
{
    text.extend_from_slice(b"wake ")?;
    push_number(alloc, t, text)?;
    push_names(forest, asked, text)?;
    text.push(b'\n')?;
    Ok(())
}

/// Appends these words, a name, a blank, a number and a line feed. The only error is out of memory.
pub fn push_numbered(
    alloc: Global,
    words: &[u8],
    name: &[u8],
    number: u64,
    text: &mut Vec<u8>,
) -> Result<(), AllocError>
    ensures { OnOk result (text.new.items ≡ text.old.items ++ (words.now ++ (name.now ++ (32 ∷ (decimal number ++ (10 ∷ [])))))) }
{
    text.extend_from_slice(words)?;
    text.extend_from_slice(name)?;
    text.push(b' ')?;
    push_number(alloc, number, text)?;
    text.push(b'\n')?;
    Ok(())
}
