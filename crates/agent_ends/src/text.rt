ghost use Rattle.std.specs.Prelude.{◌≡◌, ◌++◌, IfOk, OnOk};
ghost use Rattle.agent_ends.specs.Ends.{ends_in, ends_in_line, ends_text};

use agent_standing::{KnownEnd, end_text, read_end};
use base_words::cut;
use std::alloc::{AllocError, Global};

/// The text of a file that keeps these ends: a line for each. There is no credential in it.
///
/// The only error is lack of memory.
#[tactic(auto, using(crate::proofs::Lines::text_none, crate::proofs::Lines::text_more, crate::proofs::Lines::text_all))]
pub fn ends_text(alloc: Global, ends: &[KnownEnd]) -> Result<Vec<u8>, AllocError>
    ensures { IfOk result (λ text. text.items ≡ ends_text ends.now) }
{
    let mut text = Vec::new(alloc);
    for end in ends {
        let line = end_text(alloc, end)?;
        text.extend_from_slice(line.list())?;
        text.push(b'\n')?;
    }
    Ok(text)
}

/// The ends of this boot that a text keeps. A line that keeps none, or one of another boot, counts for nothing.
///
/// The only error is lack of memory.
#[tactic(auto, unfolding(crate::specs::Ends::ends_in))]
pub fn read_ends(alloc: Global, boot: &[u8], text: &[u8]) -> Result<Vec<KnownEnd>, AllocError>
    ensures { IfOk result (λ ends. ends.items ≡ ends_in boot.now text.now) }
{
    let mut ends = Vec::new(alloc);
    let mut rest = text;
    while let Some((line, after)) = cut(rest, b'\n') {
        push_end(alloc, boot, line, &mut ends)?;
        rest = after;
    }
    push_end(alloc, boot, rest, &mut ends)?;
    Ok(ends)
}

// Appends the end that a line keeps, where it keeps one of this boot.
fn push_end(
    alloc: Global,
    boot: &[u8],
    line: &[u8],
    ends: &mut Vec<KnownEnd>,
) -> Result<(), AllocError>
    ensures { OnOk result (ends.new.items ≡ ends.old.items ++ ends_in_line boot.now line.now) }
{
    if let Some(end) = read_end(alloc, boot, line)? {
        ends.push(end)?;
    }
    Ok(())
}
