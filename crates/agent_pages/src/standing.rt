//! How the agent and each of its entries stand, as lines for people.
ghost use Rattle.std.specs.Prelude.{◌≡◌, ◌++◌, List, ℕ, IfOk, OnOk, decimal};
ghost use Rattle.agent_pages.specs.Standing.{IsStandingLine, first_line, standing_line, wrong_word};

use crate::board::{Board, BoardRow};
use crate::point::{point_at, point_of, point_text};
use agent_standing::Trouble;
use base_words::push_number;
use std::alloc::{AllocError, Global};

/// The line of the agent, where that is the text of the next wake-up. The only error is out of memory, here and in what follows.
#[tactic(auto, unfolding(crate::specs::Standing::first_line))]
pub(crate) fn first_line(alloc: Global, board: &Board, next: &[u8]) -> Result<Vec<u8>, AllocError>
    ensures { IfOk result (λ line. line.items ≡ first_line board.now next.now) }
{
    let mut line = Vec::new(alloc);
    line.extend_from_slice(b"standby ")?;
    line.extend_from_slice(board.surroundings.standby.word().as_bytes())?;
    push_both(b" next-wake ", next, &mut line)?;
    push_count(alloc, b" beginnings ", board.beginnings, &mut line)?;
    push_count(alloc, b" margin ", u64::from(board.margin), &mut line)?;
    line.extend_from_slice(b"\n")?;
    Ok(line)
}

/// Appends a word and the number that follows it.
fn push_count(alloc: Global, label: &[u8], count: u64, line: &mut Vec<u8>) -> Result<(), AllocError>
    ensures { OnOk result (line.new.items ≡ line.old.items ++ (label.now ++ decimal count)) }
{
    line.extend_from_slice(label)?;
    push_number(alloc, count, line)
}

/// Appends the line of an entry.
pub(crate) fn push_standing(
    alloc: Global,
    row: &BoardRow,
    text: &mut Vec<u8>,
) -> Result<(), AllocError>
    ensures { OnOk result ((line : List ℕ) × IsStandingLine row.now line × (text.new.items ≡ text.old.items ++ line)) }
{
    let until = point_text(alloc, point_of(row.end))?;
    let needed = point_text(alloc, point_at(row.need))?;
    let reached = point_text(alloc, point_at(row.in_force))?;
    let renewed = point_text(alloc, point_of(row.last_success))?;
    push_line(
        row,
        until.list(),
        needed.list(),
        reached.list(),
        renewed.list(),
        text,
    )
}

/// Appends the line of an entry, of whose four moments these are the texts.
#[tactic(auto, unfolding(crate::specs::Standing::standing_line))]
fn push_line(
    row: &BoardRow,
    until: &[u8],
    needed: &[u8],
    reached: &[u8],
    renewed: &[u8],
    text: &mut Vec<u8>,
) -> Result<(), AllocError>
    ensures { OnOk result (text.new.items ≡ text.old.items ++ standing_line row.now until.now needed.now reached.now renewed.now) }
{
    push_both(row.name.list(), b" ", text)?;
    push_both(row.state.word().as_bytes(), b" end ", text)?;
    push_both(until, b" need ", text)?;
    push_both(needed, b" in-force ", text)?;
    push_both(reached, b" last-success ", text)?;
    push_both(renewed, b" wrong ", text)?;
    push_both(wrong_word(row.trouble).as_bytes(), b"\n", text)
}

/// Appends one piece and then the other.
fn push_both(one: &[u8], other: &[u8], text: &mut Vec<u8>) -> Result<(), AllocError>
    ensures { OnOk result (text.new.items ≡ text.old.items ++ (one.now ++ other.now)) }
{
    text.extend_from_slice(one)?;
    text.extend_from_slice(other)
}

/// What is wrong with an entry.
fn wrong_word(trouble: Option<Trouble>) -> &'static str
    ensures { result.now ≡ wrong_word trouble }
{
    match trouble {
        None => "-",
        Some(Trouble::Lost) => "lost",
        Some(Trouble::Refused) => "refused",
        Some(Trouble::Gone) => "gone",
    }
}
