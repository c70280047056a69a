//! The status and health as lines for people.
ghost use Rattle.std.specs.Prelude.{◌≡◌, ◌++◌, List, ℕ, IfOk, OnOk};
ghost use Rattle.agent_pages.specs.Health.{is_healthy};
ghost use Rattle.agent_pages.specs.Lines.{AreEntryLines, IsEntryLine, IsHealthIf, IsHealthText, IsStandingText};

use crate::board::{Board, BoardRow};
use crate::health::{is_healthy, push_missing};
use crate::point::{point_of, point_text};
use crate::standing::{first_line, push_standing};
use std::alloc::{AllocError, Global};

/// Which lines are written of entries.
#[derive(Clone, Copy, Debug)]
pub(crate) enum Lines {
    /// How each stands.
    Standing,
    /// Why it is not kept, of each that is needed at this moment of the broker's clock and is not.
    Missing(u64),
}

/// How the agent and each entry stand. The only error is out of memory, here and in what follows.
#[tactic(auto, unfolding(crate::specs::Lines::IsStandingText))]
pub(crate) fn standing_text(alloc: Global, board: &Board) -> Result<Vec<u8>, AllocError>
    ensures { IfOk result (λ text. IsStandingText board.now text.items) }
{
    let next = point_text(alloc, point_of(board.surroundings.next_wake))?;
    let mut text = first_line(alloc, board, next.list())?;
    push_lines(alloc, Lines::Standing, board.rows.list(), &mut text)?;
    Ok(text)
}

/// What is wrong with the entries, or that nothing is; and then what is to be said of the state folder.
#[tactic(auto, unfolding(crate::specs::Lines::IsHealthText))]
pub(crate) fn health_text(alloc: Global, board: &Board) -> Result<Vec<u8>, AllocError>
    ensures { IfOk result (λ text. IsHealthText board.now text.items) }
{
    let mut text = entries_health(alloc, board)?;
    text.extend_from_slice(board.surroundings.state_folder.line().as_bytes())?;
    Ok(text)
}

/// A line for each entry that is needed and not kept, or one that says that there is none.
fn entries_health(alloc: Global, board: &Board) -> Result<Vec<u8>, AllocError>
    ensures { IfOk result (λ text. IsHealthIf (is_healthy board.now) board.now text.items) }
{
    if is_healthy(board) {
        return Vec::from_slice(alloc, b"every needed entry is kept\n");
    }
    let mut text = Vec::new(alloc);
    let lines = Lines::Missing(board.broker_now);
    push_lines(alloc, lines, board.rows.list(), &mut text)?;
    Ok(text)
}

/// Appends the lines of entries.
fn push_lines(
    alloc: Global,
    lines: Lines,
    rows: &[BoardRow],
    text: &mut Vec<u8>,
) -> Result<(), AllocError>
    ensures { OnOk result ((said : List ℕ) × AreEntryLines lines rows.now said × (text.new.items ≡ text.old.items ++ said)) }
{
    for row in rows {
        push_line(alloc, lines, row, text)?;
    }
    Ok(())
}

/// Appends what is written of an entry.
fn push_line(
    alloc: Global,
    lines: Lines,
    row: &BoardRow,
    text: &mut Vec<u8>,
) -> Result<(), AllocError>
    ensures { OnOk result ((line : List ℕ) × IsEntryLine lines row.now line × (text.new.items ≡ text.old.items ++ line)) }
{
    match lines {
        Lines::Standing => push_standing(alloc, row, text),
        Lines::Missing(now) => push_missing(alloc, now, row, text),
    }
}
