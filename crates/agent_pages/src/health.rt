//! Whether all that is needed is kept, and the line of an entry that is not.
ghost use Rattle.std.specs.Prelude.{◌≡◌, ◌++◌, List, ℕ, IfOk, OnOk};
ghost use Rattle.std.specs.List.{list_any};
ghost use Rattle.agent_pages.specs.Health.{IsMissingLine, IsMissingLineIf, SaysWhyMoment, is_healthy, is_missing, missing_line, needed_words, why_words};

use crate::board::{Board, BoardRow};
use crate::point::{point_at, point_of, point_text};
use crate::state::EntryState;
use base_moment::{LAST, Text};
use std::alloc::{AllocError, Global};

/// Whether every entry that is needed is kept.
#[tactic(auto, unfolding(crate::specs::Health::is_healthy))]
pub(crate) fn is_healthy(board: &Board) -> bool
    ensures { result ≡ is_healthy board.now }
{
    !is_some_missing(board.broker_now, board.rows.list())
}

/// Whether some entry is missing.
fn is_some_missing(now: u64, rows: &[BoardRow]) -> bool
    ensures { result ≡ list_any (is_missing now) rows.now }
{
    rows.iter().any(|row| is_missing(now, row))
}

#[tactic(auto, unfolding(crate::specs::Health::is_missing))]
fn is_missing(now: u64, row: &BoardRow) -> bool
    ensures { result ≡ is_missing now row.now }
{
    row.carried > now && !row.state.is_kept()
}

/// Appends the line of an entry that is missing at that moment of the broker's clock, and nothing where it is not. The only error is out
/// of memory, here and in what follows.
pub(crate) fn push_missing(
    alloc: Global,
    now: u64,
    row: &BoardRow,
    text: &mut Vec<u8>,
) -> Result<(), AllocError>
    ensures { OnOk result ((line : List ℕ) × IsMissingLineIf (is_missing now row.now) row.now line × (text.new.items ≡ text.old.items ++ line)) }
{
    if is_missing(now, row) {
        push_missing_line(alloc, row, text)
    } else {
        Ok(())
    }
}

fn push_missing_line(alloc: Global, row: &BoardRow, text: &mut Vec<u8>) -> Result<(), AllocError>
    ensures { OnOk result ((line : List ℕ) × IsMissingLine row.now line × (text.new.items ≡ text.old.items ++ line)) }
{
    let why = why_moment(alloc, row.state, row)?;
    let need = point_text(alloc, point_at(row.carried))?;
    push_line(row, why.list(), need.list(), text)
}

/// The moment that follows why an entry in that state is not kept.
fn why_moment(alloc: Global, state: EntryState, row: &BoardRow) -> Result<Text, AllocError>
    ensures { IfOk result (λ why. SaysWhyMoment state row.now why) }
{
    match state {
        EntryState::Ended => point_text(alloc, point_of(row.end)),
        EntryState::Short => point_text(alloc, point_at(row.in_force)),
        _ => Text::of(alloc, b""),
    }
}

/// Appends the line of an entry, where these are the text of the moment that follows why it is not kept, and that of its need.
#[tactic(auto, unfolding(crate::specs::Health::missing_line))]
fn push_line(row: &BoardRow, why: &[u8], need: &[u8], text: &mut Vec<u8>) -> Result<(), AllocError>
    ensures { OnOk result (text.new.items ≡ text.old.items ++ missing_line row.now why.now need.now) }
{
    text.extend_from_slice(row.name.list())?;
    text.extend_from_slice(b" ")?;
    text.extend_from_slice(why_words(row.state).as_bytes())?;
    text.extend_from_slice(why)?;
    text.extend_from_slice(needed_words(row.carried).as_bytes())?;
    text.extend_from_slice(need)?;
    text.extend_from_slice(b"\n")
}

/// Why an entry is not kept, without the moment that may follow.
#[tactic(auto, unfolding(crate::specs::Health::why_words))]
fn why_words(state: EntryState) -> &'static str
    ensures { result.now ≡ why_words state }
{
    match state {
        EntryState::Gone => "gone: the broker does not know it, or refuses to look it up",
        EntryState::Ended => "ended: at ",
        EntryState::Waiting => "waiting: its credential is not in use yet",
        EntryState::Short => "short: it can be kept until ",
        EntryState::Unknown => "unknown: the broker has not answered for it yet",
        EntryState::Trying => "trying",
        EntryState::Kept => "kept",
    }
}

/// That an entry is needed, without the moment that follows.
#[tactic(auto, unfolding(crate::specs::Health::needed_words))]
fn needed_words(need: u64) -> &'static str
    ensures { result.now ≡ needed_words need }
{
    if need < LAST {
        ", and is needed until "
    } else {
        ", and is needed "
    }
}
