//! Where in the text of an inventory the tables of its entries stand, and their keys.
ghost use Rattle.std.specs.Prelude.{◌≡◌, ◌<◌, ◌++◌, IfOk, IfSome, OnOk, drop, length};
ghost use Rattle.vault_lint.specs.Marks.{marks_of};
ghost use Rattle.vault_lint.specs.Places.{begins_table, first_in, head_at, heads_from, is_sought, is_table_of, heads_of};

use crate::mark::{Mark, is_of_table, mark_of};
use base_words::cut;
use plan_forest::Kind;
use std::alloc::{AllocError, Global};
use vault_inventory::Key;

/// What is looked for in a table, or in what stands before the first one.
#[derive(Clone, Copy, Debug)]
pub(crate) enum Sought {
    /// The value of this key.
    Key(Key),
    /// The value of a key that a table of this kind, or the top level, does not have.
    Unknown(Option<Kind>),
}

/// What each line of the text begins. The only error is lack of memory.
#[tactic(auto, unfolding(crate::specs::Marks::marks_of))]
pub(crate) fn marks_of(alloc: Global, text: &[u8]) -> Result<Vec<Mark>, AllocError>
    ensures { IfOk result (λ marks. marks.items ≡ marks_of text.now) }
{
    let mut marks = Vec::new(alloc);
    let mut rest = text;
    while let Some((line, after)) = cut(rest, b'\n') {
        marks.push(mark_of(alloc, line)?)?;
        rest = after;
    }
    marks.push(mark_of(alloc, rest)?)?;
    Ok(marks)
}

/// The numbers of the lines, counted from 1, that begin the tables of entries, in the order of the entries: all tokens first. The only
/// error is lack of memory.
#[tactic(auto, unfolding(crate::specs::Places::heads_of))]
pub(crate) fn heads_of(alloc: Global, marks: &[Mark]) -> Result<Vec<usize>, AllocError>
    ensures { IfOk result (λ heads. heads.items ≡ heads_of marks.now) }
{
    let mut heads = Vec::new(alloc);
    push_heads(marks, Kind::Token, &mut heads)?;
    push_heads(marks, Kind::Lease, &mut heads)?;
    Ok(heads)
}

// Appends the lines that begin the tables of one kind.
fn push_heads(marks: &[Mark], kind: Kind, heads: &mut Vec<usize>) -> Result<(), AllocError>
    ensures { OnOk result (heads.new.items ≡ heads.old.items ++ heads_from kind 0 marks.now) }
{
    for at in 0..marks.len() {
        push_head(marks[at], kind, at + 1, heads)?;
    }
    Ok(())
}

// Appends the number of a line, where it begins the table of such an entry.
fn push_head(mark: Mark, kind: Kind, line: usize, heads: &mut Vec<usize>) -> Result<(), AllocError>
    ensures { OnOk result (heads.new.items ≡ heads.old.items ++ head_at kind line mark) }
{
    if is_table_of(mark, kind) {
        heads.push(line)?;
    }
    Ok(())
}

/// The first line from this one on, counted from 0, that begins what is sought, before the next table.
pub(crate) fn first_in(marks: &[Mark], sought: Sought, from: usize) -> Option<usize>
    ensures found { result ≡ first_in sought from (drop from marks.now) }
    ensures within { IfSome result (λ at. at < length marks.now) }
{
    for at in from..marks.len() {
        if is_sought(sought, marks[at]) {
            return Some(at);
        }
        if begins_table(marks[at]) {
            return None;
        }
    }
    None
}

fn is_table_of(mark: Mark, kind: Kind) -> bool
    ensures { result ≡ is_table_of kind mark }
{
    match mark {
        Mark::Table(Kind::Token) => matches!(kind, Kind::Token),
        Mark::Table(Kind::Lease) => matches!(kind, Kind::Lease),
        _ => false,
    }
}

fn begins_table(mark: Mark) -> bool
    ensures { result ≡ begins_table mark }
{
    matches!(mark, Mark::Table(_) | Mark::Other)
}

fn is_sought(sought: Sought, mark: Mark) -> bool
    ensures { result ≡ is_sought sought mark }
{
    match (sought, mark) {
        (Sought::Key(key), Mark::Key(other)) => key.text() == other.text(),
        (Sought::Unknown(table), Mark::Key(key)) => !is_of_table(table, key),
        (Sought::Unknown(_), Mark::Unknown) => true,
        _ => false,
    }
}
