ghost use Rattle.std.specs.Prelude.{◌≡◌, IfOk};
ghost use Rattle.state_changes.specs.Records.{add_line, added_of, drop_line, made_of, need_line, record_of, replace_line, settling_line};

use crate::change::{Change, ChangeKind, Record};
use crate::row::Row;
use crate::row_text::{is_name, is_word, one_and_rest, read_row};
use crate::words::need_of;
use base_moment::{Name, Text};
use base_words::{begins, four_words, three_words, two_words};
use std::alloc::{AllocError, Global};

/// The record that a line writes, `None` where it writes none. The line has no line feed.
///
/// The only error is out of memory.
#[tactic(auto, unfolding(crate::specs::Records::record_of))]
pub fn read_record(alloc: Global, text: &[u8]) -> Result<Option<Record>, AllocError>
    ensures { IfOk result (λ read. read ≡ record_of text.now) }
{
    if begins(text, b"need") {
        need_line(alloc, text)
    } else if begins(text, b"replace") {
        replace_line(alloc, text)
    } else if begins(text, b"add") {
        add_line(alloc, text)
    } else if begins(text, b"drop") {
        drop_line(alloc, text)
    } else if begins(text, b"settling") {
        settling_line(alloc, text)
    } else {
        Ok(None)
    }
}

// The line `need NAME WAS UNTIL`.
#[tactic(auto, unfolding(crate::specs::Records::need_line))]
fn need_line(alloc: Global, text: &[u8]) -> Result<Option<Record>, AllocError>
    ensures { IfOk result (λ read. read ≡ need_line text.now) }
{
    let Some((_, name, was, until)) = four_words(text) else {
        return Ok(None);
    };
    match need_of(until) {
        None => Ok(None),
        Some(until) => made_of(alloc, name, was, ChangeKind::Need(until)),
    }
}

// The line `replace NAME WAS CREDENTIAL`.
#[tactic(auto, unfolding(crate::specs::Records::replace_line))]
fn replace_line(alloc: Global, text: &[u8]) -> Result<Option<Record>, AllocError>
    ensures { IfOk result (λ read. read ≡ replace_line text.now) }
{
    let Some((_, name, was, credential)) = four_words(text) else {
        return Ok(None);
    };
    if !is_word(credential) {
        return Ok(None);
    }
    let credential = Text::of(alloc, credential)?;
    made_of(alloc, name, was, ChangeKind::Replace(credential))
}

// The line `add WAS ROW`.
#[tactic(auto, unfolding(crate::specs::Records::add_line))]
fn add_line(alloc: Global, text: &[u8]) -> Result<Option<Record>, AllocError>
    ensures { IfOk result (λ read. read ≡ add_line text.now) }
{
    let Some((_, rest)) = one_and_rest(text) else {
        return Ok(None);
    };
    let Some((was, line)) = one_and_rest(rest) else {
        return Ok(None);
    };
    let row = read_row(alloc, line)?;
    added_of(alloc, was, row)
}

// The addition of a row, where it is one.
fn added_of(alloc: Global, was: &[u8], row: Option<Row>) -> Result<Option<Record>, AllocError>
    ensures { IfOk result (λ read. read ≡ added_of was.now row) }
{
    let Some(row) = row else {
        return Ok(None);
    };
    let name = row.name.clone()?;
    made_of(alloc, name.list(), was, ChangeKind::Add(row))
}

// The line `drop NAME WAS`.
#[tactic(auto, unfolding(crate::specs::Records::drop_line))]
fn drop_line(alloc: Global, text: &[u8]) -> Result<Option<Record>, AllocError>
    ensures { IfOk result (λ read. read ≡ drop_line text.now) }
{
    let Some((_, name, was)) = three_words(text) else {
        return Ok(None);
    };
    made_of(alloc, name, was, ChangeKind::Drop)
}

// The line `settling MARK`.
#[tactic(auto, unfolding(crate::specs::Records::settling_line))]
fn settling_line(alloc: Global, text: &[u8]) -> Result<Option<Record>, AllocError>
    ensures { IfOk result (λ read. read ≡ settling_line text.now) }
{
    let Some((_, mark)) = two_words(text) else {
        return Ok(None);
    };
    if !is_word(mark) {
        return Ok(None);
    }
    Ok(Some(Record::Settling(Text::of(alloc, mark)?)))
}

// A change of the entry of that name, where these can be its words.
#[tactic(auto, unfolding(crate::specs::Records::made_of))]
fn made_of(
    alloc: Global,
    name: &[u8],
    was: &[u8],
    what: ChangeKind,
) -> Result<Option<Record>, AllocError>
    ensures { IfOk result (λ read. read ≡ made_of name.now was.now what) }
{
    if !is_name(name) || !is_word(was) {
        return Ok(None);
    }
    Ok(Some(Record::Made(Change {
        name: Name::of(alloc, name)?,
        was: Text::of(alloc, was)?,
        what,
    })))
}
