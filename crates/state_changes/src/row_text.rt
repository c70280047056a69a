ghost use Rattle.std.specs.Prelude.{◌≡◌, ◌&&◌, ◌==◌, not, nat_le, IfOk};
ghost use Rattle.std.specs.Int.{is_in_range};
ghost use Rattle.std.specs.List.{list_all};
ghost use Rattle.std.specs.Option.{option_map};
ghost use Rattle.std.specs.Str.{is_utf8};
ghost use Rattle.base_moment.specs.declared.moment.TheConstants.{LAST};
ghost use Rattle.base_words.specs.Numbers.{number_up_to};
ghost use Rattle.vault_inventory.specs.declared.limits.TheConstants.{SPAN_MAX};
ghost use Rattle.vault_inventory.specs.Values.{is_path};
ghost use Rattle.plan_forest.specs.Push.{is_name, is_name_byte};
ghost use Rattle.state_changes.specs.RowText.{either, four_and_rest, if_written, is_file, is_word, is_written, kind_of, life_of, limits_of, name_or_star, one_and_rest, row_of_line, row_of_words, row_with, sent_alone, sent_beside, sent_of, span_or_star, stands_for, suits, who_of};

use crate::row::Row;
use crate::words::need_of;
use base_moment::{LAST, Moment, Name, Span, Text};
use base_words::{cut, number_up_to};
use plan_forest::{END_MAX, Kind, NAME_MAX};
use std::alloc::{AllocError, Global};
use vault_inventory::{CREDENTIAL_MAX, Need, PATH_MAX, SPAN_MAX, Terms};

/// What an entry is, and what it stands under.
#[derive(Drop)]
pub(crate) struct Who {
    pub(crate) kind: Kind,
    pub(crate) name: Name,
    pub(crate) parent: Option<Name>,
    pub(crate) is_told: bool,
}

/// Its issue, its end, and how it is renewed.
#[derive(Clone, Copy)]
pub(crate) struct Life {
    pub(crate) issued: Moment,
    pub(crate) end: u64,
    pub(crate) renewable: bool,
    pub(crate) increment: Option<Span>,
}

/// How long it can be kept, and until when it is needed.
#[derive(Clone, Copy)]
pub(crate) struct Limits {
    pub(crate) period: Span,
    pub(crate) max_ttl: Span,
    pub(crate) explicit_max: Span,
    pub(crate) need: Need,
}

/// What is sent for it, and the path of the file that holds that.
#[derive(Drop)]
pub(crate) struct Sent {
    pub(crate) credential: Text,
    pub(crate) file: Option<Text>,
}

/// The row that a line writes, `None` where it writes none. The only error is out of memory.
#[tactic(auto, unfolding(crate::specs::RowText::row_of_line))]
pub(crate) fn read_row(alloc: Global, line: &[u8]) -> Result<Option<Row>, AllocError>
    ensures { IfOk result (λ row. row ≡ row_of_line line.now) }
{
    let Some((word, rest)) = one_and_rest(line) else {
        return Ok(None);
    };
    if word == b"reissued".as_slice() {
        read_words(alloc, true, rest)
    } else {
        read_words(alloc, false, line)
    }
}

// The row that a line writes before which no mark stands.
#[tactic(auto, unfolding(crate::specs::RowText::row_of_words))]
fn read_words(alloc: Global, reissued: bool, line: &[u8]) -> Result<Option<Row>, AllocError>
    ensures { IfOk result (λ row. row ≡ row_of_words reissued line.now) }
{
    let Some((kind, name, parent, told, rest)) = four_and_rest(line) else {
        return Ok(None);
    };
    let Some((issued, end, renewable, increment, rest)) = four_and_rest(rest) else {
        return Ok(None);
    };
    let Some((period, max_ttl, explicit_max, need, rest)) = four_and_rest(rest) else {
        return Ok(None);
    };
    let Some(who) = who_of(alloc, kind, name, parent, told)? else {
        return Ok(None);
    };
    let Some(life) = life_of(issued, end, renewable, increment) else {
        return Ok(None);
    };
    let Some(limits) = limits_of(period, max_ttl, explicit_max, need) else {
        return Ok(None);
    };
    let Some(sent) = sent_of(alloc, rest)? else {
        return Ok(None);
    };
    Ok(if_written(row_with(reissued, who, life, limits, sent)))
}

fn row_with(reissued: bool, who: Who, life: Life, limits: Limits, sent: Sent) -> Row
    ensures { result ≡ row_with reissued who life limits sent }
{
    Row {
        name: who.name,
        kind: who.kind,
        parent: who.parent,
        is_told: who.is_told,
        end: life.end,
        renewable: life.renewable,
        terms: Terms {
            issued: life.issued,
            increment: life.increment,
            period: limits.period,
            max_ttl: limits.max_ttl,
            explicit_max: limits.explicit_max,
            reissued,
        },
        need: limits.need,
        credential: sent.credential,
        file: sent.file,
    }
}

// The row, where a table can write it.
fn if_written(row: Row) -> Option<Row>
    ensures { result ≡ if_written row }
{
    if is_written(&row) { Some(row) } else { None }
}

// Whether a table can write such a row.
#[tactic(auto, unfolding(crate::specs::RowText::is_written))]
fn is_written(row: &Row) -> bool
    ensures { result ≡ is_written row.now }
{
    let is_whole = suits(row, row.kind) && row.terms.max_ttl > 0;
    let is_open = row.terms.issued.get() == 0 && row.end == 0;
    is_whole && ((row.is_told || is_open) && stands_for(row))
}

// Whether the terms are those of an entry of the kind.
fn suits(row: &Row, kind: Kind) -> bool
    ensures { result ≡ suits row.now kind }
{
    match kind {
        Kind::Token => row.terms.period != 0 || row.terms.increment.is_some(),
        Kind::Lease => {
            (row.parent.is_some() && row.terms.increment.is_some())
                && (row.terms.period == 0 && row.terms.explicit_max == 0)
        }
    }
}

// Whether the name stands for the credential, where that is in a file.
fn stands_for(row: &Row) -> bool
    ensures { result ≡ stands_for row.now row.now.file }
{
    match &row.file {
        None => true,
        Some(_) => row.credential.list() == row.name.list(),
    }
}

// What stands before the first space of a line, and what follows it.
pub(crate) fn one_and_rest(line: &[u8]) -> Option<(&[u8], &[u8])>
    ensures { option_map (λ w. (w.0.now, w.1.now)) result ≡ one_and_rest line.now }
{
    cut(line, b' ')
}

// The first four words of a line, and what follows them.
#[tactic(auto, unfolding(crate::specs::RowText::four_and_rest))]
fn four_and_rest(line: &[u8]) -> Option<(&[u8], &[u8], &[u8], &[u8], &[u8])>
    ensures { option_map (λ w. (w.0.now, w.1.now, w.2.now, w.3.now, w.4.now)) result ≡ four_and_rest line.now }
{
    let (first, rest) = one_and_rest(line)?;
    let (second, rest) = one_and_rest(rest)?;
    let (third, rest) = one_and_rest(rest)?;
    let (fourth, rest) = one_and_rest(rest)?;
    Some((first, second, third, fourth, rest))
}

#[tactic(auto, unfolding(crate::specs::RowText::who_of))]
fn who_of(
    alloc: Global,
    kind: &[u8],
    name: &[u8],
    parent: &[u8],
    told: &[u8],
) -> Result<Option<Who>, AllocError>
    ensures { IfOk result (λ who. who ≡ who_of kind.now name.now parent.now told.now) }
{
    let Some(kind) = kind_of(kind) else {
        return Ok(None);
    };
    let Some(parent) = name_or_star(alloc, parent)? else {
        return Ok(None);
    };
    let Some(is_told) = either(told, b"told", b"open") else {
        return Ok(None);
    };
    if !is_name(name) {
        return Ok(None);
    }
    Ok(Some(Who {
        kind,
        name: Name::of(alloc, name)?,
        parent,
        is_told,
    }))
}

#[tactic(auto, unfolding(crate::specs::RowText::life_of))]
fn life_of(issued: &[u8], end: &[u8], renewable: &[u8], increment: &[u8]) -> Option<Life>
    ensures { result ≡ life_of issued.now end.now renewable.now increment.now }
{
    Some(Life {
        issued: moment_of(issued)?,
        end: number_up_to(end, END_MAX)?,
        renewable: either(renewable, b"renewable", b"fixed")?,
        increment: span_or_star(increment)?,
    })
}

#[tactic(auto, unfolding(crate::specs::RowText::limits_of))]
fn limits_of(period: &[u8], max_ttl: &[u8], explicit_max: &[u8], need: &[u8]) -> Option<Limits>
    ensures { result ≡ limits_of period.now max_ttl.now explicit_max.now need.now }
{
    Some(Limits {
        period: span_of(period)?,
        max_ttl: span_of(max_ttl)?,
        explicit_max: span_of(explicit_max)?,
        need: need_of(need)?,
    })
}

// A credential, and after a space the path of its file.
#[tactic(auto, unfolding(crate::specs::RowText::sent_of))]
fn sent_of(alloc: Global, text: &[u8]) -> Result<Option<Sent>, AllocError>
    ensures { IfOk result (λ sent. sent ≡ sent_of text.now) }
{
    match one_and_rest(text) {
        None => sent_alone(alloc, text),
        Some((credential, file)) => sent_beside(alloc, credential, file),
    }
}

fn sent_alone(alloc: Global, credential: &[u8]) -> Result<Option<Sent>, AllocError>
    ensures { IfOk result (λ sent. sent ≡ sent_alone credential.now) }
{
    if !is_word(credential) {
        return Ok(None);
    }
    Ok(Some(Sent {
        credential: Text::of(alloc, credential)?,
        file: None,
    }))
}

fn sent_beside(alloc: Global, credential: &[u8], file: &[u8]) -> Result<Option<Sent>, AllocError>
    ensures { IfOk result (λ sent. sent ≡ sent_beside credential.now file.now) }
{
    if !is_word(credential) || !is_file(file) {
        return Ok(None);
    }
    Ok(Some(Sent {
        credential: Text::of(alloc, credential)?,
        file: Some(Text::of(alloc, file)?),
    }))
}

#[tactic(auto, unfolding(crate::specs::RowText::kind_of))]
fn kind_of(word: &[u8]) -> Option<Kind>
    ensures { result ≡ kind_of word.now }
{
    if word == b"token".as_slice() {
        Some(Kind::Token)
    } else if word == b"lease".as_slice() {
        Some(Kind::Lease)
    } else {
        None
    }
}

// Whether a word is the first of two, or the second.
#[tactic(auto, unfolding(crate::specs::RowText::either))]
fn either(word: &[u8], yes: &[u8], no: &[u8]) -> Option<bool>
    ensures { result ≡ either yes.now no.now word.now }
{
    if word == yes {
        Some(true)
    } else if word == no {
        Some(false)
    } else {
        None
    }
}

// A name, or the star that stands for none.
#[tactic(auto, unfolding(crate::specs::RowText::name_or_star))]
fn name_or_star(alloc: Global, word: &[u8]) -> Result<Option<Option<Name>>, AllocError>
    ensures { IfOk result (λ name. name ≡ name_or_star word.now) }
{
    if word == b"*".as_slice() {
        return Ok(Some(None));
    }
    if !is_name(word) {
        return Ok(None);
    }
    Ok(Some(Some(Name::of(alloc, word)?)))
}

// A duration, or the star that stands for none.
#[tactic(auto, unfolding(crate::specs::RowText::span_or_star))]
fn span_or_star(word: &[u8]) -> Option<Option<Span>>
    ensures { result ≡ span_or_star word.now }
{
    if word == b"*".as_slice() {
        return Some(None);
    }
    Some(Some(span_of(word)?))
}

fn span_of(word: &[u8]) -> Option<Span>
    ensures { result ≡ number_up_to SPAN_MAX word.now }
{
    let seconds = number_up_to(word, SPAN_MAX as u64)?;
    Some(seconds as Span)
}

fn moment_of(word: &[u8]) -> Option<Moment>
    ensures { result ≡ number_up_to LAST word.now }
{
    let seconds = number_up_to(word, LAST)?;
    Moment::new(seconds)
}

/// Whether these bytes are a name: 1 to 64 ASCII letters, digits, `-`, `_`, `.` or `/`.
#[tactic(auto, unfolding(plan_forest::specs::Push::is_name))]
pub(crate) fn is_name(name: &[u8]) -> bool
    ensures { result ≡ is_name name.now }
{
    !name.is_empty() && name.len() <= NAME_MAX && has_name_bytes(name)
}

fn has_name_bytes(name: &[u8]) -> bool
    ensures { result ≡ list_all is_name_byte name.now }
{
    name.iter().all(|b| {
        b.is_ascii_alphanumeric() || *b == b'-' || *b == b'_' || *b == b'.' || *b == b'/'
    })
}

/// Whether these bytes are a word: 1 to 256 bytes from 0x21 to 0x7E.
pub(crate) fn is_word(word: &[u8]) -> bool
    ensures { result ≡ is_word word.now }
{
    !word.is_empty() && word.len() <= CREDENTIAL_MAX && is_visible(word)
}

fn is_visible(word: &[u8]) -> bool
    ensures { result ≡ list_all (is_in_range 0x21 0x7E) word.now }
{
    word.iter().all(|b| *b >= 0x21 && *b <= 0x7e)
}

// Whether these bytes are a path as a table can write it: 1 to 4,096 bytes in UTF-8, none of them a control character.
#[tactic(auto, unfolding(crate::specs::RowText::is_file))]
fn is_file(path: &[u8]) -> bool
    ensures { result ≡ is_file path.now }
{
    is_path(path) && is_text(path)
}

#[tactic(auto, unfolding(vault_inventory::specs::Values::is_path))]
fn is_path(path: &[u8]) -> bool
    ensures { result ≡ is_path path.now }
{
    !path.is_empty() && path.len() <= PATH_MAX && has_path_bytes(path)
}

fn has_path_bytes(path: &[u8]) -> bool
    ensures { result ≡ list_all (λ b. nat_le 0x20 b && not (b == 0x7F)) path.now }
{
    path.iter().all(|b| *b >= 0x20 && *b != 0x7f)
}

fn is_text(bytes: &[u8]) -> bool
    ensures { result ≡ is_utf8 bytes.now }
{
    let Ok(_text) = std::str::from_utf8(bytes) else {
        return false;
    };
    true
}
