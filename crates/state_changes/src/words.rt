ghost use Rattle.std.specs.Prelude.{◌≡◌, ◌++◌, ◌∷◌, [], IfOk, OnOk, Some};
ghost use Rattle.vault_inventory.specs.Kinds.{kind_word};
ghost use Rattle.state_changes.specs.Words.{file_end, fingerprint, life_words, mark_text, name_word, need_in_word, number_word, plain_text, renewable_word, row_text, spaced, terms_words, told_word, who_words};
ghost use Rattle.vault_inventory.specs.Needs.{need_word};

use crate::row::Row;
use base_moment::{LAST, Moment, Name, Span, Text};
use base_words::{number_up_to, push_number};
use plan_forest::Kind;
use sha2::{Digest, Sha256};
use std::alloc::{AllocError, Global};
use vault_inventory::Need;

/// What bytes are known by: their SHA-256 in 64 hexadecimal digits. The only error is out of memory.
///
/// Source: FIPS 180-4.
#[tactic(auto, unfolding(crate::specs::Words::fingerprint))]
pub fn fingerprint(alloc: Global, bytes: &[u8]) -> Result<Text, AllocError>
    ensures { IfOk result (λ text. text ≡ fingerprint bytes.now) }
{
    let digest = Sha256::digest(bytes);
    let text = hex::encode(alloc, digest)?;
    Text::of(alloc, text.as_bytes())
}

/// The need of a word: a moment in seconds, or `always`.
#[tactic(auto, unfolding(crate::specs::Words::need_in_word))]
pub(crate) fn need_of(word: &[u8]) -> Option<Need>
    ensures { result ≡ need_in_word word.now }
{
    if word == b"always".as_slice() {
        return Some(Need::Always);
    }
    let seconds = number_up_to(word, LAST)?;
    Some(Need::Until(Moment::new(seconds)?))
}

/// Appends the word of a need.
pub(crate) fn push_need(alloc: Global, need: Need, text: &mut Vec<u8>) -> Result<(), AllocError>
    ensures { OnOk result (text.new.items ≡ text.old.items ++ need_word need) }
{
    match need {
        Need::Until(moment) => push_number(alloc, moment.get(), text),
        Need::Always => text.extend_from_slice(b"always"),
    }
}

/// Appends a word and a space.
pub(crate) fn push_word(word: &[u8], text: &mut Vec<u8>) -> Result<(), AllocError>
    ensures { OnOk result (text.new.items ≡ text.old.items ++ (word.now ++ 32 ∷ [])) }
{
    text.extend_from_slice(word)?;
    text.push(b' ')?;
    Ok(())
}

/// Appends a row as a line.
#[tactic(auto, unfolding(crate::specs::Words::row_text))]
pub(crate) fn push_row(alloc: Global, row: &Row, text: &mut Vec<u8>) -> Result<(), AllocError>
    ensures { OnOk result (text.new.items ≡ text.old.items ++ row_text row.now) }
{
    text.extend_from_slice(mark_text(row.terms.reissued))?;
    push_plain(alloc, row, text)
}

// What stands before a row that is reissued. What is written of any other is what it was before there was the mark.
fn mark_text(reissued: bool) -> &'static [u8]
    ensures { result.now ≡ mark_text reissued }
{
    if reissued { b"reissued " } else { b"" }
}

// Appends a row as a line, whether it is reissued or not.
#[tactic(auto, unfolding(crate::specs::Words::plain_text))]
fn push_plain(alloc: Global, row: &Row, text: &mut Vec<u8>) -> Result<(), AllocError>
    ensures { OnOk result (text.new.items ≡ text.old.items ++ plain_text row.now) }
{
    push_who(row, text)?;
    push_life(alloc, row, text)?;
    push_terms(alloc, row, text)?;
    push_end(row, text)
}

// Appends what a row ends in: its credential, and the path of its file.
fn push_end(row: &Row, text: &mut Vec<u8>) -> Result<(), AllocError>
    ensures { OnOk result (text.new.items ≡ text.old.items ++ (row.now.credential ++ file_end row.now.file)) }
{
    text.extend_from_slice(row.credential.list())?;
    match &row.file {
        None => Ok(()),
        Some(path) => {
            text.push(b' ')?;
            text.extend_from_slice(path.list())
        }
    }
}

// Appends the kind, the name, the token over the entry, and whether its end is written.
fn push_who(row: &Row, text: &mut Vec<u8>) -> Result<(), AllocError>
    ensures { OnOk result (text.new.items ≡ text.old.items ++ spaced (who_words row.now)) }
{
    push_word(kind_word(row.kind), text)?;
    push_word(row.name.list(), text)?;
    push_word(name_word(&row.parent), text)?;
    push_word(told_word(row.is_told), text)
}

// Appends its issue, its end, whether it can be renewed, and the increment.
fn push_life(alloc: Global, row: &Row, text: &mut Vec<u8>) -> Result<(), AllocError>
    ensures { OnOk result (text.new.items ≡ text.old.items ++ spaced (life_words row.now)) }
{
    push_spaced(alloc, row.terms.issued.get(), text)?;
    push_spaced(alloc, row.end, text)?;
    push_word(renewable_word(row.renewable), text)?;
    push_if(alloc, row.terms.increment, text)
}

// Appends the other terms, and until when it is needed.
fn push_terms(alloc: Global, row: &Row, text: &mut Vec<u8>) -> Result<(), AllocError>
    ensures { OnOk result (text.new.items ≡ text.old.items ++ spaced (terms_words row.now)) }
{
    push_spaced(alloc, row.terms.period as u64, text)?;
    push_spaced(alloc, row.terms.max_ttl as u64, text)?;
    push_spaced(alloc, row.terms.explicit_max as u64, text)?;
    push_need(alloc, row.need, text)?;
    text.push(b' ')?;
    Ok(())
}

// Appends a number and a space.
fn push_spaced(alloc: Global, number: u64, text: &mut Vec<u8>) -> Result<(), AllocError>
    ensures { OnOk result (text.new.items ≡ text.old.items ++ (number_word (Some number) ++ 32 ∷ [])) }
{
    push_number(alloc, number, text)?;
    text.push(b' ')?;
    Ok(())
}

// Appends a number, or a star where there is none, and a space.
fn push_if(alloc: Global, number: Option<Span>, text: &mut Vec<u8>) -> Result<(), AllocError>
    ensures { OnOk result (text.new.items ≡ text.old.items ++ (number_word number ++ 32 ∷ [])) }
{
    match number {
        None => push_word(b"*", text),
        Some(number) => push_spaced(alloc, number as u64, text),
    }
}

fn kind_word(kind: Kind) -> &'static [u8]
    ensures { result.now ≡ kind_word kind }
{
    match kind {
        Kind::Token => b"token",
        Kind::Lease => b"lease",
    }
}

fn name_word(name: &Option<Name>) -> &[u8]
    ensures { result.now ≡ name_word name.now }
{
    match name {
        None => b"*",
        Some(name) => name.list(),
    }
}

fn told_word(is_told: bool) -> &'static [u8]
    ensures { result.now ≡ told_word is_told }
{
    if is_told { b"told" } else { b"open" }
}

fn renewable_word(renewable: bool) -> &'static [u8]
    ensures { result.now ≡ renewable_word renewable }
{
    if renewable { b"renewable" } else { b"fixed" }
}
