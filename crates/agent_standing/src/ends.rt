//! Ends that are kept over a restart, each in a line of text.
ghost use Rattle.std.specs.Prelude.{◌≡◌, ◌∷◌, ◌++◌, [], IfOk, OnOk};
ghost use Rattle.std.specs.Int.{is_in_range};
ghost use Rattle.std.specs.List.{list_all};
ghost use Rattle.std.specs.Option.{option_map};
ghost use Rattle.base_words.specs.Pieces.{words};
ghost use Rattle.plan_forest.specs.Push.{is_name, is_name_byte};
ghost use Rattle.base_words.specs.Texts.{yes_or_no};
ghost use Rattle.vault_inventory.specs.Values.{is_credential};
ghost use Rattle.agent_standing.specs.Ends.{end_of_text, end_text, five, in_boot, known_end_by, renewable_of, told_of_words};

use crate::standing::Told;
use base_moment::{Name, Text};
use base_words::{cut, four_words, number_up_to, push_number};
use plan_forest::{END_MAX, NAME_MAX};
use std::alloc::{AllocError, Global};
use vault_inventory::CREDENTIAL_MAX;

/// An end that was told in a boot, for an agent that takes over in the same one.
#[derive(Debug, PartialEq, Eq, Drop)]
pub struct KnownEnd {
    /// The name of the entry.
    pub name: Name,
    /// What its credential is known by, so that the end is worth nothing for another one.
    pub fingerprint: Text,
    /// The boot: the clock that never steps begins with it.
    pub boot: Text,
    /// What was told.
    pub told: Told,
}

/// The line that keeps an end, without a line feed. There is no credential in it.
///
/// The only error is out of memory.
#[tactic(auto, unfolding(crate::specs::Ends::end_text))]
pub fn end_text(alloc: Global, end: &KnownEnd) -> Result<Text, AllocError>
    ensures { IfOk result (λ text. text ≡ end_text end.now) }
{
    let mut text = Vec::new(alloc);
    push_word(end.name.list(), &mut text)?;
    push_number(alloc, end.told.end, &mut text)?;
    text.push(b' ')?;
    push_word(yes_or_no(end.told.renewable), &mut text)?;
    push_word(end.fingerprint.list(), &mut text)?;
    text.extend_from_slice(end.boot.list())?;
    Ok(Text::from_vec(text))
}

/// The end that a line keeps, where it was told in this boot; `None` where it keeps none, or was told in another. The line has no
/// line feed.
///
/// The only error is out of memory.
#[tactic(auto, unfolding(crate::specs::Ends::end_of_text))]
pub fn read_end(alloc: Global, boot: &[u8], line: &[u8]) -> Result<Option<KnownEnd>, AllocError>
    ensures { IfOk result (λ read. read ≡ in_boot boot.now (end_of_text line.now)) }
{
    let Some((name, end, renewable, fingerprint, told_in)) = five_words(line) else {
        return Ok(None);
    };
    let Some(told) = told_of_words(end, renewable) else {
        return Ok(None);
    };
    if !is_name(name) || !is_word(fingerprint) || !is_word(told_in) || told_in != boot {
        return Ok(None);
    }
    Ok(Some(KnownEnd {
        name: Name::of(alloc, name)?,
        fingerprint: Text::of(alloc, fingerprint)?,
        boot: Text::of(alloc, told_in)?,
        told,
    }))
}

// The words of a line, where it has five.
#[tactic(auto, using(crate::proofs::EndLines::five_after))]
fn five_words(line: &[u8]) -> Option<(&[u8], &[u8], &[u8], &[u8], &[u8])>
    ensures { option_map (λ w. (w.0.now, w.1.now, w.2.now, w.3.now, w.4.now)) result ≡ five (words line.now) }
{
    let (first, rest) = cut(line, b' ')?;
    let (second, third, fourth, fifth) = four_words(rest)?;
    Some((first, second, third, fourth, fifth))
}

// What these words tell of an entry.
#[tactic(auto, unfolding(crate::specs::Ends::told_of_words))]
fn told_of_words(end: &[u8], renewable: &[u8]) -> Option<Told>
    ensures { result ≡ told_of_words end.now renewable.now }
{
    let end = number_up_to(end, END_MAX)?;
    let renewable = renewable_of(renewable)?;
    Some(Told { end, renewable })
}

fn renewable_of(word: &[u8]) -> Option<bool>
    ensures { result ≡ renewable_of word.now }
{
    if word == b"yes".as_slice() {
        Some(true)
    } else if word == b"no".as_slice() {
        Some(false)
    } else {
        None
    }
}

fn yes_or_no(is: bool) -> &'static [u8]
    ensures { result.now ≡ yes_or_no is }
{
    if is { b"yes" } else { b"no" }
}

// Appends a word and a space.
fn push_word(word: &[u8], text: &mut Vec<u8>) -> Result<(), AllocError>
    ensures { OnOk result (text.new.items ≡ text.old.items ++ (word.now ++ 32 ∷ [])) }
{
    text.extend_from_slice(word)?;
    text.push(b' ')?;
    Ok(())
}

// Whether these bytes are a name: 1 to 64 ASCII letters, digits, `-`, `_`, `.` or `/`.
#[tactic(auto, unfolding(plan_forest::specs::Push::is_name))]
fn is_name(name: &[u8]) -> bool
    ensures { result ≡ is_name name.now }
{
    !name.is_empty() && name.len() <= NAME_MAX && has_name_bytes(name)
}

fn has_name_bytes(name: &[u8]) -> bool
    ensures { result ≡ list_all is_name_byte name.now }
{
    name.iter().all(|b| {
        b.is_ascii_alphanumeric() || *b == b'-' || *b == b'_' || *b == b'.' || *b == b'/'
    })
}

// Whether these bytes are a word: 1 to 256 bytes from 0x21 to 0x7E.
fn is_word(word: &[u8]) -> bool
    ensures { result ≡ is_credential word.now }
{
    !word.is_empty() && word.len() <= CREDENTIAL_MAX && is_visible(word)
}

fn is_visible(word: &[u8]) -> bool
    ensures { result ≡ list_all (is_in_range 0x21 0x7E) word.now }
{
    word.iter().all(|b| *b >= 0x21 && *b <= 0x7e)
}
