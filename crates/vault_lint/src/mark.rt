//! What a line of an inventory's text begins: a table, or the value of a key.
ghost use Rattle.std.specs.Prelude.{◌≡◌, IfOk, bytes_eq, filter};
ghost use Rattle.vault_inventory.specs.Keys.{key_text};
ghost use Rattle.std.specs.List.{list_all};
ghost use Rattle.vault_lint.specs.Marks.{is_key_word, is_of_table, is_shown, is_word_byte, key_in, key_of, keys_of, mark_of, mark_of_key, mark_of_shown, mark_of_word};

use base_words::cut;
use plan_forest::Kind;
use std::alloc::{AllocError, Global};
use vault_inventory::Key;

/// The keys of the top level.
const TOP_KEYS: [Key; 4] = [Key::SystemMax, Key::Margin, Key::Token, Key::Lease];

/// Those of a token's table.
const TOKEN_KEYS: [Key; 13] = [
    Key::Name,
    Key::Parent,
    Key::Issued,
    Key::End,
    Key::Renewable,
    Key::Increment,
    Key::Period,
    Key::MaxTtl,
    Key::ExplicitMaxTtl,
    Key::Reissued,
    Key::Need,
    Key::Secret,
    Key::SecretFile,
];

/// Those of a lease's table.
const LEASE_KEYS: [Key; 11] = [
    Key::Name,
    Key::Token,
    Key::Issued,
    Key::End,
    Key::Renewable,
    Key::Increment,
    Key::MaxTtl,
    Key::Reissued,
    Key::Need,
    Key::LeaseId,
    Key::LeaseIdFile,
];

/// What a line begins.
#[derive(Clone, Copy, Debug, PartialEq, Eq)]
pub(crate) enum Mark {
    /// The table of an entry.
    Table(Kind),
    /// Another table, or an array.
    Other,
    /// The value of a key.
    Key(Key),
    /// The value of a key that no inventory has.
    Unknown,
    /// Nothing.
    Rest,
}

/// What a line begins, whatever blanks, quotes and bytes that are not ASCII stand in it. The only error is lack of memory.
#[tactic(auto, unfolding(crate::specs::Marks::mark_of))]
pub(crate) fn mark_of(alloc: Global, line: &[u8]) -> Result<Mark, AllocError>
    ensures { IfOk result (λ mark. mark ≡ mark_of line.now) }
{
    let text = shown(alloc, line)?;
    Ok(mark_of_shown(&text))
}

// The bytes of a line but for blanks, quotes and what is not ASCII, such as a byte-order mark.
fn shown(alloc: Global, line: &[u8]) -> Result<Vec<u8>, AllocError>
    ensures { IfOk result (λ text. text.items ≡ filter is_shown line.now) }
{
    let mut text = Vec::new(alloc);
    for byte in line {
        if is_shown(*byte) {
            text.push(*byte)?;
        }
    }
    Ok(text)
}

fn is_shown(byte: u8) -> bool
    ensures { result ≡ is_shown byte }
{
    byte < 0x80 && byte != b' ' && byte != b'\t' && byte != b'\r' && byte != b'"' && byte != b'\''
}

fn mark_of_shown(text: &[u8]) -> Mark
    ensures { result ≡ mark_of_shown text.now }
{
    if text.starts_with(b"[[token]]") {
        Mark::Table(Kind::Token)
    } else if text.starts_with(b"[[lease]]") {
        Mark::Table(Kind::Lease)
    } else if text.starts_with(b"[") {
        Mark::Other
    } else {
        mark_of_key(text)
    }
}

// The mark of a line that begins no table.
fn mark_of_key(text: &[u8]) -> Mark
    ensures { result ≡ mark_of_key text.now }
{
    match cut(text, b'=') {
        Some((word, _)) if is_key_word(word) => mark_of_word(word),
        _ => Mark::Rest,
    }
}

fn mark_of_word(word: &[u8]) -> Mark
    ensures { result ≡ mark_of_word word.now }
{
    match key_of(word) {
        Some(key) => Mark::Key(key),
        None => Mark::Unknown,
    }
}

// Whether these bytes are those of a key that is written without quotes.
fn is_key_word(word: &[u8]) -> bool
    ensures { result ≡ is_key_word word.now }
{
    !word.is_empty() && has_word_bytes(word)
}

/// Whether these are bytes of such a key, which are those of a token's value too.
pub(crate) fn has_word_bytes(word: &[u8]) -> bool
    ensures { result ≡ list_all is_word_byte word.now }
{
    word.iter().all(|byte| byte.is_ascii_alphanumeric() || *byte == b'_' || *byte == b'-')
}

// The key of that text.
fn key_of(word: &[u8]) -> Option<Key>
    ensures { result ≡ key_of word.now }
{
    match key_in(word, &TOP_KEYS) {
        Some(key) => Some(key),
        None => match key_in(word, &TOKEN_KEYS) {
            Some(key) => Some(key),
            None => key_in(word, &LEASE_KEYS),
        },
    }
}

/// Whether a table of this kind, or the top level, has that key.
pub(crate) fn is_of_table(table: Option<Kind>, key: Key) -> bool
    ensures { result ≡ is_of_table table key }
{
    key_in(key.text().as_bytes(), keys_of(table)).is_some()
}

fn keys_of(table: Option<Kind>) -> &'static [Key]
    ensures { result.now ≡ keys_of table }
{
    match table {
        None => &TOP_KEYS,
        Some(Kind::Token) => &TOKEN_KEYS,
        Some(Kind::Lease) => &LEASE_KEYS,
    }
}

// Of these keys the first with that text.
fn key_in(word: &[u8], keys: &[Key]) -> Option<Key>
    ensures { result ≡ key_in word.now keys.now }
{
    keys.iter().find(|key| is_text(**key, word)).copied()
}

fn is_text(key: Key, word: &[u8]) -> bool
    ensures { result ≡ bytes_eq (key_text key) word.now }
{
    key.text().as_bytes() == word
}
