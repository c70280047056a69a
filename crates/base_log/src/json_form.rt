ghost use Rattle.std.specs.Prelude.{◌≡◌, ◌++◌, ◌<◌, List, ℕ, IfOk, OnOk, chars, flat_map};
ghost use Rattle.base_words.specs.Texts.{hex_digit};
ghost use Rattle.base_log.specs.Forms.{IsLineJson, SayEach, SayJoined, SayMembers, SaysEvent, SaysInside, SaysMember, SaysMessage, SaysNames, SaysRest, SaysValue, escaped, json_char, json_event, json_level, json_text, quoted, six_characters};

use crate::keys::{Key, Rest, shape_of};
use crate::line::{LineWord, LogLine};
use crate::text_form::push_date;
use base_words::push_number;
use std::alloc::{AllocError, Global};

/// The line as an object of JSON, with its line feed. The only error is lack of memory.
pub fn json_of_line(alloc: Global, line: &LogLine) -> Result<Vec<u8>, AllocError>
    ensures { IfOk result (λ text. IsLineJson line.now.moment line.now.level line.now.event.now line.now.words.items text.items) }
{
    let mut text = Vec::new(alloc);
    text.extend_from_slice(b"{\"moment\": \"")?;
    push_date(alloc, line.moment, &mut text)?;
    push_level(alloc, line, &mut text)?;
    push_said(alloc, line.event, &line.words, &mut text)?;
    text.extend_from_slice(b"}\n")?;
    Ok(text)
}

// Appends the level and the event.
fn push_level(alloc: Global, line: &LogLine, text: &mut Vec<u8>) -> Result<(), AllocError>
    ensures { OnOk result (text.new.items ≡ text.old.items ++ json_level line.now.level line.now.event.now) }
{
    text.extend_from_slice(b"\", \"level\": \"")?;
    text.extend_from_slice(line.level.name().as_bytes())?;
    push_event(alloc, line.event, text)?;
    Ok(())
}

// Appends the event.
fn push_event(alloc: Global, event: &str, text: &mut Vec<u8>) -> Result<(), AllocError>
    ensures { OnOk result (text.new.items ≡ text.old.items ++ json_event event.now) }
{
    text.extend_from_slice(b"\", \"event\": \"")?;
    push_text(alloc, event.as_bytes(), text)?;
    text.extend_from_slice(b"\"")?;
    Ok(())
}

// Appends all that is said of an event.
fn push_said(
    alloc: Global,
    event: &str,
    words: &[LineWord],
    text: &mut Vec<u8>,
) -> Result<(), AllocError>
    ensures { OnOk result ((said : List ℕ) × SaysEvent event.now words.now said × (text.new.items ≡ text.old.items ++ said)) }
{
    let shape = shape_of(event, words.len());
    push_members(alloc, event, shape.lead, shape.rest, words, text)
}

// Appends the member of the first word, if that has a key of its own, and those of the rest.
#[tactic(auto, using(crate::proofs::Members::first_said))]
fn push_members(
    alloc: Global,
    event: &str,
    lead: Option<Key>,
    rest: Rest,
    words: &[LineWord],
    text: &mut Vec<u8>,
) -> Result<(), AllocError>
    ensures { OnOk result ((said : List ℕ) × SayMembers event.now lead rest words.now said × (text.new.items ≡ text.old.items ++ said)) }
{
    match lead {
        None => push_rest(alloc, event, rest, words, text),
        Some(key) => match words {
            [] => push_rest(alloc, event, rest, words, text),
            [first, others @ ..] => {
                push_member(alloc, key, first, text)?;
                push_rest(alloc, event, rest, others, text)
            }
        },
    }
}

// Appends the members of words that follow one with a key of its own, or stand alone.
#[tactic(auto, using(crate::proofs::Members::one_said))]
fn push_rest(
    alloc: Global,
    event: &str,
    rest: Rest,
    words: &[LineWord],
    text: &mut Vec<u8>,
) -> Result<(), AllocError>
    ensures { OnOk result ((said : List ℕ) × SaysRest event.now rest words.now said × (text.new.items ≡ text.old.items ++ said)) }
{
    match rest {
        Rest::Names => push_names(alloc, words, text),
        Rest::Message => push_message(alloc, event, words, text),
        Rest::One(key) => match words {
            [] => Ok(()),
            [word, others @ ..] => {
                push_member(alloc, key, word, text)?;
                push_message(alloc, event, others, text)
            }
        },
    }
}

// Appends a member of one word.
#[tactic(auto, using(crate::proofs::Members::member_said))]
fn push_member(
    alloc: Global,
    key: Key,
    word: &LineWord,
    text: &mut Vec<u8>,
) -> Result<(), AllocError>
    ensures { OnOk result ((said : List ℕ) × SaysMember key word.now said × (text.new.items ≡ text.old.items ++ said)) }
{
    text.extend_from_slice(b", \"")?;
    text.extend_from_slice(key.of(word).name().as_bytes())?;
    text.extend_from_slice(b"\": ")?;
    push_value(alloc, word, text)
}

// Appends the names of entries.
#[tactic(auto, using(crate::proofs::Members::names_said))]
fn push_names(alloc: Global, words: &[LineWord], text: &mut Vec<u8>) -> Result<(), AllocError>
    ensures { OnOk result ((said : List ℕ) × SaysNames words.now said × (text.new.items ≡ text.old.items ++ said)) }
{
    match words {
        [] => text.extend_from_slice(b", \"entries\": []"),
        [first, others @ ..] => {
            text.extend_from_slice(b", \"entries\": [\"")?;
            push_joined(alloc, b"\", \"", first, others, text)?;
            text.extend_from_slice(b"\"]")
        }
    }
}

// Appends words for people, after the event.
#[tactic(auto, using(crate::proofs::Members::message_said))]
fn push_message(
    alloc: Global,
    event: &str,
    words: &[LineWord],
    text: &mut Vec<u8>,
) -> Result<(), AllocError>
    ensures { OnOk result ((said : List ℕ) × SaysMessage event.now words.now said × (text.new.items ≡ text.old.items ++ said)) }
{
    match words {
        [] => Ok(()),
        [_, ..] => {
            text.extend_from_slice(b", \"message\": \"")?;
            push_text(alloc, event.as_bytes(), text)?;
            push_each(alloc, b" ", words, text)?;
            text.extend_from_slice(b"\"")
        }
    }
}

// Appends words with this between them.
#[tactic(auto, using(crate::proofs::Members::joined_said))]
fn push_joined(
    alloc: Global,
    between: &[u8],
    first: &LineWord,
    others: &[LineWord],
    text: &mut Vec<u8>,
) -> Result<(), AllocError>
    ensures { OnOk result ((said : List ℕ) × SayJoined between.now first.now others.now said × (text.new.items ≡ text.old.items ++ said)) }
{
    push_inside(alloc, first, text)?;
    push_each(alloc, between, others, text)
}

// Appends words, each after this.
fn push_each(
    alloc: Global,
    between: &[u8],
    words: &[LineWord],
    text: &mut Vec<u8>,
) -> Result<(), AllocError>
    ensures { OnOk result ((said : List ℕ) × SayEach between.now words.now said × (text.new.items ≡ text.old.items ++ said)) }
{
    for word in words {
        text.extend_from_slice(between)?;
        push_inside(alloc, word, text)?;
    }
    Ok(())
}

// Appends a word as a value.
#[tactic(auto, using(crate::proofs::Members::date_said))]
fn push_value(alloc: Global, word: &LineWord, text: &mut Vec<u8>) -> Result<(), AllocError>
    ensures { OnOk result ((said : List ℕ) × SaysValue word.now said × (text.new.items ≡ text.old.items ++ said)) }
{
    match word {
        LineWord::Number(number) => push_number(alloc, *number, text),
        LineWord::Text(name) => push_string(alloc, name.list(), text),
        LineWord::Moment(moment) => {
            text.push(b'"')?;
            push_date(alloc, *moment, text)?;
            text.push(b'"')?;
            Ok(())
        }
    }
}

// Appends a text as a string.
#[tactic(auto, using(crate::proofs::Pieces::three_pushed))]
fn push_string(alloc: Global, bytes: &[u8], text: &mut Vec<u8>) -> Result<(), AllocError>
    ensures { OnOk result (text.new.items ≡ text.old.items ++ quoted (json_text bytes.now)) }
{
    text.push(b'"')?;
    push_text(alloc, bytes, text)?;
    text.push(b'"')?;
    Ok(())
}

// Appends what stands between the quotes of a word.
fn push_inside(alloc: Global, word: &LineWord, text: &mut Vec<u8>) -> Result<(), AllocError>
    ensures { OnOk result ((said : List ℕ) × SaysInside word.now said × (text.new.items ≡ text.old.items ++ said)) }
{
    match word {
        LineWord::Text(name) => push_text(alloc, name.list(), text),
        LineWord::Number(number) => push_number(alloc, *number, text),
        LineWord::Moment(moment) => push_date(alloc, *moment, text),
    }
}

// Appends a text as it stands between the quotes of a string.
fn push_text(alloc: Global, bytes: &[u8], text: &mut Vec<u8>) -> Result<(), AllocError>
    ensures { OnOk result (text.new.items ≡ text.old.items ++ json_text bytes.now) }
{
    let read = String::from_utf8_lossy(alloc, bytes)?;
    push_chars(&read, text)
}

// Appends the characters of a string.
fn push_chars(read: &str, text: &mut Vec<u8>) -> Result<(), AllocError>
    ensures { OnOk result (text.new.items ≡ text.old.items ++ flat_map json_char (chars read.now)) }
{
    for c in read.chars() {
        push_char(c, text)?;
    }
    Ok(())
}

// Appends a character of a string, escaped where it is not printable ASCII.
fn push_char(c: char, text: &mut Vec<u8>) -> Result<(), AllocError>
    ensures { OnOk result (text.new.items ≡ text.old.items ++ json_char c) }
{
    match c {
        '"' | '\\' => text.extend_from_slice(&[b'\\', c as u8]),
        '\u{8}' => text.extend_from_slice(b"\\b"),
        '\t' => text.extend_from_slice(b"\\t"),
        '\n' => text.extend_from_slice(b"\\n"),
        '\u{c}' => text.extend_from_slice(b"\\f"),
        '\r' => text.extend_from_slice(b"\\r"),
        ' '..='~' => text.extend_from_slice(&[c as u8]),
        _ => push_escaped(c, text),
    }
}

// Appends a character by the numbers of its units of UTF-16.
fn push_escaped(c: char, text: &mut Vec<u8>) -> Result<(), AllocError>
    ensures { OnOk result (text.new.items ≡ text.old.items ++ escaped c) }
{
    let mut room = [0u16; 2];
    push_units(c.encode_utf16(&mut room), text)
}

// Appends units of UTF-16 by their numbers.
fn push_units(units: &[u16], text: &mut Vec<u8>) -> Result<(), AllocError>
    ensures { OnOk result (text.new.items ≡ text.old.items ++ flat_map six_characters units.now) }
{
    for unit in units {
        push_unit(*unit, text)?;
    }
    Ok(())
}

// Appends a unit of UTF-16 by its number.
fn push_unit(unit: u16, text: &mut Vec<u8>) -> Result<(), AllocError>
    ensures { OnOk result (text.new.items ≡ text.old.items ++ six_characters unit) }
{
    text.extend_from_slice(&[
        b'\\',
        b'u',
        hex_digit((unit / 4096) as u8),
        hex_digit((unit / 256 % 16) as u8),
        hex_digit((unit / 16 % 16) as u8),
        hex_digit((unit % 16) as u8),
    ])
}

// A digit of base 16.
#[tactic(auto, unfolding(base_words::specs::Texts::hex_digit))]
fn hex_digit(digit: u8) -> u8
    requires { digit < 16 }
    ensures { result ≡ hex_digit digit }
{
    if digit < 10 {
        b'0' + digit
    } else {
        b'a' + (digit - 10)
    }
}
