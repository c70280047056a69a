ghost use Rattle.std.specs.Prelude.{◌≡◌, ◌++◌, List, ℕ, IfOk, OnOk};
ghost use Rattle.base_log.specs.Forms.{IsLineText, SayWords, SaysWord};

use crate::line::{LineWord, LogLine};
use base_moment::{Moment, date_text};
use base_words::push_number;
use std::alloc::{AllocError, Global};

/// The line for people, with its line feed. The only error is lack of memory.
pub fn text_of_line(alloc: Global, line: &LogLine) -> Result<Vec<u8>, AllocError>
    ensures { IfOk result (λ text. IsLineText line.now.moment line.now.level line.now.event.now line.now.words.items text.items) }
{
    let mut text = Vec::new(alloc);
    push_date(alloc, line.moment, &mut text)?;
    text.push(b' ')?;
    text.extend_from_slice(line.level.mark().as_bytes())?;
    text.extend_from_slice(line.event.as_bytes())?;
    push_words(alloc, &line.words, &mut text)?;
    text.push(b'\n')?;
    Ok(text)
}

/// Appends the date of a moment.
pub(crate) fn push_date(alloc: Global, moment: Moment, text: &mut Vec<u8>) -> Result<(), AllocError>
    ensures { OnOk result ((date : List ℕ) × SaysWord (LineWord.Moment moment) date × (text.new.items ≡ text.old.items ++ date)) }
{
    match date_text(alloc, moment) {
        Ok(date) => text.extend_from_slice(date.list()),
        Err(_) => Err(AllocError),
    }
}

// Appends words, a space before each.
fn push_words(alloc: Global, words: &[LineWord], text: &mut Vec<u8>) -> Result<(), AllocError>
    ensures { OnOk result ((said : List ℕ) × SayWords words.now said × (text.new.items ≡ text.old.items ++ said)) }
{
    for word in words {
        text.push(b' ')?;
        push_word(alloc, word, text)?;
    }
    Ok(())
}

// Appends a word.
fn push_word(alloc: Global, word: &LineWord, text: &mut Vec<u8>) -> Result<(), AllocError>
    ensures { OnOk result ((said : List ℕ) × SaysWord word.now said × (text.new.items ≡ text.old.items ++ said)) }
{
    match word {
        LineWord::Text(name) => text.extend_from_slice(name.list()),
        LineWord::Number(number) => push_number(alloc, *number, text),
        LineWord::Moment(moment) => push_date(alloc, *moment, text),
    }
}
