//! The words of a line.
ghost use Rattle.std.specs.Prelude.{◌≡◌, ◌∷◌, ◌++◌, [], IfOk, OnOk, codes};
ghost use Rattle.base_log.specs.declared.line.LineWord.TheVariants as kinds;
ghost use Rattle.agent_log.specs.LinesOfClocks.{asked_word, asked_words, name_words};
ghost use Rattle.agent_log.specs.Lines.{loss_words, reason_text};
ghost use Rattle.watch_machine.specs.Refusal.{is_same};
ghost use Rattle.program_lines.specs.Text.{name_of};

use base_log::LineWord;
use base_moment::Text;
use plan_forest::Forest;
use program_lines::name_of;
use std::alloc::{AllocError, Global};
use vault_lanes::{ConnectReason, Loss};
use watch_machine::{Operation, WatchRequest};

/// A text as a word. The only error is lack of memory, here and in all that follows.
pub(crate) fn text_word(alloc: Global, text: &[u8]) -> Result<LineWord, AllocError>
    ensures { IfOk result (λ w. w ≡ kinds.Text text.now) }
{
    Ok(LineWord::Text(Text::of(alloc, text)?))
}

/// Why a request counts as lost; where there is no connection, to which place and why.
fn push_loss(
    alloc: Global,
    place: &[u8],
    why: Loss,
    words: &mut Vec<LineWord>,
) -> Result<(), AllocError>
    ensures { OnOk result (words.new.items ≡ words.old.items ++ loss_words place.now why) }
{
    match why {
        Loss::Connect(reason) => {
            words.push(text_word(alloc, b"connect")?)?;
            Ok(words.push(unreached_word(alloc, place, reason)?)?)
        }
        Loss::Timeout => Ok(words.push(text_word(alloc, b"timeout")?)?),
        Loss::Closed => Ok(words.push(text_word(alloc, b"closed")?)?),
        Loss::Reply => Ok(words.push(text_word(alloc, b"reply")?)?),
        Loss::Status(status) => Ok(words.push(LineWord::Number(u64::from(status)))?),
    }
}

/// A place, and why there is no connection to it.
fn unreached_word(
    alloc: Global,
    place: &[u8],
    reason: ConnectReason,
) -> Result<LineWord, AllocError>
    ensures { IfOk result (λ w. w ≡ kinds.Text (place.now ++ (codes ": " ++ reason_text reason))) }
{
    let mut text = Vec::from_slice(alloc, place)?;
    text.extend_from_slice(b": ")?;
    text.extend_from_slice(reason_text(reason))?;
    Ok(LineWord::Text(Text::from_vec(text)))
}

/// Why there is no connection.
pub(crate) fn reason_text(reason: ConnectReason) -> &'static [u8]
    ensures { result.now ≡ reason_text reason }
{
    match reason {
        ConnectReason::NoSuchFile => b"no such file",
        ConnectReason::Denied => b"permission denied",
        ConnectReason::Refused => b"connection refused",
        ConnectReason::Unreachable => b"unreachable",
        ConnectReason::TimedOut => b"timed out",
        ConnectReason::Other => b"the connection failed",
    }
}

/// One word.
pub(crate) fn one_word(alloc: Global, word: LineWord) -> Result<Vec<LineWord>, AllocError>
    ensures { IfOk result (λ ws. ws.items ≡ word ∷ []) }
{
    let mut words = Vec::new(alloc);
    words.push(word)?;
    Ok(words)
}

/// A text alone.
pub(crate) fn one_text(alloc: Global, text: &[u8]) -> Result<Vec<LineWord>, AllocError>
    ensures { IfOk result (λ ws. ws.items ≡ kinds.Text text.now ∷ []) }
{
    one_word(alloc, text_word(alloc, text)?)
}

/// A name and a word.
pub(crate) fn name_and(
    alloc: Global,
    name: &[u8],
    word: LineWord,
) -> Result<Vec<LineWord>, AllocError>
    ensures { IfOk result (λ ws. ws.items ≡ kinds.Text name.now ∷ word ∷ []) }
{
    let mut words = Vec::new(alloc);
    words.push(text_word(alloc, name)?)?;
    words.push(word)?;
    Ok(words)
}

/// A name and why a request counts as lost.
pub(crate) fn name_and_loss(
    alloc: Global,
    place: &[u8],
    name: &[u8],
    why: Loss,
) -> Result<Vec<LineWord>, AllocError>
    ensures { IfOk result (λ ws. ws.items ≡ kinds.Text name.now ∷ loss_words place.now why) }
{
    let mut words = one_text(alloc, name)?;
    push_loss(alloc, place, why, &mut words)?;
    Ok(words)
}

/// Why a request counts as lost, alone.
pub(crate) fn one_loss(alloc: Global, place: &[u8], why: Loss) -> Result<Vec<LineWord>, AllocError>
    ensures { IfOk result (λ ws. ws.items ≡ loss_words place.now why) }
{
    let mut words = Vec::new(alloc);
    push_loss(alloc, place, why, &mut words)?;
    Ok(words)
}

/// A moment and the names of entries.
pub(crate) fn word_and_names(
    alloc: Global,
    word: LineWord,
    forest: &Forest,
    entries: &[u32],
) -> Result<Vec<LineWord>, AllocError>
    ensures { IfOk result (λ ws. ws.items ≡ word ∷ name_words forest.now entries.now) }
{
    let mut words = one_word(alloc, word)?;
    push_names(alloc, forest, entries, &mut words)?;
    Ok(words)
}

// Appends the names of entries.
fn push_names(
    alloc: Global,
    forest: &Forest,
    entries: &[u32],
    words: &mut Vec<LineWord>,
) -> Result<(), AllocError>
    ensures { OnOk result (words.new.items ≡ words.old.items ++ name_words forest.now entries.now) }
{
    for entry in entries {
        push_name(alloc, name_of(forest, *entry), words)?;
    }
    Ok(())
}

// Appends a name.
fn push_name(alloc: Global, name: &[u8], words: &mut Vec<LineWord>) -> Result<(), AllocError>
    ensures { OnOk result (words.new.items ≡ words.old.items ++ kinds.Text name.now ∷ []) }
{
    words.push(text_word(alloc, name)?)?;
    Ok(())
}

/// The names of those of whom this is asked, in the order in which it goes out.
pub(crate) fn asked_words(
    alloc: Global,
    forest: &Forest,
    operation: Operation,
    requests: &[WatchRequest],
) -> Result<Vec<LineWord>, AllocError>
    ensures { IfOk result (λ ws. ws.items ≡ asked_words forest.now operation requests.now) }
{
    let mut words = Vec::new(alloc);
    push_all_asked(alloc, forest, operation, requests, &mut words)?;
    Ok(words)
}

// Appends the name of each of whom this is asked.
fn push_all_asked(
    alloc: Global,
    forest: &Forest,
    operation: Operation,
    requests: &[WatchRequest],
    words: &mut Vec<LineWord>,
) -> Result<(), AllocError>
    ensures { OnOk result (words.new.items ≡ words.old.items ++ asked_words forest.now operation requests.now) }
{
    for request in requests {
        push_asked(alloc, forest, operation, *request, words)?;
    }
    Ok(())
}

// Appends the name of the entry, where this is asked of it.
fn push_asked(
    alloc: Global,
    forest: &Forest,
    operation: Operation,
    request: WatchRequest,
    words: &mut Vec<LineWord>,
) -> Result<(), AllocError>
    ensures { OnOk result (words.new.items ≡ words.old.items ++ asked_word forest.now operation request) }
{
    if is_same(request.operation, operation) {
        push_name(alloc, name_of(forest, request.entry), words)?;
    }
    Ok(())
}

/// Whether both are lookups, or both renewals.
pub(crate) fn is_same(one: Operation, other: Operation) -> bool
    ensures { result ≡ is_same one other }
{
    one == other
}
