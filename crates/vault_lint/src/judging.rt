//! What the doubts of one entry go by.
ghost use Rattle.std.specs.Prelude.{◌≡◌, ◌<◌, length};
ghost use Rattle.vault_lint.specs.Limits.{is_told};
ghost use Rattle.vault_lint.specs.Judging.{is_open, is_token_front, is_token_like, written_margin};

use crate::mark::has_word_bytes;
use crate::subject::Subject;
use base_words::two_pieces;

/// Whether the issue and the end of an entry are written.
pub(crate) fn is_told(subject: &Subject, index: u32) -> bool
    requires { index < length subject.now.inventory.forest.entries }
    ensures { result ≡ is_told subject.now.served.notes index }
{
    let notes = subject.served.notes();
    let at = index as usize;
    notes[at].is_told
}

/// The margin, where it is written.
pub(crate) fn written_margin(subject: &Subject) -> Option<u32>
    ensures { result ≡ written_margin subject.now }
{
    if subject.served.has_margin() {
        Some(subject.inventory.forest().margin())
    } else {
        None
    }
}

/// Whether others may read or write the file of an entry's credential.
pub(crate) fn is_open(open_files: &[bool], index: usize) -> bool
    ensures { result ≡ is_open open_files.now index }
{
    match open_files.get(index) {
        None => false,
        Some(is_open) => *is_open,
    }
}

/// Whether a name looks like the value of a token: `hvs`, `hvb`, `hvr`, `s` or `b`, a dot, and 8 letters, digits, `_` or `-` or more.
pub(crate) fn is_token_like(name: &[u8]) -> bool
    ensures { result ≡ is_token_like name.now }
{
    match two_pieces(name, b'.') {
        None => false,
        Some((front, rest)) => is_token_front(front) && rest.len() >= 8 && has_word_bytes(rest),
    }
}

fn is_token_front(front: &[u8]) -> bool
    ensures { result ≡ is_token_front front.now }
{
    front == b"hvs".as_slice()
        || front == b"hvb".as_slice()
        || front == b"hvr".as_slice()
        || front == b"s".as_slice()
        || front == b"b".as_slice()
}
