//! The line for people that a program may write after a fault line: which file it has not read, and why; or what to write in an
//! inventory. It takes no memory.
ghost use Rattle.std.specs.Prelude.{◌≡◌, ◌<◌, ◌++◌, codes, length, option_map};
ghost use Rattle.program_report.specs.Sent.{Puts};
ghost use Rattle.program_report.specs.Told.{Reports};
ghost use Rattle.vault_inventory.specs.Served.{first_untold};
ghost use Rattle.program_words.specs.Advice.{Advises, advice_line, fault_advice, key_line, missing_words, open_line, unread_reason, value_words};

use crate::unread::Unread;
use base_device::{Sink, SinkFault, Watched};
use program_report::{put_before_colon, put_both};
use vault_inventory::{EntryNote, InvFault, Key, ServedInventory};

/// Tells that the file at a path was not read, and why.
pub fn advise_on_file<E: Sink>(program: &str, path: &str, why: Unread, errors: &mut E)
    ensures { Reports (advice_line program.now path.now (unread_reason why)) (⟦<E as Watched>⟧.change errors.old errors.new) }
{
    tell_line(
        errors,
        program.as_bytes(),
        path.as_bytes(),
        why.words().as_bytes(),
    );
}

/// Tells what to write where an inventory has this fault, if there is something to say of it.
#[tactic(auto, unfolding(crate::specs::Advice::fault_advice))]
pub fn advise_on_fault<E: Sink>(program: &str, fault: InvFault, errors: &mut E)
    ensures { Advises (fault_advice program.now fault) (⟦<E as Watched>⟧.change errors.old errors.new) }
{
    match fault {
        InvFault::MissingKey(_, key) => advise_on_key(program, key, missing_words(key), errors),
        InvFault::BadValue(_, key) => advise_on_key(program, key, value_words(key), errors),
        _ => {}
    }
}

/// Tells which entry is the first whose table leaves its end to a lookup, if one does, and who looks it up.
#[tactic(auto, unfolding(crate::specs::Advice::open_line))]
pub fn advise_on_open<E: Sink>(program: &str, served: &ServedInventory, errors: &mut E)
    ensures { Advises (open_line program.now served.now) (⟦<E as Watched>⟧.change errors.old errors.new) }
{
    let inventory = served.inventory();
    if let Some(index) = first_untold(served.notes()) {
        let name = inventory.forest().get(index).name.list();
        tell_line(
            errors,
            program.as_bytes(),
            name,
            b"issued and end are not written; serve and run look them up",
        );
    }
}

// The first table that leaves its end to a lookup.
fn first_untold(notes: &[EntryNote]) -> Option<u32>
    requires { length notes.now < 4097 }
    ensures { result ≡ first_untold 0 notes.now }
{
    for (index, note) in notes.iter().enumerate() {
        if !note.is_told {
            return Some(index as u32);
        }
    }
    None
}

// Tells what to write for a key, if there is something to say.
fn advise_on_key<E: Sink>(program: &str, key: Key, words: Option<&str>, errors: &mut E)
    ensures { Advises (key_line program.now key (option_map (λ w. w.now) words.entry)) (⟦<E as Watched>⟧.change errors.old errors.new) }
{
    if let Some(words) = words {
        tell_line(
            errors,
            program.as_bytes(),
            key.text().as_bytes(),
            words.as_bytes(),
        );
    }
}

// What is to be written for a key that a table of an entry lacks.
#[tactic(auto, unfolding(crate::specs::Advice::missing_words))]
fn missing_words(key: Key) -> Option<&'static str>
    ensures { option_map (λ words. words.now) result ≡ missing_words key }
{
    match key {
        Key::Issued | Key::End => {
            Some("write both issued and end, or neither: serve and run look them up")
        }
        _ => None,
    }
}

// What is to be written for a key whose value is none.
#[tactic(auto, unfolding(crate::specs::Advice::value_words))]
fn value_words(key: Key) -> Option<&'static str>
    ensures { option_map (λ words. words.now) result ≡ value_words key }
{
    match key {
        Key::SystemMax | Key::Increment | Key::Period | Key::MaxTtl | Key::ExplicitMaxTtl => Some(
            "write whole seconds, or a duration in quotes with its units, as \"90m\" or \"1h30m\"",
        ),
        Key::Margin => Some(
            "write 1 to 3600 seconds, as a whole number or as a duration in quotes, as \"10m\"",
        ),
        Key::Issued | Key::End => Some(
            "write whole seconds since 1970, or a date in quotes with its offset, as \"2026-11-22T09:00:00Z\"",
        ),
        Key::Need => Some(
            "write whole seconds since 1970, a date in quotes with its offset, as \"2026-11-22T09:00:00Z\", or \"always\"",
        ),
        _ => None,
    }
}

// Tells a line and flushes. A write that fails is passed over: there is nowhere left to tell of it.
fn tell_line<E: Sink>(errors: &mut E, program: &[u8], subject: &[u8], words: &[u8])
    ensures { Reports (advice_line program.now subject.now words.now) (⟦<E as Watched>⟧.change errors.old errors.new) }
{
    let _ = put_line(errors, program, subject, words);
    let _ = errors.flush();
}

#[tactic(auto, using(program_report::proofs::Pieces::piece_cut, program_report::proofs::Pieces::piece_more), unfolding(crate::specs::Advice::advice_line))]
fn put_line<E: Sink>(
    errors: &mut E,
    program: &[u8],
    subject: &[u8],
    words: &[u8],
) -> Result<(), SinkFault>
    ensures { Puts result (advice_line program.now subject.now words.now) (⟦<E as Watched>⟧.change errors.old errors.new) }
{
    put_before_colon(errors, program)?;
    put_before_colon(errors, subject)?;
    put_both(errors, words, b"\n")
}
