//! What cannot be read in a journal: it is kept in a file aside before anything is written over it.
ghost use Rattle.std.specs.Prelude.{◌≡◌, ◌++◌, List, ℕ, drop, IfOk, IsTrue, OnOk};
ghost use Rattle.base_disk.specs.State.{Elapses, IsAfter, LeavesAlone, LeavesOnly, TellsFailure};
ghost use Rattle.base_disk.specs.Torn.{MovesFile};
ghost use Rattle.base_journal.specs.Journals.{FileIsThere, KeepsOthers, bytes_of_file};
ghost use Rattle.base_journal.specs.Records.{block, blocks};
ghost use Rattle.agent_system.specs.SettingAside.{AddsUnread, IsUnread, KeepsUnread, SetsAside, file_with, is_closed, unread_of, unread_said, unread_words, with_end};

use crate::said::push;
use agent_words::{About, SaidLine};
use base_disk::{Disk, DiskFault, FILE_MODE, replace};
use base_journal::{Journal, MOST_BYTES};
use base_log::Level;
use base_moment::Text;
use base_words::push_number;
use std::alloc::{AllocError, Global};

/// Before what was being written to a journal as its process ended.
const CLOSED: u8 = b'-';

/// Keeps what cannot be read in the journal at a path at the end of the file at `aside`, and says so, with how many bytes it has. The
/// journal is left as it is: the first change makes it anew.
///
/// `TooLong`: one of the two files has more than 128 MiB. `Failed`: a call of the disk did, and nothing is said. `OutOfMemory`: memory was
/// refused, perhaps for the words alone. After an `Err` the file aside is as it was, or has what cannot be read.
#[tactic(auto, using(crate::proofs::SetAside::sets_aside))]
pub fn set_aside<D: Disk>(
    alloc: Global,
    disk: &mut D,
    journal: &str,
    aside: &str,
    said: &mut Vec<SaidLine>,
) -> Result<(), DiskFault>
    ensures kept { OnOk result (IsTrue D.is_known
        → SetsAside journal.now aside.now (D.state disk.old) (D.state disk.new) said.old.items said.new.items) }
    ensures others { IsTrue D.is_known → KeepsOthers aside.now (D.state disk.old) (D.state disk.new) }

    // A crash at any moment, and a fault, leave the file aside as it was, or with what cannot be read.
    ensures any_moment { IsTrue D.is_known → LeavesOnly (D.state disk.old) (D.state disk.new)
        (IsAfter (AddsUnread (bytes_of_file ((D.state disk.old).seen journal.now)) aside.now (D.state disk.old)) (D.state disk.old)) }
{
    let count = keep_unread(alloc, disk, journal, aside)?;
    say_unread(alloc, aside, count, said)?;
    Ok(())
}

/// Says how many bytes cannot be read, where there are any, and where they are kept.
fn say_unread(
    alloc: Global,
    aside: &str,
    count: usize,
    said: &mut Vec<SaidLine>,
) -> Result<(), AllocError>
    ensures { OnOk result (said.new.items ≡ said.old.items ++ unread_said aside.now count) }
{
    if count == 0 {
        return Ok(());
    }
    let text = unread_words(alloc, aside, count)?;
    push(said, Level::Alert, About::Journal, Text::from_vec(text))
}

fn unread_words(alloc: Global, aside: &str, count: usize) -> Result<Vec<u8>, AllocError>
    ensures { IfOk result (λ text. text.items ≡ unread_words aside.now count) }
{
    let mut text = Vec::new(alloc);
    push_number(alloc, count as u64, &mut text)?;
    text.extend_from_slice(b" bytes cannot be read: they are kept in ")?;
    text.extend_from_slice(aside.as_bytes())?;
    Ok(text)
}

/// How many bytes of the journal at a path cannot be read, once they are at the end of the file at `aside`, on the disk.
#[tactic(auto, using(crate::proofs::SetAside::nothing_added, crate::proofs::SetAside::then_added, crate::proofs::SetAside::others_alone, crate::proofs::SetAside::others_past, crate::proofs::SetAside::none_unread, crate::proofs::SetAside::kept_unread))]
fn keep_unread<D: Disk>(
    alloc: Global,
    disk: &mut D,
    journal: &str,
    aside: &str,
) -> Result<usize, DiskFault>
    ensures kept { IfOk result (λ count. IsTrue D.is_known
        → KeepsUnread (bytes_of_file ((D.state disk.old).seen journal.now)) aside.now (D.state disk.old) (D.state disk.new) count) }
    ensures others { IsTrue D.is_known → KeepsOthers aside.now (D.state disk.old) (D.state disk.new) }
    ensures any_moment { IsTrue D.is_known → LeavesOnly (D.state disk.old) (D.state disk.new)
        (IsAfter (AddsUnread (bytes_of_file ((D.state disk.old).seen journal.now)) aside.now (D.state disk.old)) (D.state disk.old)) }
    ensures cause { TellsFailure (D.state disk.old) (D.state disk.new) result }
{
    let unread = read_unread(alloc, disk, journal)?;
    if unread.is_empty() {
        return Ok(0);
    }
    add_at_end(alloc, disk, aside, &unread)?;
    Ok(unread.len())
}

/// What cannot be read in the journal at a path.
#[tactic(auto, using(crate::proofs::SetAside::read_once, crate::proofs::SetAside::read_twice, crate::proofs::SetAside::alone_twice, crate::proofs::SetAside::unread_read))]
fn read_unread<D: Disk>(alloc: Global, disk: &mut D, path: &str) -> Result<Vec<u8>, DiskFault>
    ensures unread { IfOk result (λ bytes. IsTrue D.is_known → IsUnread (bytes_of_file ((D.state disk.old).seen path.now)) bytes.items) }
    ensures alone { IsTrue D.is_known → LeavesAlone (D.state disk.old) (D.state disk.new) }
    ensures any_moment { IsTrue D.is_known → LeavesOnly (D.state disk.old) (D.state disk.new) (D.state disk.old).may_leave }
    ensures cause { TellsFailure (D.state disk.old) (D.state disk.new) result }
{
    let journal = Journal::open(alloc, disk, path)?;
    let bytes = bytes_at(alloc, disk, path)?;
    Ok(Vec::from_slice(alloc, unread_after(&bytes, journal.records()))?)
}

/// What cannot be read in these bytes of a journal, which begin with these records.
#[tactic(auto, using(crate::proofs::SetAside::unread_closed, crate::proofs::SetAside::unread_open))]
fn unread_after<'b>(bytes: &'b [u8], lines: &[Text]) -> &'b [u8]
    ensures { (end : List ℕ) → bytes.now ≡ blocks lines.now ++ end → result.now ≡ unread_of end }
{
    let end = after_records(bytes, lines);
    if is_closed(end) { &[] } else { end }
}

/// What comes after these records.
fn after_records<'b>(bytes: &'b [u8], lines: &[Text]) -> &'b [u8]
    ensures { (end : List ℕ) → bytes.now ≡ blocks lines.now ++ end → result.now ≡ end }
{
    let mut rest = bytes;
    for line in lines {
        rest = after_record(rest, line.list());
    }
    rest
}

/// What comes after this record: its gate, the line and a line feed.
fn after_record<'b>(bytes: &'b [u8], line: &[u8]) -> &'b [u8]
    ensures { (end : List ℕ) → bytes.now ≡ block line.now ++ end → result.now ≡ end }
{
    after(after(bytes, line.len()), 2)
}

/// What comes after the first `n` bytes.
fn after(bytes: &[u8], n: usize) -> &[u8]
    ensures { result.now ≡ drop n bytes.now }
{
    &bytes[n.min(bytes.len())..]
}

/// Whether a crash may have left that after the records: nothing, or a gate that is closed still and what was being written.
fn is_closed(end: &[u8]) -> bool
    ensures { result ≡ is_closed end.now }
{
    match end.first() {
        None => true,
        Some(gate) => *gate == CLOSED,
    }
}

/// Puts these bytes at the end of the file at a path, unless it ends with them already; it is on the disk then.
#[tactic(auto, using(crate::proofs::SetAside::others_alone, crate::proofs::SetAside::not_added, crate::proofs::SetAside::added_there, crate::proofs::SetAside::added_others, crate::proofs::SetAside::added_moment))]
fn add_at_end<D: Disk>(
    alloc: Global,
    disk: &mut D,
    path: &str,
    more: &[u8],
) -> Result<(), DiskFault>
    ensures there { OnOk result (IsTrue D.is_known → FileIsThere path.now (file_with more.now ((D.state disk.old).seen path.now)) (D.state disk.new)) }
    ensures others { IsTrue D.is_known → KeepsOthers path.now (D.state disk.old) (D.state disk.new) }
    ensures any_moment { IsTrue D.is_known → LeavesOnly (D.state disk.old) (D.state disk.new)
        (IsAfter (MovesFile path.now (file_with more.now ((D.state disk.old).seen path.now))) (D.state disk.old)) }
    ensures cause { TellsFailure (D.state disk.old) (D.state disk.new) result }
{
    let bytes = bytes_at(alloc, disk, path)?;
    let bytes = with_end(bytes, more)?;
    replace(disk, path, FILE_MODE, &bytes)
}

/// These bytes with more after them, unless they end with those already.
fn with_end(bytes: Vec<u8>, more: &[u8]) -> Result<Vec<u8>, AllocError>
    ensures { IfOk result (λ whole. whole.items ≡ with_end more.now bytes.items) }
{
    let mut whole = bytes;
    if !whole.ends_with(more) {
        whole.extend_from_slice(more)?;
    }
    Ok(whole)
}

/// The bytes of the file at a path; none where there is no file.
fn bytes_at<D: Disk>(alloc: Global, disk: &mut D, path: &str) -> Result<Vec<u8>, DiskFault>
    ensures bytes { IfOk result (λ bytes. IsTrue D.is_known → bytes.items ≡ bytes_of_file ((D.state disk.old).seen path.now)) }
    ensures alone { IsTrue D.is_known → LeavesAlone (D.state disk.old) (D.state disk.new) }
    ensures time { IsTrue D.is_known → Elapses (D.state disk.old) (D.state disk.new) }
    ensures cause { TellsFailure (D.state disk.old) (D.state disk.new) result }
{
    match disk.read(alloc, path, MOST_BYTES)? {
        None => Ok(Vec::new(alloc)),
        Some(text) => Ok(text.into_vec()),
    }
}
