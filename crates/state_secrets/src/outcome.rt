//! What a file of a credential holds, what becomes of that, and what is said of it.
ghost use Rattle.std.specs.Prelude.{◌≡◌, IfOk, OnErr};
ghost use Rattle.std.specs.List.{filter};
ghost use Rattle.state_changes.specs.Rows.{named};
ghost use Rattle.state_secrets.specs.Outcomes.{IsNoted, MayRead, ReadsFile, again_after, doubled_pause, has_it, names_file, news_about, news_of, pause_after, secret_of, secrets_with, seen_after, stays, trouble_number, was_told, was_troubled};

use crate::credential::{MOST_SECRET, credential_in};
use crate::looking::{
    DueFile, FileMark, FileSeen, LOOK_EVERY, Looking, NEVER, SecretTrouble, set_mark,
};
use crate::news::{Became, SecretNews, SecretWord};
use crate::secret_files::{FileStamp, SecretFiles, is_same_found};
use base_device::InputFault;
use base_moment::{Name, Text};
use state_changes::{Rows, Secret, taken_from};
use std::alloc::{AllocError, Global};

/// The longest pause after a reading of a file in trouble, in milliseconds.
pub const LONGEST_PAUSE: u64 = 300_000;

impl Looking {
    /// What came of the reading of a file is kept, unless memory is wanting for that; and the next row is the one after it.
    pub fn note(&mut self, due: DueFile, seen: FileSeen)
        ensures { IsNoted due seen self.old self.new }
    {
        let DueFile { at, name, file, .. } = due;
        self.next = at.saturating_add(1);
        // (Where memory is wanting for that, the file is read anew in the next pass.)
        set_mark(&mut self.marks, FileMark { name, file, seen });
    }
}

/// What the file at a path with that stamp holds. It is opened only where it is a regular one. The only error is out of memory.
pub fn read_held<I: SecretFiles>(
    alloc: Global,
    files: &mut I,
    path: &[u8],
    stamp: Option<FileStamp>,
) -> Result<Result<Text, SecretTrouble>, AllocError>
    ensures read { IfOk result (λ held. ReadsFile I.calls path.now stamp held files.old files.new) }
    ensures wanting { OnErr result (MayRead I.calls path.now files.old files.new) }
{
    let Some(stamp) = stamp else {
        return Ok(Err(SecretTrouble::Unread));
    };
    if !stamp.is_regular {
        return Ok(Err(SecretTrouble::NotRegular));
    }
    match files.open(alloc, path, MOST_SECRET) {
        Ok(text) => secret_of(alloc, text.list()),
        Err(InputFault::ReadFailed) => Ok(Err(SecretTrouble::Unread)),
        Err(InputFault::TooLong) => Ok(Err(SecretTrouble::NoSecret)),
        Err(InputFault::OutOfMemory) => Err(AllocError),
    }
}

// The credential that a text is, without the white space around it; or that it is none.
fn secret_of(alloc: Global, text: &[u8]) -> Result<Result<Text, SecretTrouble>, AllocError>
    ensures { IfOk result (λ held. held ≡ secret_of text.now) }
{
    match credential_in(alloc, text)? {
        Some(credential) => Ok(Ok(credential)),
        None => Ok(Err(SecretTrouble::NoSecret)),
    }
}

/// Whether that credential is held of that file for the entry of that name.
pub fn has_it(secrets: &[Secret], name: &[u8], file: &[u8], credential: &[u8]) -> bool
    ensures { result ≡ has_it secrets.now name.now file.now credential.now }
{
    match taken_from(secrets, name, file) {
        None => false,
        Some(secret) => secret.credential.list() == credential,
    }
}

/// What is held of files that are still named, with this one. The only error is out of memory.
pub fn secrets_with(
    alloc: Global,
    rows: &Rows,
    secrets: &[Secret],
    secret: Secret,
) -> Result<Vec<Secret>, AllocError>
    ensures { IfOk result (λ all. all.items ≡ secrets_with rows.now secrets.now secret) }
{
    let mut all = others(alloc, rows, secrets, secret.name.list())?;
    all.push(secret)?;
    Ok(all)
}

// What is held of files that are still named, but for that of the entry of that name.
#[tactic(auto, using(crate::proofs::Staying::one_in, crate::proofs::Staying::one_out, crate::proofs::Staying::all_in))]
fn others(
    alloc: Global,
    rows: &Rows,
    secrets: &[Secret],
    name: &[u8],
) -> Result<Vec<Secret>, AllocError>
    ensures { IfOk result (λ left. left.items ≡ filter (stays rows.now name.now) secrets.now) }
{
    let mut left = Vec::new(alloc);
    for secret in secrets {
        if stays(rows, name, secret) {
            left.push(secret.copy()?)?;
        }
    }
    Ok(left)
}

// Whether it is of another entry, which still names the file.
fn stays(rows: &Rows, name: &[u8], secret: &Secret) -> bool
    ensures { result ≡ stays rows.now name.now secret.now }
{
    if secret.name.list() == name {
        return false;
    }
    names_file(rows, secret.name.list(), secret.file.list())
}

/// Whether there is an entry of that name, and its credential stands in that file.
pub fn names_file(rows: &Rows, name: &[u8], file: &[u8]) -> bool
    ensures { result ≡ names_file (named rows.now name.now) file.now }
{
    match rows.named(name) {
        None => false,
        Some(row) => match &row.file {
            None => false,
            Some(own) => own.list() == file,
        },
    }
}

/// What is kept of a reading, by what was seen before it.
pub fn seen_after(
    before: Option<FileSeen>,
    stamp: Option<FileStamp>,
    now: u64,
    became: Became,
) -> FileSeen
    ensures { result ≡ seen_after before stamp now became }
{
    match became {
        Became::Taken | Became::Same => FileSeen {
            stamp,
            trouble: None,
            pause: LOOK_EVERY,
            again: again_after(before, stamp, now),
        },
        Became::Troubled(trouble) => {
            let pause = pause_after(before, stamp);
            FileSeen {
                stamp,
                trouble: Some(trouble),
                pause,
                again: now.saturating_add(pause),
            }
        }
    }
}

// From when on a file in which nothing is wrong is read again: once more in the next pass, since two writes within one tick of the
// disk's clock may leave one stamp.
fn again_after(before: Option<FileSeen>, stamp: Option<FileStamp>, now: u64) -> u64
    ensures { result ≡ again_after before stamp now }
{
    match before {
        Some(seen) if seen.trouble.is_none() && is_same_found(seen.stamp, stamp) => NEVER,
        Some(_) | None => now.saturating_add(LOOK_EVERY),
    }
}

// How long after a reading in trouble the next one comes: twice as long as before, where the file is as before.
fn pause_after(before: Option<FileSeen>, stamp: Option<FileStamp>) -> u64
    ensures { result ≡ pause_after before stamp }
{
    match before {
        Some(seen) if seen.trouble.is_some() && is_same_found(seen.stamp, stamp) => {
            doubled(seen.pause)
        }
        Some(_) | None => LOOK_EVERY,
    }
}

// Twice as long, and no longer than the longest pause.
fn doubled(pause: u64) -> u64
    ensures { result ≡ doubled_pause pause }
{
    if pause < LONGEST_PAUSE / 2 {
        pause * 2
    } else {
        LONGEST_PAUSE
    }
}

/// What is said of what became of a file: a trouble once, as long as it lasts, and that it is over.
pub fn news_of(before: Option<FileSeen>, was_held: bool, became: Became) -> Option<SecretWord>
    ensures { result ≡ news_of before was_held became }
{
    match became {
        Became::Taken => Some(SecretWord::Taken),
        Became::Same => {
            if was_troubled(before) {
                Some(SecretWord::Mended)
            } else {
                None
            }
        }
        Became::Troubled(trouble) => {
            if was_told(before, trouble) {
                None
            } else if was_held {
                Some(SecretWord::Kept(trouble))
            } else {
                Some(SecretWord::Without(trouble))
            }
        }
    }
}

// Whether something was wrong with the file before.
fn was_troubled(before: Option<FileSeen>) -> bool
    ensures { result ≡ was_troubled before }
{
    match before {
        None => false,
        Some(seen) => seen.trouble.is_some(),
    }
}

// Whether the file was in that trouble before.
fn was_told(before: Option<FileSeen>, trouble: SecretTrouble) -> bool
    ensures { result ≡ was_told before trouble }
{
    match before {
        None => false,
        Some(seen) => match seen.trouble {
            None => false,
            Some(other) => trouble_number(other) == trouble_number(trouble),
        },
    }
}

fn trouble_number(trouble: SecretTrouble) -> u32
    ensures { result ≡ trouble_number trouble }
{
    match trouble {
        SecretTrouble::Unread => 0,
        SecretTrouble::NotRegular => 1,
        SecretTrouble::NoSecret => 2,
        SecretTrouble::Another => 3,
        SecretTrouble::TooLong => 4,
        SecretTrouble::Endless => 5,
        SecretTrouble::Refused(status) => 6 + u32::from(status),
    }
}

pub fn news_about(name: Name, what: Option<SecretWord>) -> Option<SecretNews>
    ensures { result ≡ news_about name what }
{
    match what {
        None => None,
        Some(what) => Some(SecretNews { name, what }),
    }
}
