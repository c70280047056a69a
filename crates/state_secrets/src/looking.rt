//! The look at files of credentials: which of them is to be read.
ghost use Rattle.std.specs.Prelude.{◌≡◌, IfOk, drop};
ghost use Rattle.std.specs.List.{position};
ghost use Rattle.state_changes.specs.Secrets.{taken_from};
ghost use Rattle.state_secrets.specs.Credentials.{placed};
ghost use Rattle.state_secrets.specs.Looking.{IsBegun, IsDueFile, IsPassed, MaySet, Passes, Steps, begun_anew, is_held, is_mark_of, is_to_be_read, seen_of};

use crate::place::placed;
use crate::secret_files::{FileStamp, SecretFiles, is_same_found};
use base_moment::{Name, Text};
use state_changes::{Row, Secret, taken_from};
use std::alloc::{AllocError, Global};

/// The files of which the stamps are looked at in one turn at most.
pub const MOST_LOOKS: usize = 64;

/// The time from the end of one pass over the files to the next, in milliseconds; that comes in the first turn from then on.
pub const LOOK_EVERY: u64 = 10_000;

/// The marks that are kept at most: twice as many as an inventory has entries. Where there are more at the end of a pass, all are
/// forgotten, and each file is read anew.
pub const MOST_MARKS: usize = 8192;

/// From when on a file is read again whose stamp stays the same: never.
pub const NEVER: u64 = 18_446_744_073_709_551_615;

/// What is wrong with a file of a credential.
#[derive(Clone, Copy, Debug, PartialEq, Eq)]
pub enum SecretTrouble {
    /// It cannot be read, or there is none.
    Unread,
    /// It is a folder, a pipe or the like.
    NotRegular,
    /// It holds no credential: 1 to 256 printable ASCII characters.
    NoSecret,
    /// It holds what another entry of the kind has.
    Another,
    /// With what it holds the inventory would be longer than any program reads.
    TooLong,
    /// It holds a token that never ends, which needs no keeping.
    Endless,
    /// The broker refuses to look up what it holds, with this status.
    Refused(u16),
}

/// What came of the last reading of a file. Times are of the clock that never steps, in milliseconds.
#[derive(Clone, Copy, Debug, PartialEq, Eq)]
pub struct FileSeen {
    /// Its stamp before it was read.
    pub stamp: Option<FileStamp>,
    /// What was wrong with it.
    pub trouble: Option<SecretTrouble>,
    /// How long after a reading in trouble the next one comes.
    pub pause: u64,
    /// From when on it is read again though its stamp stays the same.
    pub again: u64,
}

/// That of the file of an entry.
#[derive(Debug, Drop)]
pub struct FileMark {
    /// The name of the entry.
    pub name: Name,
    /// The path of the file, as the inventory writes it.
    pub file: Text,
    /// What came of its last reading.
    pub seen: FileSeen,
}

/// How far the look at files of credentials has come.
#[derive(Debug, Drop)]
pub struct Looking {
    /// What came of the last reading of each file.
    pub marks: Vec<FileMark>,
    /// The place of the row that is looked at next.
    pub next: usize,
    /// From when on, in milliseconds of the clock that never steps.
    pub from: u64,
}

/// What a pass over the files goes by.
#[derive(Clone, Copy, Debug)]
pub struct Look<'a> {
    /// How far the look has come.
    pub looking: &'a Looking,
    /// What is held of files.
    pub secrets: &'a [Secret],
    /// The folder at which a path starts that does not begin with `/`: it ends in one, or is empty.
    pub folder: &'a [u8],
    /// The moment of the clock that never steps, in milliseconds.
    pub elapsed: u64,
}

/// A file that is to be read.
#[derive(Debug, Drop)]
pub struct DueFile {
    /// The place of its row.
    pub at: usize,
    /// The name of the entry.
    pub name: Name,
    /// The path of the file, as the inventory writes it.
    pub file: Text,
    /// Where it is.
    pub path: Vec<u8>,
    /// Its stamp.
    pub stamp: Option<FileStamp>,
}

/// How a pass over the files ends for now.
#[derive(Debug, Drop)]
pub enum Pass {
    /// No row is left.
    End,
    /// So many files were looked at as may be in a turn: it goes on at this row.
    Later(usize),
    /// This file is to be read.
    Due(DueFile),
    /// Memory was refused.
    Want,
}

/// One row of a pass.
#[derive(Debug, Drop)]
pub enum Step {
    /// It names no file.
    Bare,
    /// Its file is as it was.
    Same,
    /// The pass ends here for now.
    Ends(Pass),
}

impl Looking {
    /// No file was read yet.
    pub fn new(alloc: Global) -> Looking
        ensures { IsBegun result }
    {
        Looking {
            marks: Vec::new(alloc),
            next: 0,
            from: 0,
        }
    }

    /// The pass is at its end.
    pub fn end(&mut self, now: u64)
        ensures { IsPassed now self.old self.new }
    {
        if self.marks.len() > MOST_MARKS {
            self.marks.clear();
        }
        self.next = 0;
        self.from = now.saturating_add(LOOK_EVERY);
    }

    /// A pass begins in the next turn.
    pub fn begin_anew(&mut self)
        ensures { self.new ≡ begun_anew self.old }
    {
        self.next = 0;
        self.from = 0;
    }
}

impl<'a> Look<'a> {
    /// Looks at the files that these rows name, from the row on that is next: until one is to be read, or so many were looked at as may be
    /// in a turn.
    pub fn pass<I: SecretFiles>(&self, alloc: Global, rows: &[Row], files: &mut I) -> Pass
        ensures { Passes I.calls self.now.looking.now.marks.items self.now.secrets.now self.now.folder.now self.now.elapsed self.now.looking.now.next (drop self.now.looking.now.next rows.now) MOST_LOOKS files.old result files.new }
    {
        let mut left = MOST_LOOKS;
        for at in self.looking.next..rows.len() {
            match self.step(alloc, at, &rows[at], left, files) {
                Step::Bare => {}
                Step::Same => left = left.saturating_sub(1),
                Step::Ends(pass) => return pass,
            }
        }
        Pass::End
    }

    // Looks at the file of the row at a place, where it names one and more may be looked at.
    fn step<I: SecretFiles>(
        &self,
        alloc: Global,
        at: usize,
        row: &Row,
        left: usize,
        files: &mut I,
    ) -> Step
        ensures { Steps I.calls self.now.looking.now.marks.items self.now.secrets.now self.now.folder.now self.now.elapsed at row.now left files.old result files.new }
    {
        let Some(file) = &row.file else {
            return Step::Bare;
        };
        if left == 0 {
            return Step::Ends(Pass::Later(at));
        }
        let Ok(path) = placed(alloc, self.folder, file.list()) else {
            return Step::Ends(Pass::Want);
        };
        let stamp = files.stamp(&path);
        let seen = seen_of(&self.looking.marks, row.name.list(), file.list());
        let is_held = is_held(self.secrets, row.name.list(), file.list());
        if !is_due(seen, is_held, stamp, self.elapsed) {
            return Step::Same;
        }
        match due_file(at, row, file, path, stamp) {
            Ok(due) => Step::Ends(Pass::Due(due)),
            Err(AllocError) => Step::Ends(Pass::Want),
        }
    }
}

// The file of a row, which is to be read. The only error is out of memory.
fn due_file(
    at: usize,
    row: &Row,
    file: &Text,
    path: Vec<u8>,
    stamp: Option<FileStamp>,
) -> Result<DueFile, AllocError>
    ensures { IfOk result (IsDueFile at row.now.name file.now path.items stamp) }
{
    Ok(DueFile {
        at,
        name: row.name.clone()?,
        file: file.clone()?,
        path,
        stamp,
    })
}

/// What came of the last reading of the file of that path for the entry of that name.
pub fn seen_of(marks: &[FileMark], name: &[u8], file: &[u8]) -> Option<FileSeen>
    ensures { result ≡ seen_of marks.now name.now file.now }
{
    match marks.iter().find(|mark| is_mark_of(name, file, mark)) {
        None => None,
        Some(mark) => Some(mark.seen),
    }
}

fn is_mark_of(name: &[u8], file: &[u8], mark: &FileMark) -> bool
    ensures { result ≡ is_mark_of name.now file.now mark.now }
{
    mark.name.list() == name && mark.file.list() == file
}

/// Whether something of that file is held for the entry of that name.
pub fn is_held(secrets: &[Secret], name: &[u8], file: &[u8]) -> bool
    ensures { result ≡ is_held secrets.now name.now file.now }
{
    match taken_from(secrets, name, file) {
        None => false,
        Some(_) => true,
    }
}

// Whether a file is to be read, by what was seen of it.
fn is_due(seen: Option<FileSeen>, is_held: bool, stamp: Option<FileStamp>, now: u64) -> bool
    ensures { result ≡ is_to_be_read seen is_held stamp now }
{
    match seen {
        None => true,
        Some(seen) => {
            !is_same_found(seen.stamp, stamp)
                || now >= seen.again
                || (seen.trouble.is_none() && !is_held)
        }
    }
}

/// Sets what came of the last reading of a file, unless memory is wanting for it.
#[tactic(auto, using(crate::proofs::Placing::mark_within))]
pub(crate) fn set_mark(marks: &mut Vec<FileMark>, mark: FileMark)
    ensures { MaySet mark marks.old.items marks.new.items }
{
    match place_of(marks, mark.name.list(), mark.file.list()) {
        Some(at) => marks[at] = mark,
        None => match marks.push(mark) {
            Ok(()) => {}
            Err(_) => {}
        },
    }
}

// The place of the mark of the file of that path for the entry of that name.
fn place_of(marks: &[FileMark], name: &[u8], file: &[u8]) -> Option<usize>
    ensures { result ≡ position (is_mark_of name.now file.now) marks.now }
{
    marks.iter().position(|mark| is_mark_of(name, file, mark))
}
