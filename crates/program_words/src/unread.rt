//! Why a file was not read.
ghost use Rattle.std.specs.Prelude.{◌≡◌};
ghost use Rattle.program_words.specs.Advice.{unread_of, unread_reason};

use std::io::ErrorKind;

/// Why a file was not read to its end.
#[derive(Clone, Copy, Debug, PartialEq, Eq)]
pub enum Unread {
    /// There is none of this path.
    NotFound,
    /// This user may not read it.
    NotAllowed,
    /// It is a folder.
    Folder,
    /// What the path names as a folder is none.
    InNoFolder,
    /// It has more bytes than it may have, or too many reads did not come to its end.
    TooLong,
    /// Any other reason.
    Failed,
}

impl Unread {
    /// Why a file was not opened, by the system's error.
    pub fn of(kind: ErrorKind) -> Unread
        ensures { result ≡ unread_of kind }
    {
        match kind {
            ErrorKind::NotFound => Unread::NotFound,
            ErrorKind::PermissionDenied => Unread::NotAllowed,
            ErrorKind::IsADirectory => Unread::Folder,
            ErrorKind::NotADirectory => Unread::InNoFolder,
            _ => Unread::Failed,
        }
    }

    /// What is said of it.
    pub fn words(self) -> &'static str
        ensures { result.now ≡ unread_reason self }
    {
        match self {
            Unread::NotFound => "No such file or directory",
            Unread::NotAllowed => "Permission denied",
            Unread::Folder => "Is a directory",
            Unread::InNoFolder => "Not a directory",
            Unread::TooLong => {
                "it is too long: an inventory has at most 1 MiB, a certificate at most 16 MiB"
            }
            Unread::Failed => "it cannot be read",
        }
    }
}
