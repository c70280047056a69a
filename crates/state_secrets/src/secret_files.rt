//! Files of credentials, looked at by their stamps.
ghost use Rattle.std.specs.Prelude.{◌≡◌, ◌≤◌, IfOk, List, Option, length};
ghost use Rattle.state_secrets.specs.Stamps.{FileCall, Made, Opened, Stamped, is_same_found, is_same_stamp};

use base_device::InputFault;
use base_moment::Text;
use std::alloc::Global;

/// What tells that a file may be another one, or that it was written or its mode set. Two writes within one tick of the disk's clock may
/// leave it as it is.
#[derive(Clone, Copy, Debug, PartialEq, Eq)]
pub struct FileStamp {
    /// The device that holds it.
    pub device: u64,
    /// Its number there.
    pub inode: u64,
    /// When its bytes were last written, in nanoseconds since 1970.
    pub written: u64,
    /// When its bytes, its name or its mode were last changed, in nanoseconds since 1970.
    pub changed: u64,
    /// How many bytes it has.
    pub size: u64,
    /// What kind of file it is, and its permission bits.
    pub mode: u32,
    /// Whether it is a regular file.
    pub is_regular: bool,
}

/// Files of credentials.
///
/// To contracts they are the calls that were made of them.
pub trait SecretFiles {
    /// The calls that were made, in order, where they are known.
    ghost calls: { Self → Option (List FileCall) };

    /// The stamp of the file at `path`, which is followed where it is a link; `None` where it cannot be had, as where there is none. The
    /// file is not opened.
    fn stamp(&mut self, path: &[u8]) -> Option<FileStamp>
        ensures { Made (Stamped path.now result) (calls self.old) (calls self.new) };

    /// The bytes of the file at `path`, where it has at most `max`.
    ///
    /// `ReadFailed`: it can't be opened, or a read failed. `TooLong`: it has more than `max` bytes. `OutOfMemory`: opening or reading it
    /// was refused memory.
    fn open(&mut self, alloc: Global, path: &[u8], max: usize) -> Result<Text, InputFault>
        ensures made { Made (Opened path.now max result) (calls self.old) (calls self.new) }
        ensures short { IfOk result (λ text. length text ≤ max) };
}

/// Whether these are the stamps of one file with the same bytes, as far as stamps can tell.
fn is_same_stamp(one: &FileStamp, other: &FileStamp) -> bool
    ensures { result ≡ is_same_stamp one.now other.now }
{
    one.device == other.device
        && one.inode == other.inode
        && one.written == other.written
        && one.changed == other.changed
        && one.size == other.size
        && one.mode == other.mode
        && one.is_regular == other.is_regular
}

/// The same of files that may not be there.
pub(crate) fn is_same_found(one: Option<FileStamp>, other: Option<FileStamp>) -> bool
    ensures { result ≡ is_same_found one other }
{
    match (one, other) {
        (None, None) => true,
        (Some(one), Some(other)) => is_same_stamp(&one, &other),
        (None, Some(_)) | (Some(_), None) => false,
    }
}
