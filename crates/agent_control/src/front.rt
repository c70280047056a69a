ghost use Rattle.std.specs.Prelude.{◌≡◌};
ghost use Rattle.agent_control.specs.Front.{IsLineFront};

use crate::limits::LINE_MAX;
use memchr::memchr;

/// How far the first line of what a client has sent has come.
#[derive(Clone, Copy, Debug, PartialEq, Eq)]
pub enum Front {
    /// Its end has not come, and may still come in time.
    Open,
    /// It is so many bytes, and then its line feed.
    Whole(usize),
    /// It has more than [`LINE_MAX`] bytes, whatever follows.
    TooLong,
}

/// How far the first line of these bytes has come.
pub fn front_of(bytes: &[u8]) -> Front
    ensures { IsLineFront bytes.now result }
{
    match memchr(b'\n', bytes) {
        Some(length) if length <= LINE_MAX => Front::Whole(length),
        None if bytes.len() <= LINE_MAX => Front::Open,
        _ => Front::TooLong,
    }
}
