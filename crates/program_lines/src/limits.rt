ghost use Rattle.std.specs.Prelude.{◌≡◌};

/// The most bytes of a line with its line feed.
pub const MOST_LINE: usize = 256;

/// The room of one read, in bytes.
pub const ROOM: usize = 4096;

/// How much of an input is heard.
#[derive(Debug, Copy, Clone)]
pub struct InputLimits {
    /// The most bytes, if there is a limit.
    pub bytes: Option<usize>,
    /// The most reads.
    pub reads: u64,
}

/// The limits as numbers. It does nothing.
pub fn limits_law()
    ensures line { MOST_LINE ≡ 256 }
    ensures room { ROOM ≡ 4096 }
{}
