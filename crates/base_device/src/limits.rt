ghost use Rattle.std.specs.Prelude.{◌≡◌};

/// The most room that one read offers, in bytes.
pub const MOST_ROOM: usize = 65536;

/// The most reads for one file or message.
pub const MOST_READS: usize = 4096;

/// The limits as numbers. It does nothing.
pub fn limits_law()
    ensures room { MOST_ROOM ≡ 65536 }
    ensures reads { MOST_READS ≡ 4096 }
{}
