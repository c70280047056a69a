/// What a file in memory holds.
#[derive(Debug, Drop)]
pub struct Held {
    /// Its permission bits.
    pub mode: u32,
    /// Its bytes.
    pub bytes: Vec<u8>,
}

/// A file of a disk in memory.
#[derive(Debug, Drop)]
pub struct Stored {
    /// Where it stands.
    pub path: Vec<u8>,
    /// What it holds.
    pub file: Held,
}

/// A file that stands beside its place.
#[derive(Debug, Drop)]
pub struct FileDraft {
    /// The place.
    pub path: Vec<u8>,
    /// What it holds.
    pub file: Held,
    /// Whether it is on the disk.
    pub is_synced: bool,
}

/// A call on the file at a path.
#[derive(Debug, Drop)]
pub struct DiskCall {
    /// The path.
    pub path: Vec<u8>,
    /// What it asked for, and whether it went well.
    pub what: CallMade,
}

/// What a call asked for, and whether it went well.
#[derive(Debug, Drop)]
pub enum CallMade {
    /// Bytes from an offset on.
    Write {
        /// The offset.
        at: usize,
        /// The bytes.
        bytes: Vec<u8>,
        /// Whether all were taken.
        done: bool,
    },
    /// That what is read is on the disk.
    Sync {
        /// Whether it is.
        done: bool,
    },
    /// A file that was synced beside the path.
    Move {
        /// Its permission bits.
        mode: u32,
        /// Its bytes.
        bytes: Vec<u8>,
        /// Whether it is there.
        done: bool,
    },
}
