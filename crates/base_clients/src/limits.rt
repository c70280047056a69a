/// How many guests there may be, and how long a request may be.
#[derive(Clone, Copy, Debug, PartialEq, Eq)]
pub struct GuestLimits {
    pub guests: usize,
    /// In bytes. A request that has more is handed on as it is by then, and nothing more is read of it.
    pub bytes: usize,
}

/// How long a guest has to send its request, and how long to read its answer, in milliseconds.
pub const PATIENCE: u64 = 10_000;

/// The most bytes that one call of a guest's connection is offered.
pub const MOST_PIECE: usize = 4096;

/// The most guests that a turn lets in: so one that has just come is read before others can push it out.
pub const MOST_AT_ONCE: u32 = 16;
