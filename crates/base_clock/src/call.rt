/// A call of a clock.
#[derive(Clone, Copy, Debug, PartialEq, Eq)]
pub enum ClockCall {
    /// Both clocks were read, and told this, in milliseconds.
    Read { wall: u64, elapsed: u64 },
    /// They could not be read.
    Unread,
    /// A wait of so many milliseconds at most.
    Wait { millis: u64 },
}
