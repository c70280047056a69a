/// The two clocks at one moment, in milliseconds.
#[derive(Clone, Copy, Debug, PartialEq, Eq)]
pub struct Reading {
    /// The wall's clock, since 1970-01-01T00:00:00Z. It may be set, and so may step.
    pub wall: u64,
    /// The clock that never steps and counts suspensions, since the machine was booted (Linux, `clock_gettime`:
    /// `CLOCK_BOOTTIME`).
    pub elapsed: u64,
}
