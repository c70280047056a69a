ghost use Rattle.std.specs.Prelude.{◌≡◌};
ghost use Rattle.program_calls.specs.Ending.{ended_code, ended_of};

use program_report::Stop;

/// How a call ended.
#[derive(Clone, Copy, Debug, PartialEq, Eq)]
pub enum Ended {
    /// 0: it was done. Of `health`: every needed entry is kept.
    Done,
    /// 1: it was refused, or has no answer. Of `health` also: a needed entry is not kept.
    Refused,
    /// 6: standard input or the output failed, or standard input is too long.
    Device,
    /// 7: memory was refused.
    Memory,
}

impl Ended {
    /// The exit status of the process.
    pub fn code(self) -> u8
        ensures { result ≡ ended_code self }
    {
        match self {
            Ended::Done => 0,
            Ended::Refused => 1,
            Ended::Device => 6,
            Ended::Memory => 7,
        }
    }

    /// How a call ended that a device or lack of memory stopped.
    pub(crate) fn of(stop: &Stop) -> Ended
        ensures { result ≡ ended_of stop.now }
    {
        match stop {
            Stop::Memory => Ended::Memory,
            _ => Ended::Device,
        }
    }
}
