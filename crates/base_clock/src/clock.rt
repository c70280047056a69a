ghost use Rattle.std.specs.Prelude.{◌≡◌};
ghost use Rattle.std.specs.Result.{result_ok};
ghost use Rattle.base_device.specs.Failures.{CountsRead};
ghost use Rattle.base_clock.specs.Seen.{CallIsMade, ClockSeen, read_call};
ghost use Rattle.base_clock.specs.declared.call.ClockCall.TheVariants.{Wait};

use crate::reading::Reading;
use base_device::Failed;

/// The clock of an agent, and its one wait.
///
/// A neighbour is a socket that the agent reads or writes without waiting. All of them are waited for at once, here: a lane to
/// the broker, a client, an onlooker. So a turn of the agent has one wait, whoever it is for.
pub trait Clock {
    /// What was asked of it, where it is known, and the number of its calls that failed, up to the greatest `u64`.
    ghost seen: { Self → ClockSeen };

    /// The number of calls that answered that they failed. At 18446744073709551615 the count stays.
    fn failures(&self) -> u64
        ensures { result ≡ (seen self.now).failed_calls };

    /// Reads both clocks.
    fn read(&mut self) -> Result<Reading, Failed>
        ensures made { CallIsMade (read_call (result_ok result)) (Self.seen self.old) (Self.seen self.new) }
        ensures count { CountsRead result (Self.seen self.old).failed_calls (Self.seen self.new).failed_calls };

    /// Waits until a neighbour can go on, so many milliseconds at most. A suspension of the machine does not count.
    fn wait(&mut self, millis: u64)
        ensures made { CallIsMade (Wait millis) (Self.seen self.old) (Self.seen self.new) }
        ensures count { (Self.seen self.new).failed_calls ≡ (Self.seen self.old).failed_calls };
}
