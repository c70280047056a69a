ghost use Rattle.std.specs.Prelude.{◌≡◌, ◌≤◌};
ghost use Rattle.watch_machine.specs.Clocks.{sec};

use watch_machine::{Millis, Seconds};

/// The second of a moment in milliseconds.
#[tactic(auto, unfolding(watch_machine::specs::Clocks::sec))]
pub(crate) fn second(ms: Millis) -> Seconds
    ensures value { result ≡ sec ms }
    ensures most { result ≤ 18446744073709551 }
{
    ms / 1000
}
