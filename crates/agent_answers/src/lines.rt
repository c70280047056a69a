//! When all has come of a client that is needed.
ghost use Rattle.std.specs.Prelude.{◌≡◌};
ghost use Rattle.agent_answers.specs.Wanting.{TellsRequestLine, is_front_over};

use agent_control::{Front, front_of};
use base_clients::Framing;

/// A request of a client is whole once its line has ended, or is too long.
#[derive(Clone, Copy, Debug, PartialEq, Eq)]
pub struct RequestLines;

impl Framing for RequestLines {
    ghost tells = { λ _ bytes whole. TellsRequestLine bytes whole };

    fn is_whole(&self, bytes: &[u8]) -> bool {
        is_over(front_of(bytes))
    }
}

fn is_over(front: Front) -> bool
    ensures { result ≡ is_front_over front }
{
    match front {
        Front::Open => false,
        Front::Whole(_) | Front::TooLong => true,
    }
}
