//! For how long the log may be left alone.
ghost use Rattle.std.specs.Prelude.{◌≡◌};
ghost use Rattle.agent_log.specs.Wants.{is_over, log_rest, rest_if};

use crate::desk::Desk;
use crate::mark::Want;
use base_clock::TRY_AGAIN;

impl Desk {
    /// For how long the log may be left alone, in milliseconds: for a second while lines wait for its reader, of whom nothing tells, or a
    /// lack of memory goes on; and else as long as may be, which is `None`.
    pub fn rest(&self) -> Option<u64>
        ensures { result ≡ log_rest self.now }
    {
        rest_if(is_over(self.want), self.room.log.waiting().len())
    }
}

fn rest_if(is_over: bool, waiting: usize) -> Option<u64>
    ensures { result ≡ rest_if is_over waiting }
{
    if is_over && waiting == 0 {
        None
    } else {
        Some(TRY_AGAIN)
    }
}

fn is_over(want: Want) -> bool
    ensures { result ≡ is_over want }
{
    match want {
        Want::Over => true,
        Want::Unsaid | Want::Said | Want::Passing => false,
    }
}
