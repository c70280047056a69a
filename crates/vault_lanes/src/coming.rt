ghost use Rattle.std.specs.Prelude.{Some, nat_le};

use crate::loss::Loss;
use crate::seats::Standing;
use vault_http::DatedReply;

/// What comes of a request, and the moment at which it is there.
#[derive(Debug, Drop)]
pub struct Coming {
    /// The reply with its date, or why there is none.
    pub answer: Result<DatedReply, Loss>,
    /// Milliseconds of the elapsed clock.
    pub at: u64,
}

impl Standing for Coming {
    ghost comes = { λ coming. Some coming };

    ghost there = { λ moment coming. nat_le coming.at moment };

    ghost said = { λ coming. Some coming.answer };

    fn is_there(&self, moment: u64) -> bool {
        self.at <= moment
    }

    fn into_answer(self) -> Option<Result<DatedReply, Loss>> {
        Some(self.answer)
    }
}
