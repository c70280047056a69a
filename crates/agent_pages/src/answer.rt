//! What is sent.
ghost use Rattle.std.specs.Prelude.{◌≡◌, IfOk};
ghost use Rattle.agent_pages.specs.Answers.{IsAnswer, sent_to, whole_answer};

use crate::asked::{Method, Question};
use crate::board::Board;
use crate::shown::{Code, Shown, bare, shown_to};
use base_moment::Text;
use std::alloc::{AllocError, Global};

/// What is sent to an onlooker: the head, and then the body. The connection is closed after it.
#[derive(Debug, Drop)]
pub struct OnlookerAnswer {
    pub head: Text,
    pub body: Text,
}

/// What answers a question, from what a board shows alone.
///
/// `GET` and `HEAD` of `/metrics`, `/health` and `/status` are answered with 200, and a health that is not good with 503; `HEAD` gets the
/// head alone, which is the same. Any other path is 404, another method of these three 405, bytes that are no head 400, and a head that is
/// too long 431. The only error is out of memory.
#[tactic(auto, unfolding(crate::specs::Answers::IsAnswer))]
pub fn answer_to(
    alloc: Global,
    board: &Board,
    question: Question,
) -> Result<OnlookerAnswer, AllocError>
    ensures { IfOk result (λ answer. IsAnswer board.now question answer) }
{
    match question {
        Question::Read(method, page) => {
            let shown = shown_to(alloc, board, method, page)?;
            sent_to(alloc, method, shown)
        }
        Question::Unread => whole(alloc, bare(alloc, Code::BadRequest)?),
        Question::TooLong => whole(alloc, bare(alloc, Code::HeadTooLong)?),
    }
}

/// The head and the body, to `HEAD` the head alone.
fn sent_to(alloc: Global, method: Method, shown: Shown) -> Result<OnlookerAnswer, AllocError>
    ensures { IfOk result (λ answer. answer ≡ sent_to method shown) }
{
    match method {
        Method::Get | Method::Other => whole(alloc, shown),
        Method::Head => Ok(OnlookerAnswer {
            head: shown.head(alloc)?,
            body: Text::from_vec(Vec::new(alloc)),
        }),
    }
}

/// The head and the body.
fn whole(alloc: Global, shown: Shown) -> Result<OnlookerAnswer, AllocError>
    ensures { IfOk result (λ answer. answer ≡ whole_answer shown) }
{
    let head = shown.head(alloc)?;
    Ok(OnlookerAnswer {
        head,
        body: shown.body,
    })
}
