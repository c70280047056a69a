//! When all has come of an onlooker that is needed.
ghost use Rattle.std.specs.Prelude.{◌≡◌};
ghost use Rattle.agent_answers.specs.Onlooking.{TellsHead, is_whole, question_of};

use agent_pages::{AskedPage, Question, read_question};
use base_clients::Framing;

/// A request of an onlooker is whole once there is a head, or none can follow.
#[derive(Clone, Copy, Debug, PartialEq, Eq)]
pub struct Heads;

impl Framing for Heads {
    ghost tells = { λ _ bytes whole. TellsHead bytes whole };

    fn is_whole(&self, bytes: &[u8]) -> bool {
        is_whole(read_question(bytes))
    }
}

fn is_whole(asked: AskedPage) -> bool
    ensures { result ≡ is_whole asked }
{
    match asked {
        AskedPage::Open => false,
        AskedPage::Whole(_) => true,
    }
}

/// What is answered where no more comes.
pub(crate) fn question_of(asked: AskedPage) -> Question
    ensures { result ≡ question_of asked }
{
    match asked {
        AskedPage::Open => Question::Unread,
        AskedPage::Whole(question) => question,
    }
}
