//! What a client of the agent is told.
ghost use Rattle.std.specs.Prelude.{◌≡◌, IfOk};
ghost use Rattle.agent_pages.specs.Answers.{IsTold};

use crate::asked::Page;
use crate::board::Board;
use crate::lines::standing_text;
use crate::shown::page_of_board;
use std::alloc::{AllocError, Global};

/// What a client is told of a board: the status as lines for people, with dates in UTC, and any other page as onlookers are shown it.
/// The only error is out of memory.
#[tactic(auto, unfolding(crate::specs::Answers::IsTold))]
pub fn told_of(alloc: Global, board: &Board, page: Page) -> Result<Vec<u8>, AllocError>
    ensures { IfOk result (λ text. IsTold board.now page text.items) }
{
    match page {
        Page::Listing => standing_text(alloc, board),
        Page::Metrics(_) | Page::Health | Page::Nowhere => {
            Ok(page_of_board(alloc, board, page)?.body.into_vec())
        }
    }
}
