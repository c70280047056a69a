//! What an onlooker is sent.
ghost use Rattle.std.specs.Prelude.{◌≡◌, IfOk};
ghost use Rattle.agent_answers.specs.Onlooking.{OnlookerIsSent, bytes_of};
ghost use Rattle.agent_pages.specs.Naming.{beside};

use crate::heads::question_of;
use agent_pages::{OnlookerAnswer, Surroundings, answer_to, board_of, read_question};
use agent_standing::Agent;
use state_changes::Row;
use std::alloc::{AllocError, Global};

/// What is sent to an onlooker that has sent these bytes. The only error is out of memory.
pub(crate) fn sent_to(
    alloc: Global,
    agent: &Agent,
    around: Surroundings,
    named: &[Row],
    bytes: &[u8],
) -> Result<Vec<u8>, AllocError>
    ensures { IfOk result (λ sent. OnlookerIsSent agent.now (beside around named.now) bytes.now sent.items) }
{
    let question = question_of(read_question(bytes));
    let board = board_of(alloc, agent, around, named)?;
    bytes_of(answer_to(alloc, &board, question)?)
}

/// The head, and then the body.
fn bytes_of(answer: OnlookerAnswer) -> Result<Vec<u8>, AllocError>
    ensures { IfOk result (λ sent. sent.items ≡ bytes_of answer) }
{
    let mut sent = answer.head.into_vec();
    sent.extend_from_slice(answer.body.list())?;
    Ok(sent)
}
