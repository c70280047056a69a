//! What is made of the answer to a lookup.
ghost use Rattle.std.specs.Prelude.{◌≡◌, ◌<◌, IfOk, length};
ghost use Rattle.vault_proving.specs.Verdicts.{told_verdict, verdict_of, verdict_on};

use crate::candidate::Candidate;
use std::alloc::{AllocError, Global};
use vault_asking::{Said, said_of_entry};
use vault_http::DatedReply;
use vault_lanes::Loss;
use watch_machine::{Operation, WatchReply};

/// What the broker says of a credential.
#[derive(Clone, Copy, Debug, PartialEq, Eq)]
pub enum Verdict {
    /// The broker knows it, and it ends.
    Good,
    /// The broker refuses to look it up, with status 400, 403, 404 or 405.
    Refused(u16),
    /// It is that of a token that never ends, which needs no keeping.
    Endless,
    /// The broker has said nothing of it, and why: nothing speaks against it.
    Missing(Loss),
}

/// The verdict by what an answer says.
pub fn verdict_of(said: Said) -> Verdict
    ensures { result ≡ verdict_of said }
{
    match said.reply {
        WatchReply::Told { .. } => told(said.terms.endless),
        WatchReply::Refused { status, .. } => Verdict::Refused(status),
        WatchReply::Busy | WatchReply::Lost => Verdict::Missing(said.loss),
    }
}

// The verdict on a credential that the broker knows.
fn told(is_endless: bool) -> Verdict
    ensures { result ≡ told_verdict is_endless }
{
    if is_endless {
        Verdict::Endless
    } else {
        Verdict::Good
    }
}

/// The verdict on a credential by the answer to its lookup. The only error is out of memory.
pub fn verdict_on(
    alloc: Global,
    candidate: &Candidate,
    answer: &Result<DatedReply, Loss>,
) -> Result<Verdict, AllocError>
    requires { candidate.now.entry < length candidate.now.inventory.forest.entries }
    ensures { IfOk result (λ verdict. verdict ≡ verdict_on candidate.now answer.now) }
{
    let inventory = &candidate.inventory;
    let said = said_of_entry(alloc, inventory, Operation::Look, candidate.entry, answer)?;
    Ok(verdict_of(said))
}
