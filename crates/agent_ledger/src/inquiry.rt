//! The credential that a client's change brings is looked up before it is taken, over a lane of its own, where there is one.
ghost use Rattle.std.specs.Prelude.{◌≡◌, IfSome, is_some};
ghost use Rattle.vault_proving.specs.Lookups.{IsCandidate};
ghost use Rattle.agent_ledger.specs.Inquiries.{AsksAbout, ProvesOn, asked_in};

use crate::keeping::LookedUp;
use agent_words::second_of;
use base_clock::Reading;
use std::alloc::{AllocError, Global};
use vault_asking::SeenLanes;
use vault_lanes::Lanes;
use vault_proving::{Candidate, Proving, Verdict};

/// Looks this credential up, where there is one, and where it can be. It waits for nothing. The only error is lack of memory.
pub(crate) fn ask<L: Lanes>(
    alloc: Global,
    proving: &mut Option<Proving<L>>,
    now: Reading,
    candidate: Option<Candidate>,
) -> Result<LookedUp, AllocError>
    requires { IfSome candidate IsCandidate }
    ensures { AsksAbout ⟦<L as SeenLanes>⟧.seen L.host_port now candidate result proving.old proving.new }
{
    let Some(candidate) = candidate else {
        return Ok(LookedUp::Nothing);
    };
    let Some(proving) = proving else {
        return Ok(LookedUp::Nothing);
    };
    if proving.is_asking() {
        return Ok(LookedUp::Later);
    }
    proving.ask(alloc, second_of(now.wall), now.elapsed, candidate)?;
    Ok(LookedUp::Out)
}

/// Whether a credential is looked up.
pub(crate) fn is_asking<L: Lanes>(proving: &Option<Proving<L>>) -> bool
    ensures { result ≡ is_some (asked_in proving.now) }
{
    match proving {
        None => false,
        Some(proving) => proving.is_asking(),
    }
}

/// The broker's word, once it is there. It waits for nothing. The only error is lack of memory: nothing is looked up any more then.
pub(crate) fn hear<L: Lanes>(
    alloc: Global,
    proving: &mut Option<Proving<L>>,
    now: u64,
) -> Result<Option<Verdict>, AllocError>
    ensures { ProvesOn ⟦<L as SeenLanes>⟧.seen now result proving.old proving.new }
{
    match proving {
        None => Ok(None),
        Some(proving) => proving.go_on(alloc, now),
    }
}
