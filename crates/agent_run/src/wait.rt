//! The agent of a start, and its wait for its part of a spread.
ghost use Rattle.std.specs.Prelude.{◌≡◌, [], IfOk, OnOk};
ghost use Rattle.agent_turns.specs.Held.{IsInStep};
ghost use Rattle.agent_run.specs.Waits.{IsResumedFrom, IsToWait, SaysWait, WaitsFor, millis_of, until_of, wait_text};

use agent_log::Desk;
use agent_turns::{Serving, Wait, may_wait};
use base_clock::Reading;
use base_log::Level;
use base_words::push_number;
use std::alloc::{AllocError, Global};
use vault_inventory::Inventory;
use vault_lanes::Lanes;
use watch_machine::WatchEvent;

/// An agent's part of a spread, which begins where it starts.
#[derive(Clone, Copy)]
pub(crate) struct Spread {
    /// When it starts.
    pub(crate) now: Reading,
    /// Its part, in seconds.
    pub(crate) part: u32,
}

/// What an agent is resumed with: its lanes to the broker, and the ends of this boot that are known.
#[derive(Drop)]
pub(crate) struct Resumption<'a, L> {
    pub(crate) lanes: &'a L,
    pub(crate) known: &'a [WatchEvent],
}

/// What serves an inventory over these lanes, of which these ends are known. The only error is lack of memory.
#[tactic(auto, using(crate::proofs::Waiting::resumed_from))]
pub(crate) fn resumed<L: Lanes>(
    alloc: Global,
    inventory: Inventory,
    with: &Resumption<'_, L>,
) -> Result<Serving, AllocError>
    requires free { L.out with.now.lanes.now ≡ [] }
    ensures resumed { IfOk result (IsResumedFrom with.now.known.now inventory (L.width with.now.lanes.now)) }
    ensures in_step { IfOk result (λ serving. IsInStep (L.width with.now.lanes.now) (L.out with.now.lanes.now) serving) }
{
    match Serving::resume(alloc, inventory, with.lanes, with.known) {
        Ok(serving) => Ok(serving),
        Err(_) => Err(AllocError),
    }
}

/// The wait of a start for this agent's part of a spread, which the log says; `None` where it has no part, or where an entry may be due by
/// then. Meanwhile what is served is shown, of which this may be a second reading; where it is none, nothing is waited for. The only error
/// is lack of memory.
#[tactic(auto, using(crate::proofs::Waiting::not_again, crate::proofs::Waiting::not_same, crate::proofs::Waiting::not_now, crate::proofs::Waiting::is_wait))]
pub(crate) fn wait_of<L: Lanes>(
    alloc: Global,
    serving: &Serving,
    again: Option<Inventory>,
    with: &Resumption<'_, L>,
    spread: Spread,
    desk: &mut Desk,
) -> Result<Option<Wait>, AllocError>
    requires free { L.out with.now.lanes.now ≡ [] }
    ensures { IfOk result (λ wait. WaitsFor with.now.known.now (L.width with.now.lanes.now) spread.now spread.part serving.now.agent again wait desk.old desk.new) }
{
    let Some(again) = again else {
        return Ok(None);
    };
    // A file that it names may have been written between the two readings.
    if !serving.agent().serves(&again) {
        return Ok(None);
    }
    if !is_to_wait(alloc, serving, spread)? {
        return Ok(None);
    }
    let shown = resumed(alloc, again, with)?;
    say_wait(alloc, spread, desk)?;
    Ok(Some(Wait {
        until: until_of(spread),
        shown,
    }))
}

/// Whether the agent has a part of a spread, and no entry may be due before it is over. The only error is lack of memory.
#[tactic(auto, using(crate::proofs::Waiting::no_part, crate::proofs::Waiting::some_part))]
fn is_to_wait(alloc: Global, serving: &Serving, spread: Spread) -> Result<bool, AllocError>
    ensures { IfOk result (IsToWait serving.now.agent spread.now spread.part) }
{
    if spread.part == 0 {
        return Ok(false);
    }
    may_wait(alloc, serving.agent(), spread.now.wall, until_of(spread))
}

/// A part of a spread, in milliseconds.
pub(crate) fn millis_of(part: u32) -> u64
    ensures { result ≡ millis_of part }
{
    u64::from(part) * 1000
}

/// When a part of a spread is over, in milliseconds of the clock that never steps.
fn until_of(spread: Spread) -> u64
    ensures { result ≡ until_of spread.now spread.part }
{
    spread.now.elapsed.saturating_add(millis_of(spread.part))
}

/// Says for how many seconds the start waits. The only error is lack of memory.
#[tactic(auto, using(crate::proofs::Waiting::says_wait))]
fn say_wait(alloc: Global, spread: Spread, desk: &mut Desk) -> Result<(), AllocError>
    ensures { OnOk result (SaysWait spread.now spread.part desk.old desk.new) }
{
    let text = wait_text(alloc, spread.part)?;
    desk.hear_at_start(alloc, spread.now, Level::Info, "start", &text);
    Ok(())
}

fn wait_text(alloc: Global, part: u32) -> Result<Vec<u8>, AllocError>
    ensures { IfOk result (λ text. text.items ≡ wait_text part) }
{
    let mut text = Vec::from_slice(alloc, b"waits for ")?;
    push_number(alloc, u64::from(part), &mut text)?;
    text.extend_from_slice(b" s: no entry is due before then")?;
    Ok(text)
}
