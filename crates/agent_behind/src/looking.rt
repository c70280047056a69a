//! Lookups go out, each of an entry that the scout finds.
ghost use Rattle.std.specs.Prelude.{◌≡◌, ◌<◌, ◌≤◌, ◌+◌, ◌-◌, OnErr, OnOk, length};
ghost use Rattle.vault_asking.specs.Sending.{GoesOut};
ghost use Rattle.agent_behind.specs.Lookups.{AreLookedUp, IsLookedUp, look_at, side};
ghost use Rattle.watch_machine.specs.Clocks.{second_of_wall};

use agent_turns::{AgentAt, moment_of};
use std::alloc::{AllocError, Global};
use vault_asking::{SeenLanes, ask_for};
use vault_lanes::Lanes;
use watch_machine::{Operation, Patience, WatchReply, WatchRequest};
use watch_scout::Scout;

/// Looks up the entries that the scout finds from an index on, `most` of them at most.
#[tactic(auto, using(crate::proofs::Lookups::none_more, crate::proofs::Lookups::none_found, crate::proofs::Lookups::one_found, crate::proofs::Lookups::as_many_found))]
pub(crate) fn look_from<L: Lanes>(
    alloc: Global,
    scout: &mut Scout,
    lanes: &mut L,
    at: AgentAt<'_>,
    from: u32,
    most: u32,
)
    requires count { length scout.old.seen ≡ length at.agent.now.machine.forest.entries }
    requires free { most ≤ L.width lanes.old - length (L.out lanes.old) }
    ensures count { length scout.new.seen ≡ length at.entry.agent.now.machine.forest.entries }
    ensures looked { AreLookedUp (L.host_port lanes.old) at.entry.agent.now at.entry.now most from (side scout.old (⟦<L as SeenLanes>⟧.seen lanes.old)) (side scout.new (⟦<L as SeenLanes>⟧.seen lanes.new)) }
    ensures width { L.width lanes.new ≡ L.width lanes.old }
    ensures port { L.host_port lanes.new ≡ L.host_port lanes.old }
{
    if most == 0 {
        return;
    }
    let Some(entry) = scout.look(at.agent.watch(), from) else {
        return;
    };
    look_up(alloc, scout, lanes, at, entry);
    look_from(alloc, scout, lanes, at, entry, most - 1);
}

/// Looks up an entry that the scout has found: its lookup goes out on a free lane. Where memory is wanting for it, the scout takes it for
/// lost.
#[tactic(auto, using(crate::proofs::Lookups::sent_one, crate::proofs::Lookups::unsent_one, crate::proofs::Lookups::as_many_freed, crate::proofs::Lookups::one_more_out))]
fn look_up<L: Lanes>(alloc: Global, scout: &mut Scout, lanes: &mut L, at: AgentAt<'_>, entry: u32)
    requires within { entry < length at.agent.now.machine.forest.entries }
    requires count { length scout.old.seen ≡ length at.agent.now.machine.forest.entries }
    requires free { length (L.out lanes.old) < L.width lanes.old }
    ensures looked { IsLookedUp (L.host_port lanes.old) at.entry.agent.now at.entry.now entry (side scout.old (⟦<L as SeenLanes>⟧.seen lanes.old)) (side scout.new (⟦<L as SeenLanes>⟧.seen lanes.new)) }
    ensures count { length scout.new.seen ≡ length scout.old.seen }
    ensures few { length (L.out lanes.new) ≤ length (L.out lanes.old) + 1 }
    ensures width { L.width lanes.new ≡ L.width lanes.old }
    ensures port { L.host_port lanes.new ≡ L.host_port lanes.old }
{
    match send(alloc, lanes, at, entry) {
        Ok(()) => {}
        Err(AllocError) => {
            let _dropped = scout.answer(at.agent.watch(), entry, WatchReply::Lost);
        }
    }
}

/// Sends the lookup of an entry. The only error is out of memory: then no lane was taken.
fn send<L: Lanes>(
    alloc: Global,
    lanes: &mut L,
    at: AgentAt<'_>,
    entry: u32,
) -> Result<(), AllocError>
    requires within { entry < length at.agent.now.machine.forest.entries }
    requires free { length (L.out lanes.old) < L.width lanes.old }
    ensures sent { OnOk result (GoesOut (L.host_port lanes.old) at.entry.agent.now.inventory at.entry.agent.now.machine (second_of_wall at.entry.now.wall) at.entry.now.elapsed (look_at entry) (⟦<L as SeenLanes>⟧.seen lanes.old) (⟦<L as SeenLanes>⟧.seen lanes.new)) }
    ensures kept { OnErr result (L.out lanes.new ≡ L.out lanes.old) }
    ensures seconds { L.seconds lanes.new ≡ L.seconds lanes.old }
    ensures width { L.width lanes.new ≡ L.width lanes.old }
    ensures port { L.host_port lanes.new ≡ L.host_port lanes.old }
{
    let request = look_at(entry);
    let ask = ask_for(
        alloc,
        lanes.port(),
        at.agent.inventory(),
        at.agent.watch(),
        request,
    )?;
    lanes.send(alloc, moment_of(at.now.wall), at.now.elapsed, &ask)
}

/// The lookup of an entry, which may take as long as any request.
fn look_at(entry: u32) -> WatchRequest
    ensures { result ≡ look_at entry }
{
    WatchRequest {
        entry,
        operation: Operation::Look,
        patience: Patience::Full,
    }
}
