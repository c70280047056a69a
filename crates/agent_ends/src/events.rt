ghost use Rattle.std.specs.Prelude.{◌≡◌, ◌++◌, ◌<◌, IfOk, OnOk, length};
ghost use Rattle.vault_inventory.specs.Kinds.{kind_word};
ghost use Rattle.agent_ends.specs.Ends.{end_with, ends_of, events_for, events_for_known, known_by, mark_of};

use agent_standing::{Agent, KnownEnd, Told};
use base_moment::Text;
use plan_forest::Kind;
use state_changes::fingerprint;
use std::alloc::{AllocError, Global};
use vault_inventory::Inventory;
use watch_machine::WatchEvent;

/// The ends that were told in this boot, of the entries that an agent serves, by index. The only error is lack of memory.
#[tactic(auto, unfolding(crate::specs::Ends::ends_of))]
pub fn ends_of(alloc: Global, agent: &Agent, boot: &[u8]) -> Result<Vec<KnownEnd>, AllocError>
    ensures { IfOk result (λ ends. ends.items ≡ ends_of agent.now boot.now) }
{
    let mut ends = Vec::new(alloc);
    for index in 0..agent.inventory().forest().len() {
        push_told(
            alloc,
            agent.inventory(),
            boot,
            index,
            agent.standing(index).told,
            &mut ends,
        )?;
    }
    Ok(ends)
}

// Appends the end of an entry, where one was told.
fn push_told(
    alloc: Global,
    inventory: &Inventory,
    boot: &[u8],
    index: u32,
    told: Option<Told>,
    ends: &mut Vec<KnownEnd>,
) -> Result<(), AllocError>
    requires { index < length inventory.now.forest.entries }
    ensures { OnOk result (ends.new.items ≡ ends.old.items ++ end_with inventory.now boot.now index told) }
{
    let Some(told) = told else {
        return Ok(());
    };
    ends.push(KnownEnd {
        name: inventory.forest().get(index).name.clone()?,
        fingerprint: mark_of(alloc, inventory, index)?,
        boot: Text::of(alloc, boot)?,
        told,
    })?;
    Ok(())
}

// What the credential of an entry is known by.
fn mark_of(alloc: Global, inventory: &Inventory, index: u32) -> Result<Text, AllocError>
    requires { index < length inventory.now.forest.entries }
    ensures { IfOk result (λ mark. mark ≡ mark_of inventory.now index) }
{
    let kind = inventory.forest().get(index).kind;
    known_by(alloc, kind, inventory.credential(index))
}

// What a credential is known by: the fingerprint of its kind and itself.
#[tactic(auto, unfolding(crate::specs::Ends::known_by))]
fn known_by(alloc: Global, kind: Kind, credential: &[u8]) -> Result<Text, AllocError>
    ensures { IfOk result (λ mark. mark ≡ known_by kind credential.now) }
{
    let mut text = Vec::from_slice(alloc, kind_word(kind))?;
    text.push(b' ')?;
    text.extend_from_slice(credential)?;
    fingerprint(alloc, &text)
}

fn kind_word(kind: Kind) -> &'static [u8]
    ensures { result.now ≡ kind_word kind }
{
    match kind {
        Kind::Token => b"token",
        Kind::Lease => b"lease",
    }
}

/// The events that hand these ends to a Watch over this inventory: of each entry of which one was told, where its name, its kind and its
/// credential are as they were then. The only error is lack of memory.
#[tactic(auto, using(crate::proofs::Gathered::events_none, crate::proofs::Gathered::events_more, crate::proofs::Gathered::events_all))]
pub fn known_events(
    alloc: Global,
    inventory: &Inventory,
    ends: &[KnownEnd],
) -> Result<Vec<WatchEvent>, AllocError>
    ensures { IfOk result (λ events. events.items ≡ events_for inventory.now ends.now) }
{
    let mut events = Vec::new(alloc);
    for end in ends {
        push_event(alloc, inventory, end, &mut events)?;
    }
    Ok(events)
}

// Appends the event of an end, where its entry is there still.
fn push_event(
    alloc: Global,
    inventory: &Inventory,
    end: &KnownEnd,
    events: &mut Vec<WatchEvent>,
) -> Result<(), AllocError>
    ensures { OnOk result (events.new.items ≡ events.old.items ++ events_for_known inventory.now «end».now) }
{
    let Some(entry) = inventory.forest().find(end.name.list()) else {
        return Ok(());
    };
    let mark = mark_of(alloc, inventory, entry)?;
    if mark.list() == end.fingerprint.list() {
        events.push(WatchEvent::Known {
            entry,
            end: end.told.end,
            renewable: end.told.renewable,
        })?;
    }
    Ok(())
}
