//! How an entry stands.
ghost use Rattle.std.specs.Prelude.{◌≡◌, ◌<◌, length};
ghost use Rattle.agent_standing.specs.Status.{alive_status, end_there, has_ended, is_gone, is_up_to, reach_in_force, status_by, status_of_entry};
ghost use Rattle.watch_machine.specs.Wanted.{is_unknown};

use crate::agent::Agent;
use crate::standing::Trouble;
use watch_machine::{End, Watch};

/// What an operator has to know of an entry, the gravest first.
#[derive(Clone, Copy, Debug, PartialEq, Eq)]
pub enum Condition {
    /// The broker does not know it, or refuses to look it up.
    Gone,
    /// Its end is past.
    Ended,
    /// It cannot be kept as long as it is needed.
    Short,
    /// The last request of it failed and is tried again, or nothing is known of it yet.
    Trying,
    /// Nothing is wrong.
    Kept,
}

/// How an entry stands. Moments are seconds by the broker's clock.
#[derive(Clone, Copy, Debug, PartialEq, Eq)]
pub struct Status {
    pub condition: Condition,
    /// Its end; `None` where it is not known, or there is none.
    pub end: Option<u64>,
    /// Until when its need can be kept, 0 where it is gone or has ended.
    pub in_force: u64,
}

impl Agent {
    /// How the entry at an index stands.
    pub fn status(&self, entry: u32) -> Status
        requires { entry < length self.now.inventory.forest.entries }
        ensures { result ≡ status_of_entry self.now entry }
    {
        let standing = self.standing(entry);
        let watch = self.watch();
        let need = watch.forest().get(entry).need;
        let end = watch.track(entry).end;
        status_by(watch, need, end, standing.trouble, standing.short)
    }
}

#[tactic(auto, unfolding(crate::specs::Status::status_by))]
fn status_by(
    watch: &Watch,
    need: u64,
    end: End,
    trouble: Option<Trouble>,
    short: Option<u64>,
) -> Status
    ensures { result ≡ status_by watch.now need end trouble short }
{
    let there = end_there(watch, end);
    if is_gone(trouble) {
        return Status {
            condition: Condition::Gone,
            end: there,
            in_force: 0,
        };
    }
    if has_ended(watch, end) {
        return Status {
            condition: Condition::Ended,
            end: there,
            in_force: 0,
        };
    }
    let trying = trouble.is_some() || is_unknown(end);
    alive_status(need, there, trying, reach_in_force(need, there, short))
}

/// How an entry stands that lives, and is known or not asked for yet.
fn alive_status(need: u64, end: Option<u64>, trying: bool, reach: Option<u64>) -> Status
    ensures { result ≡ alive_status need end trying reach }
{
    match reach {
        None => Status {
            condition: if trying {
                Condition::Trying
            } else {
                Condition::Kept
            },
            end,
            in_force: need,
        },
        Some(reach) => Status {
            condition: Condition::Short,
            end,
            in_force: reach,
        },
    }
}

/// The moment of an end by the broker's clock, where it is known.
fn end_there(watch: &Watch, end: End) -> Option<u64>
    ensures { result ≡ end_there watch.now end }
{
    match end {
        End::At(end) => Some(watch.broker_moment(end)),
        End::Unknown | End::Never => None,
    }
}

/// Whether an end is past.
#[tactic(auto, unfolding(watch_machine::specs::Clocks::sec))]
pub(crate) fn has_ended(watch: &Watch, end: End) -> bool
    ensures { result ≡ has_ended watch.now end }
{
    match end {
        End::At(end) => end <= watch.clocks().at / 1000,
        End::Unknown | End::Never => false,
    }
}

fn is_unknown(end: End) -> bool
    ensures { result ≡ is_unknown end }
{
    match end {
        End::Unknown => true,
        End::At(_) | End::Never => false,
    }
}

pub(crate) fn is_gone(trouble: Option<Trouble>) -> bool
    ensures { result ≡ is_gone trouble }
{
    match trouble {
        Some(Trouble::Gone) => true,
        Some(Trouble::Lost | Trouble::Refused) | None => false,
    }
}

/// The reach that was said last, where it is before the need and no end has shown another.
fn reach_in_force(need: u64, end: Option<u64>, short: Option<u64>) -> Option<u64>
    ensures { result ≡ reach_in_force need end short }
{
    let reach = short?;
    if reach < need && is_up_to(reach, end) {
        Some(reach)
    } else {
        None
    }
}

fn is_up_to(reach: u64, end: Option<u64>) -> bool
    ensures { result ≡ is_up_to reach end }
{
    match end {
        None => true,
        Some(end) => end.saturating_sub(1) <= reach,
    }
}
