ghost use Rattle.std.specs.Prelude.{◌≡◌, ℕ, ◌+◌, ◌<◌, ◌≤◌, ◌⊎◌, ◌↔◌, length, Some, IsTrue};
ghost use Rattle.base_moment.specs.declared.moment.TheConstants.{LAST};
ghost use Rattle.plan_schedule.specs.code.Groups.{IsGrouped, IsHeadOfJoined, Joins, StandsWaiting};
ghost use Rattle.plan_schedule.specs.Prospect.{terms_of};
ghost use Rattle.plan_schedule.specs.code.Stretches.{IsOtherEntry, Stretches};
ghost use Rattle.plan_schedule.specs.code.Sound.{TermsAreSound};
ghost use Rattle.plan_schedule.specs.Terms.{Leads};

use crate::groups::{Groups, Next, settle};
use crate::outlook::Outlook;

/// Wake-ups of one entry after a first one: how many, the moment of the last, and what forces the next.
#[derive(Clone, Copy)]
pub(crate) struct Stretch {
    pub(crate) more: u64,
    pub(crate) last: u64,
    pub(crate) next: Next,
}

/// Takes the wake-ups of `entry` after one at `first`, as long as it forces them, and together with that at most `most`.
pub(crate) fn extend(
    outlook: &Outlook,
    groups: &mut Groups,
    entry: u32,
    first: u64,
    most: u64,
) -> Stretch
    requires grouped { IsGrouped outlook.now (Some first) groups.old }
    requires entry { entry < length outlook.now.loads }
    requires short { (terms_of outlook.now).end entry < (terms_of outlook.now).need entry }
    requires moment { first ≤ LAST }
    requires most { 1 ≤ most }
    ensures taken { Stretches outlook.now entry first most groups.old groups.new result.more result.last result.next }
    ensures sound { TermsAreSound (terms_of outlook.now) }
    ensures ended { (result.more + 1 ≡ most) ⊎ IsOtherEntry entry result.next }
{
    let apart = outlook.step(entry) - outlook.margin();
    let mut more = 0;
    let mut last = first;
    let mut next = settle(outlook, groups, last);
    while more + 1 < most && is_head(next, entry) {
        let until = until(outlook, groups, entry, last);
        let count = ((until - last - 1) / apart + 1).min(most - 1 - more);
        more += count;
        last += count * apart;
        next = settle(outlook, groups, last);
    }
    Stretch { more, last, next }
}

/// Whether this entry forces the next wake-up, as one that has joined.
fn is_head(next: Next, entry: u32) -> bool
    ensures { IsTrue result ↔ (next ≡ Next.Joined entry) }
{
    match next {
        Next::Joined(head) => head == entry,
        Next::Waiting(_) => false,
        Next::Done => false,
    }
}

/// Before when `entry`, which forces the wake-up after the one at `last`, goes on to do so, as far as the groups tell.
fn until(outlook: &Outlook, groups: &Groups, entry: u32, last: u64) -> u64
    requires grouped { IsGrouped outlook.now (Some last) groups.now }
    requires head { IsHeadOfJoined (terms_of outlook.now) last (StandsWaiting (terms_of outlook.now) groups.now) (Joins (terms_of outlook.now) groups.now) entry }
    requires entry { entry < length outlook.now.loads }
    ensures later { last < result }
    ensures leads { (v : ℕ) → last ≤ v → v < result → Leads (terms_of outlook.now) (Some v) entry }
    ensures moment { result ≤ LAST }
{
    let step = outlook.step(entry);
    let gone = outlook.need(entry) - step;
    match groups.waits.first() {
        None => gone,
        Some(front) => {
            let over = outlook.end(front) - step;
            gone.min(if entry <= front { over + 1 } else { over })
        }
    }
}
