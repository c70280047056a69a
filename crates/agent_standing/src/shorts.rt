//! Needs that are past what their entries reach.
ghost use Rattle.std.specs.Prelude.{◌≡◌, ◌<◌, ◌++◌, IfOk, OnErr, OnOk, length};
ghost use Rattle.std.specs.List.{All};
ghost use Rattle.agent_standing.specs.Agent.{IsStanding};
ghost use Rattle.agent_standing.specs.Shorts.{all_said, is_near, news_in, news_of_entry, notice_of, said_standing, said_standings, short_at, shorts_in, shorts_of};
ghost use Rattle.watch_machine.specs.Shortness.{is_news};

use crate::agent::Agent;
use crate::standing::EntryStanding;
use crate::status::{has_ended, is_gone};
use base_moment::LAST;
use std::alloc::{AllocError, Global};
use vault_inventory::Inventory;
use watch_machine::Watch;

/// A need that is past what its entry reaches.
#[derive(Clone, Copy, Debug, PartialEq, Eq)]
pub struct Short {
    /// The index of the entry.
    pub entry: u32,
    /// The moment that it reaches, in seconds by the broker's clock.
    pub reach: u64,
    /// Whether another program was to issue it again by now.
    pub reissued: bool,
}

impl Agent {
    /// The needs that are to be said to be past what their entries reach, by entry; they count as said from then on. A reach is said
    /// where none was, or where it differs by the margin or more from what was said last; of a need that never ends no sooner than a day
    /// before it; of an entry that is reissued, whatever its need, no sooner than its notice before; of one that is gone or has ended
    /// not at all. To be asked after each clock. The only error is out of memory, and then nothing counts as said.
    pub fn say_shorts(&mut self, alloc: Global) -> Result<Vec<Short>, AllocError>
        ensures shorts { IfOk result (λ shorts. shorts.items ≡ shorts_of self.old) }
        ensures said { OnOk result (self.new ≡ all_said self.old) }
        ensures unchanged { OnErr result (self.new ≡ self.old) }
    {
        let shorts = shorts_of(alloc, &self.watch, &self.inventory, &self.standings)?;
        say(&self.watch, &self.inventory, &shorts, &mut self.standings);
        Ok(shorts)
    }
}

/// All that is to be said, by entry. The only error is out of memory.
fn shorts_of(
    alloc: Global,
    watch: &Watch,
    inventory: &Inventory,
    standings: &[EntryStanding],
) -> Result<Vec<Short>, AllocError>
    requires count { length standings.now ≡ length watch.now.forest.entries }
    requires served { length inventory.now.forest.entries ≡ length watch.now.forest.entries }
    ensures { IfOk result (λ shorts. shorts.items ≡ shorts_in watch.now inventory.now.terms standings.now) }
{
    let mut shorts = Vec::new(alloc);
    for entry in 0..watch.forest().len() {
        let reissued = inventory.terms(entry).reissued;
        let news = news_of_entry(watch, inventory, entry, standings[entry as usize]);
        push_short(entry, reissued, news, &mut shorts)?;
    }
    Ok(shorts)
}

/// Appends the reach of an entry, where it is to be said. The only error is out of memory.
fn push_short(
    entry: u32,
    reissued: bool,
    news: Option<u64>,
    shorts: &mut Vec<Short>,
) -> Result<(), AllocError>
    ensures { OnOk result (shorts.new.items ≡ shorts.old.items ++ short_at entry reissued news) }
{
    if let Some(reach) = news {
        shorts.push(Short {
            entry,
            reach,
            reissued,
        })?;
    }
    Ok(())
}

/// All of this is said. Mostly there is nothing, and then no entry is looked at again.
#[tactic(auto, using(crate::proofs::Saying::nothing_said))]
fn say(watch: &Watch, inventory: &Inventory, shorts: &[Short], standings: &mut [EntryStanding])
    requires count { length standings.old ≡ length watch.now.forest.entries }
    requires served { length inventory.now.forest.entries ≡ length watch.now.forest.entries }
    requires bounds { All IsStanding standings.old }
    requires shorts { shorts.now ≡ shorts_in watch.now inventory.now.terms standings.old }
    ensures value { standings.new ≡ said_standings watch.now inventory.now.terms standings.old }
    ensures bounds { All IsStanding standings.new }
{
    if !shorts.is_empty() {
        say_all(watch, inventory, standings);
    }
}

/// All of it is said.
fn say_all(watch: &Watch, inventory: &Inventory, standings: &mut [EntryStanding])
    requires count { length standings.old ≡ length watch.now.forest.entries }
    requires served { length inventory.now.forest.entries ≡ length watch.now.forest.entries }
    requires bounds { All IsStanding standings.old }
    ensures value { standings.new ≡ said_standings watch.now inventory.now.terms standings.old }
    ensures bounds { All IsStanding standings.new }
{
    for entry in 0..watch.forest().len() {
        let index = entry as usize;
        standings[index] = said(watch, inventory, entry, standings[index]);
    }
}

/// The standing of an entry once its reach is said, where that is news.
#[tactic(auto, unfolding(crate::specs::Shorts::said_standing))]
fn said(watch: &Watch, inventory: &Inventory, entry: u32, standing: EntryStanding) -> EntryStanding
    requires within { entry < length watch.now.forest.entries }
    requires served { length inventory.now.forest.entries ≡ length watch.now.forest.entries }
    requires bounds { IsStanding standing }
    ensures value { result ≡ said_standing watch.now inventory.now.terms entry standing }
    ensures bounds { IsStanding result }
    ensures told { result.told ≡ standing.told }
{
    match news_of_entry(watch, inventory, entry, standing) {
        None => standing,
        Some(reach) => EntryStanding {
            short: Some(reach),
            ..standing
        },
    }
}

/// The reach of an entry that is to be said: none of one that is gone or has ended, of which that was said.
fn news_of_entry(
    watch: &Watch,
    inventory: &Inventory,
    entry: u32,
    standing: EntryStanding,
) -> Option<u64>
    requires within { entry < length watch.now.forest.entries }
    requires served { length inventory.now.forest.entries ≡ length watch.now.forest.entries }
    ensures { result ≡ news_of_entry watch.now inventory.now.terms entry standing }
{
    if is_gone(standing.trouble) || has_ended(watch, watch.track(entry).end) {
        None
    } else {
        news_in(watch, inventory, entry, standing.short)
    }
}

/// The reach of an entry that is to be said, given what was said last.
#[tactic(auto, unfolding(watch_machine::specs::Clocks::sec))]
fn news_in(watch: &Watch, inventory: &Inventory, entry: u32, last: Option<u64>) -> Option<u64>
    requires within { entry < length watch.now.forest.entries }
    requires served { length inventory.now.forest.entries ≡ length watch.now.forest.entries }
    ensures { result ≡ news_in watch.now inventory.now.terms entry last }
{
    let reach = watch.short_of(entry)?;
    let margin = u64::from(watch.forest().margin());
    let now = watch.broker_moment(watch.clocks().at / 1000);
    let served = watch.forest().get(entry);
    let reissued = inventory.terms(entry).reissued;
    let notice = notice_of(margin, u64::from(served.step));
    if is_news(margin, last, reach) && is_near(reissued, notice, now, served.need, reach) {
        Some(reach)
    } else {
        None
    }
}

/// Whether a reach is to be said: nothing was said before, or something that differs from it by the margin or more.
fn is_news(margin: u64, last: Option<u64>, reach: u64) -> bool
    ensures { result ≡ is_news margin last reach }
{
    match last {
        None => true,
        Some(last) => last.abs_diff(reach) >= margin,
    }
}

/// How long before its reach an entry has to be issued again.
///
/// Source: Vault, "Vault Agent" (templates, `lease_renewal_threshold`): what cannot be renewed is read again with a tenth of its duration
/// left. By a twentieth that is late; the twentieth is this project's own.
#[tactic(auto, unfolding(crate::specs::Shorts::notice_of))]
fn notice_of(margin: u64, step: u64) -> u64
    ensures { result ≡ notice_of margin step }
{
    margin.min(step / 20)
}

/// Whether what an entry reaches is near: of one that is reissued no more than its notice ahead; of another, where its need has no end, no
/// more than a day.
fn is_near(reissued: bool, notice: u64, now: u64, need: u64, reach: u64) -> bool
    ensures { result ≡ is_near reissued notice now need reach }
{
    if reissued {
        reach.saturating_sub(notice) <= now
    } else {
        need < LAST || reach.saturating_sub(86400) <= now
    }
}
