//! A state folder is opened that could not be used, and the needs that were given meanwhile are recorded in it.
ghost use Rattle.std.specs.Prelude.{◌≡◌, IfOk, OnErr, OnOk, is_some};
ghost use Rattle.std.specs.List.{position};
ghost use Rattle.state_changes.specs.Rows.{named};
ghost use Rattle.agent_ledger.specs.Openings.{LeavesOut, RecordsNeed, RecordsNeeds, TakesNeed, gone_text, is_need_of, noted};

use crate::keeping::{KeepNews, Keeping};
use agent_words::{About, SaidLine};
use base_log::Level;
use base_moment::{Name, Text};
use state_changes::ChangeKind;
use std::alloc::{AllocError, Global};
use vault_inventory::Need;

/// What opens a state folder that cannot be used so far.
pub trait Opening<K> {
    /// What keeps changes in it from now on, where it can be used; otherwise all that was opened of it is closed again. `now` is in
    /// milliseconds of the clock that never steps.
    fn open(&mut self, alloc: Global, now: u64) -> Option<OpenedLedger<K>>;
}

/// What keeps changes in a state folder that was opened, and what is to be said of that.
#[derive(Drop)]
pub struct OpenedLedger<K> {
    pub keeper: K,
    pub news: KeepNews,
}

/// A need that was given while no change was kept.
#[derive(Debug, Drop)]
pub struct NeedMeanwhile {
    /// The name of its entry.
    pub name: Name,
    pub need: Need,
}

/// Keeps a need in mind, in place of the one of its entry that was given before. The only error is lack of memory: those before are kept in
/// mind still.
#[tactic(auto, using(crate::proofs::Recording::need_within))]
pub(crate) fn note(needs: &mut Vec<NeedMeanwhile>, given: NeedMeanwhile) -> Result<(), AllocError>
    ensures noted { OnOk result (needs.new.items ≡ noted given needs.old.items) }
    ensures kept { OnErr result (needs.new.items ≡ needs.old.items) }
{
    match place_of(needs, given.name.list()) {
        Some(at) => {
            needs[at] = given;
            Ok(())
        }
        None => match needs.push(given) {
            Ok(()) => Ok(()),
            Err(_) => Err(AllocError),
        },
    }
}

// The place of the need of the entry of that name.
fn place_of(needs: &[NeedMeanwhile], name: &[u8]) -> Option<usize>
    ensures { result ≡ position (is_need_of name.now) needs.now }
{
    needs.iter().position(|given| given.name.list() == name)
}

impl<K: Keeping> OpenedLedger<K> {
    /// Makes each of these needs hold over a restart, one after another, until one cannot be kept. Whether all of them hold; but for those
    /// whose entry is there no more, which is to be said.
    #[tactic(auto, using(crate::proofs::Recording::so_begins, crate::proofs::Recording::so_goes_on, crate::proofs::Recording::so_stops, crate::proofs::Recording::so_ends))]
    pub(crate) fn record_needs(&mut self, alloc: Global, now: u64, needs: &[NeedMeanwhile]) -> bool
        ensures { RecordsNeeds K.does K.rows now needs.now result self.old self.new }
    {
        for given in needs {
            if !self.record_need(alloc, now, given) {
                return false;
            }
        }
        true
    }

    // The same of one of them.
    fn record_need(&mut self, alloc: Global, now: u64, given: &NeedMeanwhile) -> bool
        ensures { RecordsNeed K.does K.rows now given.now result self.old self.new }
    {
        if self.is_there(given.name.list()) {
            self.take_need(alloc, now, given)
        } else {
            self.leave_out(alloc, given.name.list())
        }
    }

    fn is_there(&self, name: &[u8]) -> bool
        ensures { result ≡ is_some (named (K.rows self.now.keeper) name.now) }
    {
        self.keeper.named(name).is_some()
    }

    fn take_need(&mut self, alloc: Global, now: u64, given: &NeedMeanwhile) -> bool
        ensures { TakesNeed K.does K.rows now given.now result self.old self.new }
    {
        match self.keeper.take(alloc, now, given.name.list(), ChangeKind::Need(given.need)) {
            Ok(()) => true,
            Err(_why) => false,
        }
    }

    // Says that an entry of that name is there no more. Whether memory sufficed for that.
    fn leave_out(&mut self, alloc: Global, name: &[u8]) -> bool
        ensures { LeavesOut name.now result self.old self.new }
    {
        let Ok(text) = gone_text(alloc, name) else {
            return false;
        };
        let line = SaidLine {
            level: Level::Alert,
            about: About::Folder,
            text,
        };
        match self.news.said.push(line) {
            Ok(()) => true,
            Err(_) => false,
        }
    }
}

// That an entry of that name has lost its need. The only error is lack of memory.
fn gone_text(alloc: Global, name: &[u8]) -> Result<Text, AllocError>
    ensures { IfOk result (λ text. text ≡ gone_text name.now) }
{
    let mut text = Vec::from_slice(alloc, b"has no need of ")?;
    text.extend_from_slice(name)?;
    text.extend_from_slice(b": no entry has that name")?;
    Ok(Text::from_vec(text))
}
