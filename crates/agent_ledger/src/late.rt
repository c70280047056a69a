//! A ledger that comes later, where its state folder cannot be used at the start.
ghost use Rattle.std.specs.Prelude.{◌≡◌, None, OnErr, OnOk, IfNone, IfSome, Some, option_map};
ghost use Rattle.state_changes.specs.Rows.{named};
ghost use Rattle.agent_ledger.specs.Lates.{IsUntold, LaidOpen, OpensOnce, TakesShut, TriesOnce, TriesShut, is_due, shut_rows};
ghost use Rattle.agent_ledger.specs.Openings.{noted};
ghost use Rattle.agent_ledger.specs.declared.late.Late.TheVariants.{Open, NotYet};

use crate::asker::Asker;
use crate::keeping::{FileLook, KeepNews, Keeping, LookedUp};
use crate::ledger::{Ledger, one_why};
use crate::opening::{NeedMeanwhile, OpenedLedger, Opening, note};
use crate::secret_changes::quiet;
use agent_words::{Reread, why_not_kept};
use base_clock::{Reading, rest_until};
use base_disk::Disk;
use base_files::Inputs;
use base_moment::{Name, Text};
use state_changes::{ChangeKind, Row, Rows};
use state_secrets::SecretFiles;
use std::alloc::{AllocError, Global};
use std::mem;
use vault_asking::SeenLanes;
use vault_inventory::{Inventory, Need};
use vault_lanes::Lanes;
use vault_proving::{Proving, Verdict};

/// A state folder that cannot be used is tried again after so long, in milliseconds.
pub const TRY_FOLDER: u64 = 10_000;

/// What is there as long as a state folder cannot be used: no change is kept, but the needs that are given are kept in mind.
#[derive(Drop)]
pub struct Shut<F, L: Lanes> {
    /// What opens it.
    pub opening: F,
    /// Over which the credentials of clients' changes are to be looked up then, where that is done.
    pub proving: Option<Proving<L>>,
    /// Over which those of files are; none, where that is not done.
    pub askers: Vec<Asker<L>>,
    /// From when on it is tried again, in milliseconds of the clock that never steps.
    pub next: u64,
    /// The needs that were given so far, the last one of each entry.
    pub needs: Vec<NeedMeanwhile>,
    /// The entries that the file named at the start, where some of them are not served.
    pub read: Option<Rows>,
}

/// A ledger; or what is there until its state folder can be used.
#[derive(Drop)]
pub enum Late<'a, D: Disk, I, L: Lanes, F> {
    Open(Ledger<'a, D, I, L>),
    NotYet(Shut<F, L>),
}

impl<F, L: Lanes> Shut<F, L> {
    // A need is kept in mind; no other change is.
    fn take(&mut self, alloc: Global, name: &[u8], what: ChangeKind) -> Result<(), Option<Text>>
        ensures { TakesShut name.now what result self.old self.new }
    {
        match &what {
            ChangeKind::Need(need) => match self.take_need(alloc, name, *need) {
                Ok(()) => Ok(()),
                Err(AllocError) => Err(None),
            },
            ChangeKind::Replace(_) | ChangeKind::Add(_) | ChangeKind::Drop => Err(why_not_kept(
                alloc,
            )),
        }
    }

    fn take_need(&mut self, alloc: Global, name: &[u8], need: Need) -> Result<(), AllocError>
        ensures noted { OnOk result (self.new.needs.items ≡ noted (record { name = name.now; need = need }) self.old.needs.items) }
        ensures kept { OnErr result (self.new.needs.items ≡ self.old.needs.items) }
        ensures rest { self.new ≡ record self.old { needs = self.new.needs } }
    {
        let name = Name::of(alloc, name)?;
        note(&mut self.needs, NeedMeanwhile { name, need })
    }

    // The entries that the file named at the start.
    fn rows(&self) -> &[Row]
        ensures { result.now ≡ shut_rows self.now.read }
    {
        match &self.read {
            None => &[],
            Some(read) => read.list(),
        }
    }

    // The one of that name.
    fn named(&self, name: &[u8]) -> Option<&Row>
        ensures { option_map (λ row. row.now) result ≡ named (shut_rows self.now.read) name.now }
    {
        match &self.read {
            None => None,
            Some(read) => read.named(name),
        }
    }

    // Whether the folder is to be tried.
    fn is_due(&self, now: u64, is_asked: bool) -> bool
        ensures { result ≡ is_due now is_asked self.now }
    {
        is_asked || self.next <= now
    }
}

impl<F, L: Lanes + Drop> Shut<F, L> {
    // A ledger has the lanes that wait for it, and what it has waits to be served from now on.
    fn lay_open<'a, D: Disk, I>(
        &mut self,
        alloc: Global,
        now: u64,
        ledger: Ledger<'a, D, I, L>,
    ) -> Ledger<'a, D, I, L>
        ensures { LaidOpen now self.old ledger.entry result }
    {
        let mut ledger = ledger;
        ledger.proving = mem::replace(&mut self.proving, None);
        ledger.askers = mem::replace(&mut self.askers, Vec::new(alloc));
        ledger.state.mark_changed(now);
        ledger
    }
}

// What keeps changes from now on, once the needs are recorded in it that were given meanwhile.
fn open<K: Keeping + Drop, F: Opening<K>, L: Lanes>(
    alloc: Global,
    now: u64,
    shut: &mut Shut<F, L>,
) -> Option<OpenedLedger<K>>
    ensures { OpensOnce K.does K.rows now result shut.old shut.new }
{
    shut.next = now.saturating_add(TRY_FOLDER);
    let mut opened = shut.opening.open(alloc, now)?;
    if opened.record_needs(alloc, now, &shut.needs) {
        Some(opened)
    } else {
        None
    }
}

impl<'a, D, I, L, F> Late<'a, D, I, L, F>
where
    D: Disk + Drop,
    I: Inputs + SecretFiles + Drop,
    L: Lanes + Drop,
    F: Opening<Ledger<'a, D, I, L>> + Drop,
{
    // Tries the folder, where it is time for that, and is the ledger that was opened from then on.
    fn try_once(&mut self, alloc: Global, now: u64, is_asked: bool) -> Option<KeepNews>
        ensures { TriesOnce D.is_known D.state I.calls ⟦<L as SeenLanes>⟧.seen L.host_port now is_asked result self.old self.new }
    {
        match self {
            Late::Open(_) => None,
            Late::NotYet(shut) => match try_shut(alloc, now, is_asked, shut) {
                None => None,
                Some(opened) => {
                    let OpenedLedger { keeper, news } = opened;
                    *self = Late::Open(keeper);
                    Some(news)
                }
            },
        }
    }
}

// The ledger, where the folder is tried and can be used.
fn try_shut<'a, D, I, L, F>(
    alloc: Global,
    now: u64,
    is_asked: bool,
    shut: &mut Shut<F, L>,
) -> Option<OpenedLedger<Ledger<'a, D, I, L>>>
where
    D: Disk + Drop,
    I: Inputs + SecretFiles + Drop,
    L: Lanes + Drop,
    F: Opening<Ledger<'a, D, I, L>> + Drop,
    ensures opens { IfSome result (λ opened. TriesShut D.is_known D.state I.calls ⟦<L as SeenLanes>⟧.seen L.host_port now is_asked (Some opened.news) shut.old (Open opened.keeper)) }
    ensures stays { IfNone result (TriesShut D.is_known D.state I.calls ⟦<L as SeenLanes>⟧.seen L.host_port now is_asked None shut.old (NotYet shut.new)) }
{
    if !shut.is_due(now, is_asked) {
        return None;
    }
    let opened = open(alloc, now, shut)?;
    let OpenedLedger { keeper, news } = opened;
    Some(OpenedLedger {
        keeper: shut.lay_open(alloc, now, keeper),
        news,
    })
}

// Why nothing is kept, in a line of its own.
#[tactic(auto, using(crate::proofs::Recording::untold_so))]
fn untold(alloc: Global) -> Vec<Text>
    ensures { IsUntold result.items }
{
    one_why(alloc, why_not_kept(alloc))
}

impl<'a, D, I, L, F> Keeping for Late<'a, D, I, L, F>
where
    D: Disk + Drop,
    I: Inputs + SecretFiles + Drop,
    L: Lanes + Drop,
    F: Opening<Ledger<'a, D, I, L>> + Drop,
{
    ghost use Rattle.agent_ledger.specs.Lates.{DoesLate, GivesLate, ReadsLate, is_open, late_path, late_rows};

    ghost does = { DoesLate D.is_known D.state I.calls ⟦<L as SeenLanes>⟧.seen L.host_port };

    ghost keeps = { is_open };

    ghost rows = { late_rows };

    ghost path = { late_path };

    ghost reads = { ReadsLate };

    ghost gives = { GivesLate };

    fn keeps(&self) -> bool {
        match self {
            Late::Open(_) => true,
            Late::NotYet(_) => false,
        }
    }

    fn try_again(&mut self, alloc: Global, now: u64, is_asked: bool) -> Option<KeepNews> {
        self.try_once(alloc, now, is_asked)
    }

    fn take(
        &mut self,
        alloc: Global,
        now: u64,
        name: &[u8],
        what: ChangeKind,
    ) -> Result<(), Option<Text>> {
        match self {
            Late::Open(ledger) => ledger.take(alloc, now, name, what),
            Late::NotYet(shut) => shut.take(alloc, name, what),
        }
    }

    fn look_up(
        &mut self,
        alloc: Global,
        now: Reading,
        name: &[u8],
        what: &ChangeKind,
    ) -> Result<LookedUp, AllocError> {
        match self {
            Late::Open(ledger) => ledger.look_up(alloc, now, name, what),
            Late::NotYet(_) => Ok(LookedUp::Nothing),
        }
    }

    fn prove(&mut self, alloc: Global, now: u64) -> Result<Option<Verdict>, AllocError> {
        match self {
            Late::Open(ledger) => ledger.prove(alloc, now),
            Late::NotYet(_) => Ok(None),
        }
    }

    fn settle(&mut self, alloc: Global) -> Result<(), Option<Text>> {
        match self {
            Late::Open(ledger) => ledger.settle(alloc),
            Late::NotYet(_) => Err(why_not_kept(alloc)),
        }
    }

    fn reload(&mut self, alloc: Global, now: u64) -> Result<Reread, Vec<Text>> {
        match self {
            Late::Open(ledger) => ledger.reload(alloc, now),
            Late::NotYet(_) => Err(untold(alloc)),
        }
    }

    fn read_row(&self, alloc: Global, table: &[u8]) -> Result<Row, Option<Text>> {
        match self {
            Late::Open(ledger) => ledger.read_row(alloc, table),
            Late::NotYet(_) => Err(why_not_kept(alloc)),
        }
    }

    fn due(&self, alloc: Global, now: u64) -> Result<Option<Inventory>, AllocError> {
        match self {
            Late::Open(ledger) => ledger.due(alloc, now),
            Late::NotYet(_) => Ok(None),
        }
    }

    fn look(&mut self, alloc: Global, now: Reading) -> FileLook {
        match self {
            Late::Open(ledger) => ledger.look(alloc, now),
            Late::NotYet(_) => FileLook {
                looked: quiet(false),
                unproved: None,
            },
        }
    }

    fn mark_served(&mut self) {
        match self {
            Late::Open(ledger) => ledger.mark_served(),
            Late::NotYet(_) => {}
        }
    }

    fn rest(&self, now: u64) -> Option<u64> {
        match self {
            Late::Open(ledger) => ledger.rest(now),
            Late::NotYet(shut) => rest_until(Some(shut.next), now),
        }
    }

    fn rows(&self) -> &[Row] {
        match self {
            Late::Open(ledger) => ledger.rows(),
            Late::NotYet(shut) => shut.rows(),
        }
    }

    fn named(&self, name: &[u8]) -> Option<&Row> {
        match self {
            Late::Open(ledger) => ledger.named(name),
            Late::NotYet(shut) => shut.named(name),
        }
    }

    fn path(&self) -> &[u8] {
        match self {
            Late::Open(ledger) => ledger.path(),
            Late::NotYet(_) => &[],
        }
    }
}
