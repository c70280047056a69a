//! One credential is looked up at a time.
ghost use Rattle.std.specs.Prelude.{◌≡◌, ◌<◌, [], None, Some, IfOk, OnErr, OnOk, is_some, length};
ghost use Rattle.vault_proving.specs.Lookups.{AreOutFor, CandidateGoesOut, Hears, InquiryGoesOn, IsCandidate};

use crate::candidate::{Candidate, LOOKUP_NUMBER};
use crate::verdict::{Verdict, verdict_on};
use base_moment::Moment;
use std::alloc::{AllocError, Global};
use std::marker::Model;
use vault_asking::SeenLanes;
use vault_exchange::lookup_for;
use vault_lanes::{Ask, Lanes};

/// Lanes over which a credential is looked up before it is taken, and which one that is.
#[derive(Drop)]
pub struct Proving<L: Lanes> {
    lanes: L,
    /// What is looked up, as long as its answer is not there.
    asked: Option<Candidate>,
}

impl<L: Lanes> Model for Proving<L> {
    ghost use Rattle.vault_proving.specs.Lookups.{Inquiry, IsInquiry};

    ghost Value = { Inquiry L };

    ghost view = { λ p. record { lanes = p.lanes; asked = p.asked } };

    ghost invariant = { λ p. IsInquiry (L.width p.lanes) (L.out p.lanes) p.asked };
}

impl<L: Lanes> Proving<L> {
    /// Nothing is looked up over these lanes, of which none is taken. It takes no memory.
    pub fn new(lanes: L) -> Proving<L>
        requires wide { 0 < L.width lanes }
        requires none { L.out lanes ≡ [] }
        ensures { result ≡ record { lanes = lanes; asked = None } }
    {
        Proving { lanes, asked: None }
    }

    /// Whether a credential is looked up.
    pub fn is_asking(&self) -> bool
        ensures asking { result ≡ is_some self.now.asked }
        ensures out { AreOutFor self.now.asked (L.out self.now.lanes) }
    {
        self.asked.is_some()
    }

    /// Looks this credential up: its request goes out at once. It waits for nothing. `t` is the moment of the wall's clock, and `now`
    /// that of the elapsed one, in milliseconds.
    ///
    /// The only error is out of memory: then it is not looked up.
    pub fn ask(
        &mut self,
        alloc: Global,
        t: Moment,
        now: u64,
        candidate: Candidate,
    ) -> Result<(), AllocError>
        requires none { self.old.asked ≡ None }
        requires entry { IsCandidate candidate }
        ensures out { OnOk result (CandidateGoesOut (L.host_port self.old.lanes) t now candidate (⟦<L as SeenLanes>⟧.seen self.old.lanes) (⟦<L as SeenLanes>⟧.seen self.new.lanes)) }
        ensures asked { OnOk result (self.new.asked ≡ Some candidate) }
        ensures none { OnErr result (self.new.asked ≡ None) }
        ensures width { L.width self.new.lanes ≡ L.width self.old.lanes }
        ensures port { L.host_port self.new.lanes ≡ L.host_port self.old.lanes }
    {
        send(alloc, &mut self.lanes, t, now, &candidate)?;
        self.asked = Some(candidate);
        Ok(())
    }

    /// The verdict on the credential that is looked up, where the broker's answer is there at `now`, in milliseconds of the elapsed
    /// clock: then it is looked up no more. It waits for nothing.
    ///
    /// The only error is out of memory: then it is looked up no more, and there is no verdict on it.
    pub fn go_on(&mut self, alloc: Global, now: u64) -> Result<Option<Verdict>, AllocError>
        ensures goes_on { IfOk result (λ verdict. InquiryGoesOn now self.old.asked (⟦<L as SeenLanes>⟧.seen self.old.lanes) verdict self.new.asked (⟦<L as SeenLanes>⟧.seen self.new.lanes)) }
        ensures none { OnErr result (self.new.asked ≡ None) }
        ensures width { L.width self.new.lanes ≡ L.width self.old.lanes }
        ensures port { L.host_port self.new.lanes ≡ L.host_port self.old.lanes }
    {
        let Some(candidate) = &self.asked else {
            return Ok(None);
        };
        match hear(alloc, &mut self.lanes, candidate, now) {
            Ok(None) => Ok(None),
            Ok(Some(verdict)) => {
                self.asked = None;
                Ok(Some(verdict))
            }
            Err(AllocError) => {
                self.asked = None;
                self.lanes.forget();
                Err(AllocError)
            }
        }
    }
}

// Sends the lookup of a credential. The only error is out of memory: no lane is taken then.
fn send<L: Lanes>(
    alloc: Global,
    lanes: &mut L,
    t: Moment,
    now: u64,
    candidate: &Candidate,
) -> Result<(), AllocError>
    requires entry { IsCandidate candidate.now }
    requires free { length (L.out lanes.old) < L.width lanes.old }
    ensures out { OnOk result (CandidateGoesOut (L.host_port lanes.old) t now candidate.now (⟦<L as SeenLanes>⟧.seen lanes.old) (⟦<L as SeenLanes>⟧.seen lanes.new)) }
    ensures kept { OnErr result (L.out lanes.new ≡ L.out lanes.old) }
    ensures width { L.width lanes.new ≡ L.width lanes.old }
    ensures port { L.host_port lanes.new ≡ L.host_port lanes.old }
{
    let port = lanes.port();
    let ask = Ask {
        index: LOOKUP_NUMBER,
        patience: u64::MAX,
        request: lookup_for(alloc, port, &candidate.inventory, candidate.entry)?,
    };
    lanes.send(alloc, t, now, &ask)
}

// The verdict on a credential whose lookup is out, where its answer is there. The only error is out of memory.
fn hear<L: Lanes>(
    alloc: Global,
    lanes: &mut L,
    candidate: &Candidate,
    now: u64,
) -> Result<Option<Verdict>, AllocError>
    requires out { AreOutFor (Some candidate.now) (L.out lanes.old) }
    ensures heard { IfOk result (λ verdict. Hears now candidate.now (⟦<L as SeenLanes>⟧.seen lanes.old) verdict (⟦<L as SeenLanes>⟧.seen lanes.new)) }
    ensures width { L.width lanes.new ≡ L.width lanes.old }
    ensures port { L.host_port lanes.new ≡ L.host_port lanes.old }
{
    let mut answers = lanes.go_on(alloc, now)?;
    match answers.pop() {
        None => Ok(None),
        Some(answered) => Ok(Some(verdict_on(alloc, candidate, &answered.answer)?)),
    }
}
