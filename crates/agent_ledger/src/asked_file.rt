//! A file of a credential is looked at and read, and what it holds is looked up before it is taken.
ghost use Rattle.std.specs.Prelude.{◌≡◌, ◌⊎◌, Ok, Some};
ghost use Rattle.vault_proving.specs.Lookups.{IsCandidate};
ghost use Rattle.agent_ledger.specs.Takings.{IsEarly, IsPass, JudgesFile, LooksOn, LooksUpBy, LooksUpNew, ReadsNew, ReadsUp, TakesBeside, TakesHeldUp, TakesRead, judged, past, unproved_by};

use crate::asker::{ask_at, free_place, is_asked_for, may_look};
use crate::candidates::candidate_of_file;
use crate::ledger::Ledger;
use crate::secret_changes::{quiet, take_up, wanting};
use base_clock::Reading;
use base_disk::Disk;
use base_files::Inputs;
use base_moment::Text;
use state_secrets::{
    DueFile, Look, Looked, Looking, Pass, SecretFiles, SecretTrouble, has_it, names_file, read_held,
};
use std::alloc::{AllocError, Global};
use vault_asking::SeenLanes;
use vault_lanes::{Lanes, Loss};
use vault_proving::{Candidate, Verdict};

/// The credential that a file holds, as long as it is looked up. It has no `Debug`: the credential is secret.
#[derive(Drop)]
pub struct AskedFile {
    /// The file.
    pub due: DueFile,
    /// A token's own value, or a lease's id.
    pub credential: Text,
}

impl<'a, D: Disk, I: Inputs + SecretFiles, L: Lanes> Ledger<'a, D, I, L> {
    // Looks at the files of credentials that the rows name, where it is time for that, until one is to be read; reads that one, and takes
    // what it holds, or looks that up first.
    fn look_around(&mut self, alloc: Global, now: Reading) -> Looked
        ensures { IsEarly I.calls ⟦<L as SeenLanes>⟧.seen L.host_port now result self.old self.new ⊎ IsPass I.calls ⟦<L as SeenLanes>⟧.seen L.host_port now result self.old self.new }
    {
        if now.elapsed < self.looking.from {
            return quiet(false);
        }
        let look = Look {
            looking: &self.looking,
            secrets: self.state.secrets(),
            folder: self.folder.as_bytes(),
            elapsed: now.elapsed,
        };
        match look.pass(alloc, self.state.rows().list(), &mut self.inputs) {
            Pass::End => {
                self.looking.end(now.elapsed);
                quiet(false)
            }
            Pass::Later(at) => {
                go_on_at(&mut self.looking, at);
                quiet(true)
            }
            Pass::Due(due) => self.read_new(alloc, now, due),
            Pass::Want => wanting(),
        }
    }

    // Reads a file, unless what it held is looked up still: then the look goes on.
    fn read_new(&mut self, alloc: Global, now: Reading, due: DueFile) -> Looked
        ensures { ReadsNew I.calls ⟦<L as SeenLanes>⟧.seen L.host_port now result due self.old self.new }
    {
        if is_asked_for(&self.askers, due.name.list(), due.file.list()) {
            go_on_past(&mut self.looking, due.at);
            return quiet(true);
        }
        self.read_up(alloc, now, due)
    }

    // Reads a file, and takes what it holds, or looks that up first.
    fn read_up(&mut self, alloc: Global, now: Reading, due: DueFile) -> Looked
        ensures { ReadsUp I.calls ⟦<L as SeenLanes>⟧.seen L.host_port now result due self.old self.new }
    {
        match read_held(alloc, &mut self.inputs, &due.path, due.stamp) {
            Ok(Ok(credential)) => self.look_up_held(alloc, now, due, credential),
            Ok(Err(trouble)) => self.take_held(alloc, now, due, Err(trouble)),
            Err(AllocError) => wanting(),
        }
    }

    // Looks up what a file holds, unless the entry has that already, or there is nothing to be looked up: then it is taken at once.
    fn look_up_held(
        &mut self,
        alloc: Global,
        now: Reading,
        due: DueFile,
        credential: Text,
    ) -> Looked
        ensures { TakesRead I.calls ⟦<L as SeenLanes>⟧.seen L.host_port now result due (Ok (Ok credential)) self.old self.new }
    {
        if has_it(
            self.state.secrets(),
            due.name.list(),
            due.file.list(),
            credential.list(),
        ) {
            return self.take_held(alloc, now, due, Ok(credential));
        }
        self.look_up_new(alloc, now, due, credential)
    }

    // The same of one that the entry does not have.
    fn look_up_new(&mut self, alloc: Global, now: Reading, due: DueFile, credential: Text) -> Looked
        ensures { LooksUpNew I.calls ⟦<L as SeenLanes>⟧.seen L.host_port now result due credential self.old self.new }
    {
        match candidate_of_file(alloc, &self.state, due.name.list(), &credential) {
            Ok(None) => self.take_held(alloc, now, due, Ok(credential)),
            Ok(Some(candidate)) => {
                self.ask_about(alloc, now, AskedFile { due, credential }, candidate)
            }
            Err(AllocError) => wanting(),
        }
    }

    // The first that is free looks it up, and the look goes on. Where nobody looks anything up it is taken at once.
    fn ask_about(
        &mut self,
        alloc: Global,
        now: Reading,
        asked: AskedFile,
        candidate: Candidate,
    ) -> Looked
        requires { IsCandidate candidate }
        ensures { LooksUpBy I.calls ⟦<L as SeenLanes>⟧.seen L.host_port now result asked (Ok (Some candidate)) self.old self.new }
    {
        let Some(place) = free_place(&self.askers) else {
            return self.take_held(alloc, now, asked.due, Ok(asked.credential));
        };
        let row = asked.due.at;
        match ask_at(alloc, &mut self.askers, place, now, asked, candidate) {
            Ok(()) => {
                go_on_past(&mut self.looking, row);
                quiet(true)
            }
            Err(AllocError) => wanting(),
        }
    }

    /// Looks at files of credentials, where somebody can look up what they hold.
    pub(crate) fn look_on(&mut self, alloc: Global, now: Reading) -> Looked
        ensures { LooksOn I.calls ⟦<L as SeenLanes>⟧.seen L.host_port now result self.old self.new }
    {
        if !may_look(&self.askers) {
            return quiet(false);
        }
        self.look_around(alloc, now)
    }

    /// What a file holds is taken or refused by the broker's word, where the entry still names the file.
    pub(crate) fn judge_file(
        &mut self,
        alloc: Global,
        now: Reading,
        asked: AskedFile,
        verdict: Verdict,
    ) -> Looked
        ensures { JudgesFile I.calls ⟦<L as SeenLanes>⟧.seen L.host_port now result asked verdict self.old self.new }
    {
        let AskedFile { due, credential } = asked;
        if !names_file(self.state.rows(), due.name.list(), due.file.list()) {
            return quiet(true);
        }
        self.take_beside(alloc, now, due, judged(credential, verdict))
    }

    // Takes what a file gives, and the look goes on where it was.
    fn take_beside(
        &mut self,
        alloc: Global,
        now: Reading,
        due: DueFile,
        held: Result<Text, SecretTrouble>,
    ) -> Looked
        ensures { TakesBeside I.calls ⟦<L as SeenLanes>⟧.seen L.host_port now result due held self.old self.new }
    {
        let next = self.looking.next;
        let looked = self.take_held(alloc, now, due, held);
        go_on_at(&mut self.looking, next);
        looked
    }

    // Takes what a file gives, and keeps what came of it.
    fn take_held(
        &mut self,
        alloc: Global,
        now: Reading,
        due: DueFile,
        held: Result<Text, SecretTrouble>,
    ) -> Looked
        ensures { TakesHeldUp I.calls ⟦<L as SeenLanes>⟧.seen L.host_port now result due held self.old self.new }
    {
        take_up(
            alloc,
            &mut self.state,
            &mut self.looking,
            now.elapsed,
            due,
            held,
        )
    }
}

// The look goes on at this row.
fn go_on_at(looking: &mut Looking, at: usize)
    ensures { looking.new ≡ record looking.old { next = at } }
{
    looking.next = at;
}

// The look goes on after this row.
fn go_on_past(looking: &mut Looking, at: usize)
    ensures { looking.new ≡ past at looking.old }
{
    looking.next = at.saturating_add(1);
}

// What the file gives by the broker's word: a lookup without an answer says nothing against it.
fn judged(credential: Text, verdict: Verdict) -> Result<Text, SecretTrouble>
    ensures { result ≡ judged credential verdict }
{
    match verdict {
        Verdict::Good | Verdict::Missing(_) => Ok(credential),
        Verdict::Refused(status) => Err(SecretTrouble::Refused(status)),
        Verdict::Endless => Err(SecretTrouble::Endless),
    }
}

/// Why the broker has said nothing of a credential, where it has not.
pub(crate) fn unproved_by(verdict: Verdict) -> Option<Loss>
    ensures { result ≡ unproved_by verdict }
{
    match verdict {
        Verdict::Missing(why) => Some(why),
        Verdict::Good | Verdict::Refused(_) | Verdict::Endless => None,
    }
}
