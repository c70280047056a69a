//! Those over whose lanes files of credentials are looked up, one file each at a time.
ghost use Rattle.std.specs.Prelude.{◌≡◌, ◌<◌, IfSome, None, Some, length, true};
ghost use Rattle.std.specs.List.{list_any};
ghost use Rattle.vault_proving.specs.Lookups.{IsCandidate};
ghost use Rattle.agent_ledger.specs.Askers.{AskerAsks, FileGoesOut, HearsFirst, HearsIf, HearsOf, asks_for, free_place, is_any_asking, is_asked_for, is_free, may_look};

use crate::asked_file::AskedFile;
use agent_words::second_of;
use base_clock::Reading;
use std::alloc::{AllocError, Global};
use std::mem;
use vault_asking::SeenLanes;
use vault_lanes::Lanes;
use vault_proving::{Candidate, Proving, Verdict};

/// Lanes over which what a file of a credential holds is looked up, and the file whose lookup is out.
#[derive(Drop)]
pub struct Asker<L: Lanes> {
    /// Over which one credential is looked up at a time.
    pub proving: Proving<L>,
    /// The file, where one is looked up.
    pub asked: Option<AskedFile>,
}

/// The broker's word on what a file holds. It has no `Debug`: the credential is secret.
#[derive(Drop)]
pub struct FileWord {
    /// The file, and what it holds.
    pub asked: AskedFile,
    /// What the broker says of that.
    pub verdict: Verdict,
}

impl<L: Lanes> Asker<L> {
    /// No file is looked up yet.
    pub fn new(proving: Proving<L>) -> Asker<L>
        ensures { result ≡ record { proving = proving; asked = None } }
    {
        Asker {
            proving,
            asked: None,
        }
    }

    // Whether it looks nothing up.
    fn is_free(&self) -> bool
        ensures { result ≡ is_free self.now }
    {
        self.asked.is_none() && !self.proving.is_asking()
    }

    // Whether it looks up what this file holds for the entry of that name.
    fn asks_for(&self, name: &[u8], file: &[u8]) -> bool
        ensures { result ≡ asks_for name.now file.now self.now }
    {
        match &self.asked {
            None => false,
            Some(asked) => asked.due.name.list() == name && asked.due.file.list() == file,
        }
    }

    // Looks up what a file holds. It waits for nothing. The only error is lack of memory: it is not looked up then.
    #[tactic(auto, using(crate::proofs::Asking::is_unasked))]
    fn ask(
        &mut self,
        alloc: Global,
        now: Reading,
        asked: AskedFile,
        candidate: Candidate,
    ) -> Result<(), AllocError>
        requires free { is_free self.old ≡ true }
        requires entry { IsCandidate candidate }
        ensures { FileGoesOut ⟦<L as SeenLanes>⟧.seen L.host_port now asked candidate result self.old self.new }
    {
        self.proving
            .ask(alloc, second_of(now.wall), now.elapsed, candidate)?;
        self.asked = Some(asked);
        Ok(())
    }

    // The broker's word on the file that is looked up, once that is there. It waits for nothing. The only error is lack of memory: the
    // file is looked up no more then.
    #[tactic(auto, using(crate::proofs::Asking::none_asked))]
    fn hear(&mut self, alloc: Global, now: u64) -> Result<Option<FileWord>, AllocError>
        ensures { HearsIf ⟦<L as SeenLanes>⟧.seen now self.old.asked result self.old self.new }
    {
        match mem::replace(&mut self.asked, None) {
            None => Ok(None),
            Some(asked) => self.hear_of(alloc, now, asked),
        }
    }

    // The same of a file that is looked up. `asked` is not in it meanwhile.
    fn hear_of(
        &mut self,
        alloc: Global,
        now: u64,
        asked: AskedFile,
    ) -> Result<Option<FileWord>, AllocError>
        requires { self.old.asked ≡ None }
        ensures { HearsOf ⟦<L as SeenLanes>⟧.seen now asked result self.old self.new }
    {
        match self.proving.go_on(alloc, now) {
            Ok(None) => {
                self.asked = Some(asked);
                Ok(None)
            }
            Ok(Some(verdict)) => Ok(Some(FileWord { asked, verdict })),
            Err(AllocError) => Err(AllocError),
        }
    }
}

/// The broker's word on the file of the first of them on whose file there is one. It waits for nothing. The only error is lack of memory:
/// the file of one is looked up no more then.
#[tactic(auto, using(crate::proofs::Asking::none_yet))]
pub(crate) fn hear_first<L: Lanes>(
    alloc: Global,
    askers: &mut [Asker<L>],
    now: u64,
) -> Result<Option<FileWord>, AllocError>
    ensures many { length askers.new ≡ length askers.old }
    ensures heard { HearsFirst ⟦<L as SeenLanes>⟧.seen now askers.old result askers.new }
{
    for asker in askers.iter_mut() {
        match asker.hear(alloc, now) {
            Ok(None) => {}
            Ok(Some(word)) => return Ok(Some(word)),
            Err(AllocError) => return Err(AllocError),
        }
    }
    Ok(None)
}

/// Looks up what a file holds over the lanes of the asker at this place, which is free. It waits for nothing. The only error is lack of
/// memory: it is not looked up then.
#[tactic(auto, using(crate::proofs::Asking::is_free_at, crate::proofs::Asking::asked_at))]
pub(crate) fn ask_at<L: Lanes>(
    alloc: Global,
    askers: &mut [Asker<L>],
    at: usize,
    now: Reading,
    asked: AskedFile,
    candidate: Candidate,
) -> Result<(), AllocError>
    requires within { at < length askers.old }
    requires free { free_place askers.old ≡ Some at }
    requires entry { IsCandidate candidate }
    ensures many { length askers.new ≡ length askers.old }
    ensures asks { AskerAsks ⟦<L as SeenLanes>⟧.seen L.host_port at now asked candidate result askers.old askers.new }
{
    askers[at].ask(alloc, now, asked, candidate)
}

/// The place of the first that looks nothing up.
pub(crate) fn free_place<L: Lanes>(askers: &[Asker<L>]) -> Option<usize>
    ensures place { result ≡ free_place askers.now }
    ensures within { IfSome result (λ i. i < length askers.now) }
{
    askers.iter().position(|asker| asker.is_free())
}

/// Whether files may be looked at: one of them looks nothing up, or there are none.
pub(crate) fn may_look<L: Lanes>(askers: &[Asker<L>]) -> bool
    ensures { result ≡ may_look askers.now }
{
    askers.is_empty() || has_free(askers)
}

// Whether one of them looks nothing up.
fn has_free<L: Lanes>(askers: &[Asker<L>]) -> bool
    ensures { result ≡ list_any is_free askers.now }
{
    askers.iter().any(|asker| asker.is_free())
}

/// Whether one of them looks something up.
pub(crate) fn is_any_asking<L: Lanes>(askers: &[Asker<L>]) -> bool
    ensures { result ≡ is_any_asking askers.now }
{
    askers.iter().any(|asker| !asker.is_free())
}

/// Whether one of them looks up what this file holds for the entry of that name.
pub(crate) fn is_asked_for<L: Lanes>(askers: &[Asker<L>], name: &[u8], file: &[u8]) -> bool
    ensures { result ≡ is_asked_for name.now file.now askers.now }
{
    askers.iter().any(|asker| asker.asks_for(name, file))
}
