//! What keeps the changes that clients give.
ghost use Rattle.std.specs.Prelude.{◌≡◌, Bool, List, Option, Result, ℕ, option_map};
ghost use Rattle.std.specs.declared.alloc.AllocError.{AllocError};
ghost use Rattle.state_changes.specs.Rows.{named};
ghost use Rattle.state_changes.specs.declared.row.Row.{Row};
ghost use Rattle.vault_inventory.specs.Inventories.{Inventory};
ghost use Rattle.agent_ledger.specs.Keeping.{KeepCall, Look, LookUp, MarkServed, Prove, Reload, RestFor, Settle, Take, TryAgain};
ghost use Rattle.agent_words.specs.Outcomes.{Why};

use agent_words::{Reread, SaidLine};
use base_clock::Reading;
use base_moment::Text;
use state_changes::{ChangeKind, Row};
use state_secrets::Looked;
use std::alloc::{AllocError, Global};
use vault_inventory::Inventory;
use vault_lanes::Loss;
use vault_proving::Verdict;

/// Whether the credential that a change brings is looked up before it is taken.
#[derive(Clone, Copy, Debug, PartialEq, Eq)]
pub enum LookedUp {
    /// Its lookup is out, and [`Keeping::prove`] gives the verdict.
    Out,
    /// The credential of another change is being looked up.
    Later,
    /// There is nothing to be looked up.
    Nothing,
}

/// What came of a look at files of credentials.
#[derive(Debug, Drop)]
pub struct FileLook {
    /// What is said of one of them, and whether the look can go on.
    pub looked: Looked,
    /// Why the broker has said nothing of what that one holds, where it was asked and has not.
    pub unproved: Option<Loss>,
}

/// What is to be said once changes are kept that could not be before.
#[derive(Debug, Drop)]
pub struct KeepNews {
    /// Whether the file itself was read, and not its copy.
    pub is_good: bool,
    /// The lines of the log about it.
    pub said: Vec<SaidLine>,
}

/// Keeps the changes that clients give, over a restart too; or cannot do so yet, and tries again. A reason why something was not done is in
/// words for the one who asked, without a credential, and `None` where memory was wanting for them.
///
/// To contracts it is what each call did to it, what it has from then on, and the inventories that it gives.
pub trait Keeping {
    /// What a call did to it: what it was asked for and what came of it, what it was before, and what it is after.
    ghost does: { KeepCall → Self → Self → Type 0 };

    /// Whether what it takes holds over a restart.
    ghost keeps: { Self → Bool };

    /// The entries after every change.
    ghost rows: { Self → List Row };

    /// The path of the file.
    ghost path: { Self → List ℕ };

    /// Whether this is the row of a table, or why there is none.
    ghost reads: { Self → List ℕ → Result Row Why → Type 0 };

    /// What is to be served from a moment on, where that is due.
    ghost gives: { ℕ → Result (Option Inventory) AllocError → Self → Type 0 };

    /// Whether what it takes holds over a restart. Where it does not it takes only needs, which it makes hold once it can.
    fn keeps(&self) -> bool
        ensures { result ≡ Self.keeps self.now };

    /// Tries to keep what it takes over a restart, where it does not so far, and it is time for that or a client asks for a change. What is
    /// to be said where it does from now on. `now` is in milliseconds of the clock that never steps.
    fn try_again(&mut self, alloc: Global, now: u64, is_asked: bool) -> Option<KeepNews>
        ensures { Self.does (TryAgain now is_asked result) self.old self.new };

    /// Makes a change of the entry of that name. `now` is in milliseconds of the clock that never steps. At `Ok` it holds over a restart,
    /// where it keeps what it takes.
    fn take(
        &mut self,
        alloc: Global,
        now: u64,
        name: &[u8],
        what: ChangeKind,
    ) -> Result<(), Option<Text>>
        ensures { Self.does (Take now name.now what result) self.old self.new };

    /// Looks up the credential that this change of the entry of that name brings, where it brings one and may be made. It waits for
    /// nothing. The only error is lack of memory: nothing is looked up then.
    fn look_up(
        &mut self,
        alloc: Global,
        now: Reading,
        name: &[u8],
        what: &ChangeKind,
    ) -> Result<LookedUp, AllocError>
        ensures { Self.does (LookUp now name.now what.now result) self.old self.new };

    /// The verdict on the credential that is looked up, once the broker's answer is there: then it is looked up no more. `now` is in
    /// milliseconds of the clock that never steps. It waits for nothing. The only error is lack of memory: it is looked up no more then.
    fn prove(&mut self, alloc: Global, now: u64) -> Result<Option<Verdict>, AllocError>
        ensures { Self.does (Prove now result) self.old self.new };

    /// Makes the file hold every change.
    fn settle(&mut self, alloc: Global) -> Result<(), Option<Text>>
        ensures { Self.does (Settle result) self.old self.new };

    /// Reads the file anew. The error is why that is not served, a reason a line; none where memory was wanting for them. A look at files
    /// of credentials begins with the next call of [`Keeping::look`].
    fn reload(&mut self, alloc: Global, now: u64) -> Result<Reread, Vec<Text>>
        ensures { Self.does (Reload now result) self.old self.new };

    /// The row that a table `[[token]]` or `[[lease]]` in TOML writes.
    fn read_row(&self, alloc: Global, table: &[u8]) -> Result<Row, Option<Text>>
        ensures { Self.reads self.now table.now result };

    /// The inventory that is to be served from now on, where one is due. The only error is out of memory, and only there.
    fn due(&self, alloc: Global, now: u64) -> Result<Option<Inventory>, AllocError>
        ensures { Self.gives now result self.now };

    /// Takes what a file of a credential holds, once that was looked up. Where nothing was, looks at files, where it is time for that and
    /// one more can be looked up, until one is to be read. It waits for nothing but the files.
    fn look(&mut self, alloc: Global, now: Reading) -> FileLook
        ensures { Self.does (Look now result) self.old self.new };

    /// The inventory that was due is served.
    fn mark_served(&mut self)
        ensures { Self.does MarkServed self.old self.new };

    /// For how long it may be left alone, in milliseconds; `None` where as long as may be. It is asked at `now`, the moment of the clock
    /// that never steps at which it was asked for what is due.
    fn rest(&self, now: u64) -> Option<u64>
        ensures { Self.does (RestFor now result) self.now self.now };

    /// The entries after every change.
    fn rows(&self) -> &[Row]
        ensures { result.now ≡ Self.rows self.now };

    /// The entry of that name.
    fn named(&self, name: &[u8]) -> Option<&Row>
        ensures { option_map (λ row. row.now) result ≡ named (Self.rows self.now) name.now };

    /// The path of the file.
    fn path(&self) -> &[u8]
        ensures { result.now ≡ Self.path self.now };
}
