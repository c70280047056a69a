//! What is served from the start on, or why nothing is.
ghost use Rattle.std.specs.Prelude.{◌≡◌, ◌∷◌, [], IfErr, IfOk, None, false, is_some, true};
ghost use Rattle.agent_start.specs.Alone.{IsServedAlone};
ghost use Rattle.agent_system.specs.Refusals.{GivesOrRefuses};
ghost use Rattle.agent_start.specs.Starts.{IsReason, IsStart, IsStartAlone, SaysUnused, StartsBy, is_unused};

use crate::folder::{Folder, NotBegun, begin, refuse_changes, refuse_held};
use crate::unkept::read_with_held;
use agent_ledger::Ledger;
use agent_system::{
    Inventories, ServedFile, Sources, SystemSecrets, read_inventory, refuse_written,
};
use agent_words::{Demands, SaidLine};
use base_device::{Sink, Watched};
use base_disk::SystemDisk;
use base_files::Inputs;
use program_report::{Exit, PROGRAM, Stop};
use std::alloc::{AllocError, Global};
use std::fs::File;
use std::rt::Files;
use vault_lanes::Lanes;

/// What is served from the start on.
#[derive(Drop)]
pub struct Start<K> {
    /// This agent's part of a spread, in seconds.
    pub part: u32,
    /// Where the agent stands behind another, the number of its name.
    pub behind: Option<u64>,
    pub inventories: Inventories,
    /// What keeps the changes that clients give, where there is a state folder.
    pub ledger: Option<K>,
    /// Whether the file itself is served, and not its copy.
    pub is_good: bool,
    pub said: Vec<SaidLine>,
}

/// The state of an agent on the disks of the system.
pub type SystemLedger<'a, R, L> = Ledger<'a, SystemDisk<'a, R>, SystemSecrets<'a, R>, L>;

/// What is served of the inventory, with the changes of a state folder, where there is one; without it, where that cannot be used: then it
/// is read of these files. Or the exit, once it was told why nothing is served.
#[tactic(auto, using(crate::proofs::Begun::starts_if, crate::proofs::Begun::reason_if, crate::proofs::Begun::alone_if))]
pub fn make_start<'a, R, L, F, I, E>(
    rt: &'a R,
    folder: Option<&'a Folder<'_>>,
    demands: Demands,
    sources: &mut Sources<'_, F, I>,
    errors: &mut E,
) -> Result<Start<SystemLedger<'a, R, L>>, Exit>
where
    R: Files<File = File> + AllocGlobal,
    L: Lanes + Drop,
    F: ServedFile,
    I: Inputs,
    E: Sink,
    ensures told { GivesOrRefuses result (⟦<E as Watched>⟧.change errors.old errors.new) }
    ensures start { IfOk result (IsStart demands (is_some folder.entry)) }
    ensures alone { IfOk result (λ s. s.ledger ≡ None → IsServedAlone (is_some folder.entry) (F.bytes_at sources.old.files) (I.bytes_at sources.old.secrets) sources.old.file.now demands s) }
{
    let begun = begin(rt, folder, demands);
    started(rt.alloc(), name_of(folder), demands, begun, sources, errors)
}

/// What is served by what was begun; or the exit, once it was told why nothing is served.
fn started<K, F, I, E>(
    alloc: Global,
    folder: &str,
    demands: Demands,
    begun: Result<Start<K>, NotBegun>,
    sources: &mut Sources<'_, F, I>,
    errors: &mut E,
) -> Result<Start<K>, Exit>
where
    F: ServedFile,
    I: Inputs,
    E: Sink,
    requires { IfErr begun IsReason }
    ensures told { GivesOrRefuses result (⟦<E as Watched>⟧.change errors.old errors.new) }
    ensures start { IfOk result (StartsBy demands begun) }
    ensures alone { IfErr begun (λ why. IfOk result (IsServedAlone (is_unused why) (F.bytes_at sources.old.files) (I.bytes_at sources.old.secrets) sources.old.file.now demands)) }
{
    match begun {
        Ok(start) => Ok(start),
        Err(why) => start_without(alloc, folder, demands, why, sources, errors),
    }
}

/// The name of a state folder, or nothing where there is none.
fn name_of<'a>(folder: Option<&'a Folder<'_>>) -> &'a str {
    match folder {
        None => "",
        Some(folder) => folder.name,
    }
}

/// What is served of the file without its state folder, where that cannot be used; or the exit, once it was told why nothing is served.
fn start_without<K, F, I, E>(
    alloc: Global,
    folder: &str,
    demands: Demands,
    why: NotBegun,
    sources: &mut Sources<'_, F, I>,
    errors: &mut E,
) -> Result<Start<K>, Exit>
where
    F: ServedFile,
    I: Inputs,
    E: Sink,
    requires { IsReason why }
    ensures told { GivesOrRefuses result (⟦<E as Watched>⟧.change errors.old errors.new) }
    ensures start { IfOk result (IsStartAlone demands (is_unused why)) }
    ensures alone { IfOk result (IsServedAlone (is_unused why) (F.bytes_at sources.old.files) (I.bytes_at sources.old.secrets) sources.old.file.now demands) }
{
    match why {
        NotBegun::NoFolder => start_with_file(alloc, demands, sources, errors),
        NotBegun::Unused(first) => start_unkept(alloc, demands, first, sources, errors),
        NotBegun::Held => Err(refuse_held(alloc, folder, errors)),
        NotBegun::Refused => {
            match refuse_written(alloc, demands, sources, errors) {
                None => Err(refuse_changes(alloc, folder, errors)),
                Some(exit) => Err(exit),
            }
        }
        NotBegun::Memory => Err(Stop::Memory.report(PROGRAM, errors)),
    }
}

/// What is served of the file alone.
#[tactic(auto, using(crate::proofs::Begun::alone_silent, crate::proofs::Begun::alone_file))]
fn start_with_file<K, F, I, E>(
    alloc: Global,
    demands: Demands,
    sources: &mut Sources<'_, F, I>,
    errors: &mut E,
) -> Result<Start<K>, Exit>
where
    F: ServedFile,
    I: Inputs,
    E: Sink,
    ensures told { GivesOrRefuses result (⟦<E as Watched>⟧.change errors.old errors.new) }
    ensures start { IfOk result (IsStartAlone demands false) }
    ensures alone { IfOk result (IsServedAlone false (F.bytes_at sources.old.files) (I.bytes_at sources.old.secrets) sources.old.file.now demands) }
{
    let inventories = read_inventory(alloc, demands, sources, errors)?;
    Ok(start_of(demands, inventories, Vec::new(alloc)))
}

/// What is served of the file where its state folder cannot be used, which is said before anything else.
#[tactic(auto, using(crate::proofs::Begun::alone_unkept))]
fn start_unkept<K, F, I, E>(
    alloc: Global,
    demands: Demands,
    first: SaidLine,
    sources: &mut Sources<'_, F, I>,
    errors: &mut E,
) -> Result<Start<K>, Exit>
where
    F: ServedFile,
    I: Inputs,
    E: Sink,
    requires { SaysUnused first }
    ensures told { GivesOrRefuses result (⟦<E as Watched>⟧.change errors.old errors.new) }
    ensures start { IfOk result (IsStartAlone demands true) }
    ensures alone { IfOk result (IsServedAlone true (F.bytes_at sources.old.files) (I.bytes_at sources.old.secrets) sources.old.file.now demands) }
{
    let Ok(mut said) = alone(alloc, first) else {
        return Err(Stop::Memory.report(PROGRAM, errors));
    };
    let inventories = read_with_held(alloc, demands, sources, &mut said, errors)?;
    Ok(start_of(demands, inventories, said))
}

/// A start without a ledger.
fn start_of<K>(demands: Demands, inventories: Inventories, said: Vec<SaidLine>) -> Start<K>
    ensures { result ≡ record { part = demands.earlier; behind = demands.behind; inventories = inventories; ledger = None; is_good = true; said = said } }
{
    Start {
        part: demands.earlier,
        behind: demands.behind,
        inventories,
        ledger: None,
        is_good: true,
        said,
    }
}

/// What is said first. The only error is lack of memory.
fn alone(alloc: Global, first: SaidLine) -> Result<Vec<SaidLine>, AllocError>
    ensures { IfOk result (λ said. said.items ≡ first ∷ []) }
{
    let mut said = Vec::new(alloc);
    said.push(first)?;
    Ok(said)
}
