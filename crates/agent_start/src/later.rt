//! A state folder of `serve` that cannot be used at the start: it is opened later.
ghost use Rattle.std.specs.Prelude.{◌≡◌, ◌&&◌, IfOk, is_none, is_some};
ghost use Rattle.agent_start.specs.Later.{IsLaterLedger, open_text};
ghost use Rattle.agent_start.specs.Telling.{SaysLater};

use crate::folder::{
    Folder, FolderPaths, NotBegun, OpenedFolder, fill_and_say, ledger_of, open_in, say_opened,
};
use crate::start::SystemLedger;
use agent_ledger::{KeepNews, Ledger, OpenedLedger, Opening};
use agent_system::{SystemSecrets, push};
use agent_words::{About, Demands};
use base_disk::Disk;
use base_files::Inputs;
use base_log::Level;
use base_moment::Text;
use state_keeping::OpenedState;
use std::alloc::{AllocError, Global};
use std::fs::File;
use std::rt::Files;
use vault_lanes::Lanes;

/// A state folder of the system that cannot be used so far.
#[derive(Drop)]
pub struct SystemFolder<'a, R> {
    rt: &'a R,
    folder: &'a Folder<'a>,
    demands: Demands,
}

/// The state folder, where there is one, and no ledger is there.
pub fn later_folder<'a, R, K>(
    rt: &'a R,
    folder: Option<&'a Folder<'a>>,
    demands: Demands,
    ledger: &Option<K>,
) -> Option<SystemFolder<'a, R>>
    ensures { is_some result ≡ (is_some folder.entry && is_none ledger.now) }
{
    match folder {
        None => None,
        Some(folder) => match ledger {
            Some(_) => None,
            None => Some(SystemFolder {
                rt,
                folder,
                demands,
            }),
        },
    }
}

impl<'a, R, L> Opening<SystemLedger<'a, R, L>> for SystemFolder<'a, R>
where
    R: Files<File = File> + AllocGlobal,
    L: Lanes + Drop,
{
    fn open(&mut self, _alloc: Global, now: u64) -> Option<OpenedLedger<SystemLedger<'a, R, L>>> {
        open_later(self.rt, self.folder, self.demands, now).ok()
    }
}

/// What keeps changes in this folder from now on, where it can be used.
fn open_later<'a, R: Files<File = File> + AllocGlobal, L: Lanes + Drop>(
    rt: &'a R,
    folder: &'a Folder<'a>,
    demands: Demands,
    now: u64,
) -> Result<OpenedLedger<SystemLedger<'a, R, L>>, NotBegun>
    ensures { IfOk result (λ o. IsLaterLedger demands o.keeper) }
{
    let alloc = rt.alloc();
    let folder = folder.paths(alloc)?;
    let opened = open_in(rt, folder, demands)?;
    let files = SystemSecrets::new(rt);
    Ok(later_with(alloc, folder, demands, files, opened, now)?)
}

/// A ledger over a state that was opened later, in this folder, with what the files of credentials hold; and what is to be said of it,
/// after what was said before. The only error is lack of memory.
#[tactic(auto, using(crate::proofs::OpenedLater::filled_later, crate::proofs::Telling::says_later))]
pub fn later_with<'a, D: Disk + Drop, I: Inputs + Drop, L: Lanes + Drop>(
    alloc: Global,
    folder: FolderPaths<'a>,
    demands: Demands,
    files: I,
    opened: OpenedFolder<'a, D>,
    now: u64,
) -> Result<OpenedLedger<Ledger<'a, D, I, L>>, AllocError>
    ensures later { IfOk result (λ o. IsLaterLedger demands o.keeper) }
    ensures good { IfOk result (λ o. o.news.is_good ≡ is_none opened.entry.state.fault) }
    ensures says { IfOk result (λ o. SaysLater (I.bytes_at files) folder.entry.paths.now opened.entry.state folder.entry.name.now now opened.entry.said.items o.keeper o.news.said.items) }
{
    let FolderPaths { name, paths } = folder;
    let OpenedFolder { state: found, said } = opened;
    let mut said = said;
    say_opened(alloc, paths, &found, &mut said)?;
    let OpenedState {
        lock: _,
        state,
        notes,
        fault,
        ..
    } = found;
    let mut ledger = ledger_of(alloc, paths, demands, files, state);
    fill_and_say(alloc, now, &mut ledger, &notes, &mut said)?;
    let text = open_text(alloc, name)?;
    push(&mut said, Level::Note, About::Folder, text)?;
    Ok(OpenedLedger {
        keeper: ledger,
        news: KeepNews {
            is_good: fault.is_none(),
            said,
        },
    })
}

/// That the folder of that name can be used. The only error is lack of memory.
fn open_text(alloc: Global, name: &str) -> Result<Text, AllocError>
    ensures { IfOk result (λ text. text ≡ open_text name.now) }
{
    let mut text = Vec::from_slice(alloc, name.as_bytes())?;
    text.extend_from_slice(b" can be used: changes are kept from now on")?;
    Ok(Text::from_vec(text))
}
