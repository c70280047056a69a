//! A state folder in memory that cannot be used until a moment.
use crate::starts::{MemoryLedger, demands_of};
use agent_ledger::{OpenedLedger, Opening};
use agent_start::{FolderPaths, OpenedFolder, later_with};
use agent_words::Demands;
use base_disk::{Failing, MemoryDisk};
use play_cases::{CaseFault, Drawer, Setting};
use state_keeping::{Paths, State};
use std::alloc::Global;
use std::mem;

/// Its name.
const NAME: &str = "state";

/// What is in it, until it is opened.
#[derive(Drop)]
struct Inside {
    file: Vec<u8>,
    copy: Option<Vec<u8>>,
    disk: MemoryDisk,
    drawer: Drawer,
}

/// A state folder that can be used from a moment on.
#[derive(Drop)]
pub struct MemoryFolder<'a> {
    paths: &'a Paths,
    demands: Demands,
    /// In milliseconds of the clock that never steps.
    from: u64,
    inside: Option<Inside>,
}

/// The folder, where it cannot be used at the start.
pub fn later_of<'a>(
    alloc: Global,
    paths: &'a Paths,
    setting: &mut Setting,
) -> Result<Option<MemoryFolder<'a>>, CaseFault> {
    let Some(from) = setting.later else {
        return Ok(None);
    };
    let inside = Inside {
        file: Vec::from_slice(alloc, &setting.file)?,
        copy: setting.state.bytes_at(alloc, paths.copy())?,
        disk: setting.state.disk(alloc, Failing::Never),
        drawer: mem::replace(&mut setting.drawer, Drawer::new(alloc)),
    };
    Ok(Some(MemoryFolder {
        paths,
        demands: demands_of(setting),
        from,
        inside: Some(inside),
    }))
}

impl<'a> Opening<MemoryLedger<'a>> for MemoryFolder<'a> {
    fn open(&mut self, alloc: Global, now: u64) -> Option<OpenedLedger<MemoryLedger<'a>>> {
        if now < self.from {
            return None;
        }
        let Inside {
            file,
            copy,
            disk,
            drawer,
        } = mem::replace(&mut self.inside, None)?;
        let Ok(state) = State::open(alloc, disk, self.paths, Some(&file), copy.as_deref()) else {
            return None;
        };
        let folder = FolderPaths {
            name: NAME,
            paths: self.paths,
        };
        let opened = OpenedFolder {
            state,
            said: Vec::new(alloc),
        };
        later_with(alloc, folder, self.demands, drawer, opened, now).ok()
    }
}
