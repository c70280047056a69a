//! The faults and the doubts of the text of an inventory.
ghost use Rattle.std.specs.Prelude.{◌≡◌, ℕ, List, IfOk};
ghost use Rattle.agent_words.specs.Reading.{AreFaults, FirstIsWhy};
ghost use Rattle.program_lint.specs.Judged.{AreDoubts};

use agent_words::{Demands, StartFault, faults_to_serve};
use base_files::Inputs;
use base_moment::Moment;
use state_file::ReadFault;
use std::alloc::{AllocError, Global};
use vault_inventory::{InvFault, read_served};
use vault_lint::{Doubt, Subject, doubts, subject_of};

/// An inventory that was read.
#[derive(Clone, Copy, Debug)]
pub struct Read<'a> {
    /// Why it may not be served whatever it holds.
    pub refused: Option<ReadFault>,
    pub bytes: &'a [u8],
    /// What stands before a path that starts at the folder of the file.
    pub folder: &'a str,
    /// Of which entries others may read or write the file.
    pub open_files: &'a [bool],
    /// The moment at which it is judged.
    pub at: Moment,
}

/// What is found in the text of an inventory.
#[derive(Debug, Drop)]
pub struct Judged {
    /// Why `serve` refuses it.
    pub faults: Vec<StartFault>,
    /// What it writes, where it is an inventory, and what is doubted of that.
    pub doubted: Option<Doubted>,
}

/// An inventory, and what is doubted of it.
#[derive(Debug, Drop)]
pub struct Doubted {
    pub subject: Subject,
    pub doubts: Vec<Doubt>,
}

/// The faults for which `serve` refuses an inventory, all that can be told beside each other, and the doubts about it. The only error is
/// lack of memory.
pub fn judge<I: Inputs>(
    alloc: Global,
    read: &Read<'_>,
    demands: Demands,
    inputs: &mut I,
) -> Result<Judged, AllocError>
    ensures all { IfOk result (λ judged. AreFaults demands (I.bytes_at inputs.old) read.now.folder.now read.now.bytes.now judged.faults.items) }
    ensures first { IfOk result (λ judged. FirstIsWhy demands (I.bytes_at inputs.old) read.now.folder.now read.now.bytes.now judged.faults.items) }
    ensures doubts { IfOk result (λ judged. AreDoubts read.now.bytes.now read.now.open_files.now read.now.at demands.timeout judged.doubted) }
    ensures same { (path : List ℕ) → I.bytes_at inputs.new path ≡ I.bytes_at inputs.old path }
{
    let faults = faults_to_serve(alloc, read.bytes, demands, read.folder, inputs)?;
    let doubted = doubted_of(alloc, read, demands.timeout)?;
    Ok(Judged { faults, doubted })
}

// What is doubted; nothing, where the text is no inventory.
#[tactic(auto, using(crate::proofs::NoInventory::none_of))]
fn doubted_of(alloc: Global, read: &Read<'_>, timeout: u32) -> Result<Option<Doubted>, AllocError>
    ensures { IfOk result (λ doubted. AreDoubts read.now.bytes.now read.now.open_files.now read.now.at timeout doubted) }
{
    match read_served(alloc, read.bytes) {
        Ok(served) => {
            let open_files = Vec::from_slice(alloc, read.open_files)?;
            let subject = subject_of(alloc, read.bytes, served, open_files, read.at, timeout)?;
            let doubts = doubts(alloc, &subject)?;
            Ok(Some(Doubted { subject, doubts }))
        }
        Err(InvFault::OutOfMemory) => Err(AllocError),
        Err(_) => Ok(None),
    }
}
