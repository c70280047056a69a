//! Why the text of an inventory is not served: every fault of it that can be told beside the others.
ghost use Rattle.std.specs.Prelude.{◌≡◌, ◌∷◌, [], List, ℕ, IfOk, Ok};
ghost use Rattle.vault_inventory.specs.Inventory.{read_served};
ghost use Rattle.vault_inventory.specs.Served.{Served};
ghost use Rattle.agent_words.specs.Reading.{AreFaults, AreFaultsOf, AreLast, AreWrittenFaults, FirstIsWhy};

use crate::demands::Demands;
use crate::fault::StartFault;
use crate::first_fault::written_faults;
use crate::reading::read_to_serve;
use crate::secret_files::push_unfilled;
use base_files::Inputs;
use state_changes::rows_of;
use std::alloc::{AllocError, Global};
use vault_inventory::{InvFault, ServedInventory, read_served};

/// All faults that keep the text of an inventory from being served, in the order of [`StartFault`] and then of the entries; none, where
/// [`read_to_serve`] serves it. The first is the one that it gives.
///
/// A text that is no inventory has one fault. That what the files hold does not go together is said only where nothing else is wrong.
/// The only error is out of memory.
#[tactic(auto, using(crate::proofs::Faulty::no_inventory, crate::proofs::Faulty::read_so, crate::proofs::Faulty::first_is_why))]
pub fn faults_to_serve<I: Inputs>(
    alloc: Global,
    bytes: &[u8],
    demands: Demands,
    folder: &str,
    inputs: &mut I,
) -> Result<Vec<StartFault>, AllocError>
    ensures all { IfOk result (λ faults. AreFaults demands (I.bytes_at inputs.old) folder.now bytes.now faults.items) }
    ensures first { IfOk result (λ faults. FirstIsWhy demands (I.bytes_at inputs.old) folder.now bytes.now faults.items) }
    ensures same { (path : List ℕ) → I.bytes_at inputs.new path ≡ I.bytes_at inputs.old path }
{
    match read_served(alloc, bytes) {
        Ok(served) => faults_of(alloc, bytes, &served, demands, folder, inputs),
        Err(InvFault::OutOfMemory) => Err(AllocError),
        Err(fault) => one(alloc, StartFault::Inventory(fault)),
    }
}

/// All faults of what the text of an inventory writes, whatever the files hold that it names, in the order of [`StartFault`] and then
/// of the entries; none, where it may be served once they are waited for. A text that is no inventory has one.
///
/// The only error is out of memory.
#[tactic(auto, using(crate::proofs::Faulty::none_written, crate::proofs::Faulty::written_so))]
pub fn faults_as_written(
    alloc: Global,
    bytes: &[u8],
    demands: Demands,
) -> Result<Vec<StartFault>, AllocError>
    ensures { IfOk result (λ faults. AreWrittenFaults demands bytes.now faults.items) }
{
    match read_served(alloc, bytes) {
        Ok(served) => written_faults(alloc, demands, &served),
        Err(InvFault::OutOfMemory) => Err(AllocError),
        Err(fault) => one(alloc, StartFault::Inventory(fault)),
    }
}

// All faults of an inventory that can be read.
fn faults_of<I: Inputs>(
    alloc: Global,
    bytes: &[u8],
    served: &ServedInventory,
    demands: Demands,
    folder: &str,
    inputs: &mut I,
) -> Result<Vec<StartFault>, AllocError>
    requires { read_served bytes.now ≡ Ok served.now }
    ensures all { IfOk result (λ faults. AreFaultsOf demands (I.bytes_at inputs.old) folder.now bytes.now served.now faults.items) }
    ensures same { (path : List ℕ) → I.bytes_at inputs.new path ≡ I.bytes_at inputs.old path }
{
    let mut faults = written_faults(alloc, demands, served)?;
    let rows = rows_of(alloc, served)?;
    push_unfilled(alloc, rows.list(), folder.as_bytes(), inputs, &mut faults)?;
    if faults.is_empty() {
        return last_fault(alloc, bytes, demands, folder, inputs);
    }
    Ok(faults)
}

// The fault of what the files hold together, where that is one.
fn last_fault<I: Inputs>(
    alloc: Global,
    bytes: &[u8],
    demands: Demands,
    folder: &str,
    inputs: &mut I,
) -> Result<Vec<StartFault>, AllocError>
    requires { (served : Served) × (read_served bytes.now ≡ Ok served) }
    ensures last { IfOk result (λ faults. AreLast demands (I.bytes_at inputs.old) folder.now bytes.now faults.items) }
    ensures same { (path : List ℕ) → I.bytes_at inputs.new path ≡ I.bytes_at inputs.old path }
{
    match read_to_serve(alloc, bytes, demands, folder, inputs) {
        Ok(_) => Ok(Vec::new(alloc)),
        Err(StartFault::OutOfMemory) => Err(AllocError),
        Err(fault) => one(alloc, fault),
    }
}

fn one(alloc: Global, fault: StartFault) -> Result<Vec<StartFault>, AllocError>
    ensures { IfOk result (λ faults. faults.items ≡ fault ∷ []) }
{
    let mut faults = Vec::new(alloc);
    faults.push(fault)?;
    Ok(faults)
}
