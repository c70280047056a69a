//! Entries whose credentials stand in files are filled with what these hold.
ghost use Rattle.std.specs.Prelude.{◌≡◌, ◌⊎◌, ◌++◌, List, ℕ, IfErr, IfOk, OnOk, true, false};
ghost use Rattle.vault_inventory.specs.Values.{is_credential};
ghost use Rattle.base_words.specs.Texts.{stripped};
ghost use Rattle.agent_words.specs.Filling.{AreFilled, AreUnfilled, CannotFill, FileHolds, FillingFails, FillsRow, FirstUnfilled, IsFaultOfRow};
ghost use Rattle.state_secrets.specs.Credentials.{placed};
ghost use Rattle.agent_words.specs.declared.fault.StartFault.{StartFault};
ghost use Rattle.agent_words.specs.declared.fault.StartFault.TheVariants.{NoSecret, OutOfMemory};

use crate::fault::StartFault;
use crate::first_fault::push_if;
use base_device::InputFault;
use base_files::Inputs;
use base_moment::Text;
use state_changes::Row;
use state_secrets::{MOST_SECRET, placed};
use std::alloc::{AllocError, Global};

/// The rows with what their files hold. A path that does not begin with `/` starts at `folder`, which ends in one, or is empty.
///
/// The error is the first row's whose file gives nothing, or lack of memory.
pub(crate) fn fill_all<I: Inputs>(
    alloc: Global,
    rows: &[Row],
    folder: &[u8],
    inputs: &mut I,
) -> Result<Vec<Row>, StartFault>
    ensures filled { IfOk result (λ filled. AreFilled (I.bytes_at inputs.old) folder.now rows.now filled.items) }
    ensures unfilled { IfErr result (λ fault. (fault ≡ OutOfMemory) ⊎ FirstUnfilled (I.bytes_at inputs.old) folder.now 0 rows.now fault) }
    ensures same { (path : List ℕ) → I.bytes_at inputs.new path ≡ I.bytes_at inputs.old path }
{
    let mut filled = Vec::new(alloc);
    for entry in 0..rows.len() {
        filled.push(fill(alloc, entry, &rows[entry], folder, inputs)?)?;
    }
    Ok(filled)
}

/// Appends the fault of each row whose file gives nothing. The only error is out of memory.
pub(crate) fn push_unfilled<I: Inputs>(
    alloc: Global,
    rows: &[Row],
    folder: &[u8],
    inputs: &mut I,
    faults: &mut Vec<StartFault>,
) -> Result<(), AllocError>
    ensures faults { OnOk result ((unfilled : List StartFault) × (AreUnfilled (I.bytes_at inputs.old) folder.now 0 rows.now unfilled × (faults.new.items ≡ faults.old.items ++ unfilled))) }
    ensures same { (path : List ℕ) → I.bytes_at inputs.new path ≡ I.bytes_at inputs.old path }
{
    for entry in 0..rows.len() {
        let fault = unfilled(alloc, entry, &rows[entry], folder, inputs)?;
        push_if(fault, faults)?;
    }
    Ok(())
}

// The fault of a row whose file gives nothing.
#[tactic(auto, using(crate::proofs::Unfilled::row_fault))]
fn unfilled<I: Inputs>(
    alloc: Global,
    entry: usize,
    row: &Row,
    folder: &[u8],
    inputs: &mut I,
) -> Result<Option<StartFault>, AllocError>
    ensures fault { IfOk result (IsFaultOfRow (I.bytes_at inputs.old) folder.now entry row.now) }
    ensures same { (path : List ℕ) → I.bytes_at inputs.new path ≡ I.bytes_at inputs.old path }
{
    match fill(alloc, entry, row, folder, inputs) {
        Ok(_) => Ok(None),
        Err(StartFault::OutOfMemory) => Err(AllocError),
        Err(fault) => Ok(Some(fault)),
    }
}

// The row of an entry with what its file holds, in the place of the file.
#[tactic(auto, unfolding(crate::specs::Filling::FillsRow, crate::specs::Filling::CannotFill))]
fn fill<I: Inputs>(
    alloc: Global,
    entry: usize,
    row: &Row,
    folder: &[u8],
    inputs: &mut I,
) -> Result<Row, StartFault>
    ensures filled { IfOk result (λ filled. FillsRow (I.bytes_at inputs.old) folder.now row.now filled) }
    ensures unfilled { IfErr result (λ fault. (fault ≡ OutOfMemory) ⊎ CannotFill (I.bytes_at inputs.old) folder.now entry row.now fault) }
    ensures same { (path : List ℕ) → I.bytes_at inputs.new path ≡ I.bytes_at inputs.old path }
{
    let mut filled = row.copy()?;
    if let Some(path) = &row.file {
        let path = placed(alloc, folder, path.list())?;
        filled.credential = credential_in(alloc, entry, &path, inputs)?;
        filled.file = None;
    }
    Ok(filled)
}

/// The credential that the file at a path holds, which starts at `folder` where it does not begin with `/`.
///
/// The error is that it gives none, or lack of memory.
pub(crate) fn credential_at<I: Inputs>(
    alloc: Global,
    folder: &[u8],
    path: &[u8],
    inputs: &mut I,
) -> Result<Text, StartFault>
    ensures held { IfOk result (λ credential. FileHolds (I.bytes_at inputs.old) (placed folder.now path.now) credential) }
    ensures wanted { IfErr result (λ fault. (fault ≡ OutOfMemory) ⊎ FillingFails (I.bytes_at inputs.old) (placed folder.now path.now) 0 fault) }
    ensures same { (other : List ℕ) → I.bytes_at inputs.new other ≡ I.bytes_at inputs.old other }
{
    let path = placed(alloc, folder, path)?;
    credential_in(alloc, 0, &path, inputs)
}

// The credential that the file at a path holds.
#[tactic(auto, using(crate::proofs::Filled::not_utf8))]
fn credential_in<I: Inputs>(
    alloc: Global,
    entry: usize,
    path: &[u8],
    inputs: &mut I,
) -> Result<Text, StartFault>
    ensures held { IfOk result (λ credential. FileHolds (I.bytes_at inputs.old) path.now credential) }
    ensures wanted { IfErr result (λ fault. (fault ≡ OutOfMemory) ⊎ FillingFails (I.bytes_at inputs.old) path.now entry fault) }
    ensures same { (other : List ℕ) → I.bytes_at inputs.new other ≡ I.bytes_at inputs.old other }
{
    let Ok(name) = std::str::from_utf8(path) else {
        return Err(StartFault::NoFile(entry));
    };
    match inputs.read(alloc, name, MOST_SECRET) {
        Ok(text) => credential_of(alloc, entry, text.list()),
        Err(InputFault::ReadFailed) => Err(StartFault::NoFile(entry)),
        Err(InputFault::TooLong) => Err(StartFault::NoSecret(entry)),
        Err(InputFault::OutOfMemory) => Err(StartFault::OutOfMemory),
    }
}

// The credential that a text is, without the white space around it.
fn credential_of(alloc: Global, entry: usize, text: &[u8]) -> Result<Text, StartFault>
    ensures held { IfOk result (λ credential. (credential ≡ stripped text.now) × (is_credential credential ≡ true)) }
    ensures wanted { IfErr result (λ fault. (fault ≡ OutOfMemory) ⊎ ((fault ≡ NoSecret entry) × (is_credential (stripped text.now) ≡ false))) }
{
    match state_secrets::credential_in(alloc, text)? {
        Some(credential) => Ok(credential),
        None => Err(StartFault::NoSecret(entry)),
    }
}
