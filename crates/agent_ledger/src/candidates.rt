//! What is looked up before a change is made that brings a credential.
ghost use Rattle.std.specs.Prelude.{◌≡◌, IfOk, IfSome};
ghost use Rattle.vault_proving.specs.Lookups.{IsCandidate};
ghost use Rattle.state_keeping.specs.States.{book_in};
ghost use Rattle.agent_ledger.specs.Candidates.{AreRowsOf, IsAlone, IsCandidateFor, IsCandidateOf, IsFileCandidate, alone_of, as_root, brought, row_with_credential};

use base_disk::Disk;
use base_moment::Text;
use plan_forest::Kind;
use state_changes::{ChangeKind, Row, Rows, rows_of};
use state_file::settle;
use state_keeping::State;
use std::alloc::{AllocError, Global};
use vault_inventory::read_served;
use vault_proving::Candidate;
use vault_served::read_for_good;

/// What is to be looked up before this change of the entry of that name is made: the entry by itself, and of a lease its token over it.
/// `None` where the change is refused, where it brings no credential, or none that stands in it, and where the token of a lease is not
/// served.
///
/// The only error is lack of memory, as which it counts where no file says the entry by itself.
pub(crate) fn candidate_of<D: Disk>(
    alloc: Global,
    state: &State<'_, D>,
    name: &[u8],
    what: &ChangeKind,
) -> Result<Option<Candidate>, AllocError>
    ensures found { IfOk result (IsCandidateFor (book_in state.now).file.margin (book_in state.now).rows (book_in state.now).text name.now what.now) }
    ensures entry { IfOk result (λ candidate. IfSome candidate IsCandidate) }
{
    let margin = state.file().margin;
    candidate_for(alloc, margin, state.rows(), state.text(), name, what)
}

/// The same before what a file holds is taken as the credential of the entry of that name. `None` where there is no such entry, and where
/// the token of a lease is not served.
pub(crate) fn candidate_of_file<D: Disk>(
    alloc: Global,
    state: &State<'_, D>,
    name: &[u8],
    credential: &Text,
) -> Result<Option<Candidate>, AllocError>
    ensures found { IfOk result (IsFileCandidate (book_in state.now).file.margin (book_in state.now).rows (book_in state.now).text name.now credential.now) }
    ensures entry { IfOk result (λ candidate. IfSome candidate IsCandidate) }
{
    let margin = state.file().margin;
    candidate_for_file(alloc, margin, state.rows(), state.text(), name, credential)
}

// `rows` are those of the file after every change, with that margin in seconds, and `text` says what is served now.
fn candidate_for(
    alloc: Global,
    margin: u32,
    rows: &Rows,
    text: &str,
    name: &[u8],
    what: &ChangeKind,
) -> Result<Option<Candidate>, AllocError>
    ensures found { IfOk result (IsCandidateFor margin rows.now text.now name.now what.now) }
    ensures entry { IfOk result (λ candidate. IfSome candidate IsCandidate) }
{
    if rows.refusal(margin, name, what).is_some() {
        return Ok(None);
    }
    let served = rows_in(alloc, text)?;
    let row = brought(&served, name, what)?;
    candidate_by(alloc, margin, &served, row, name)
}

// The same before what a file holds is taken.
fn candidate_for_file(
    alloc: Global,
    margin: u32,
    rows: &Rows,
    text: &str,
    name: &[u8],
    credential: &Text,
) -> Result<Option<Candidate>, AllocError>
    ensures found { IfOk result (IsFileCandidate margin rows.now text.now name.now credential.now) }
    ensures entry { IfOk result (λ candidate. IfSome candidate IsCandidate) }
{
    let served = rows_in(alloc, text)?;
    let row = row_with(rows, name, credential)?;
    candidate_by(alloc, margin, &served, row, name)
}

// What is to be looked up of a row that has its credential, where there is one, among those that are served.
fn candidate_by(
    alloc: Global,
    margin: u32,
    served: &Rows,
    row: Option<Row>,
    name: &[u8],
) -> Result<Option<Candidate>, AllocError>
    ensures found { IfOk result (IsCandidateOf margin served.now row name.now) }
    ensures entry { IfOk result (λ candidate. IfSome candidate IsCandidate) }
{
    let Some(row) = row else {
        return Ok(None);
    };
    match alone_of(alloc, served, row)? {
        None => Ok(None),
        Some(alone) => Ok(Some(candidate_in(alloc, margin, &alone, name)?)),
    }
}

// The rows of a text. One that cannot be read counts as lack of memory.
fn rows_in(alloc: Global, text: &str) -> Result<Rows, AllocError>
    ensures { IfOk result (λ rows. AreRowsOf text.now rows) }
{
    match read_served(alloc, text.as_bytes()) {
        Ok(served) => rows_of(alloc, &served),
        Err(_) => Err(AllocError),
    }
}

// The row that a change brings with its credential, where it brings one.
fn brought(rows: &Rows, name: &[u8], what: &ChangeKind) -> Result<Option<Row>, AllocError>
    ensures { IfOk result (λ row. row ≡ brought rows.now name.now what.now) }
{
    match what {
        ChangeKind::Replace(credential) => row_with(rows, name, credential),
        ChangeKind::Add(row) if row.file.is_none() => Ok(Some(row.copy()?)),
        ChangeKind::Add(_) | ChangeKind::Need(_) | ChangeKind::Drop => Ok(None),
    }
}

// The entry of that name with that credential, which stands in it.
fn row_with(rows: &Rows, name: &[u8], credential: &Text) -> Result<Option<Row>, AllocError>
    ensures { IfOk result (λ row. row ≡ row_with_credential rows.now name.now credential.now) }
{
    let Some(row) = rows.named(name) else {
        return Ok(None);
    };
    let mut row = row.copy()?;
    row.credential = credential.clone()?;
    row.file = None;
    Ok(Some(row))
}

// The row by itself, and of a lease its token over it, where that is there.
fn alone_of(alloc: Global, rows: &Rows, row: Row) -> Result<Option<Rows>, AllocError>
    ensures { IfOk result (λ alone. alone ≡ alone_of rows.now row) }
{
    let mut alone = Vec::new(alloc);
    match row.kind {
        Kind::Token => alone.push(as_root(row))?,
        Kind::Lease => {
            if let Some(parent) = &row.parent {
                let Some(token) = rows.named(parent.list()) else {
                    return Ok(None);
                };
                alone.push(as_root(token.copy()?))?;
            }
            alone.push(row)?;
        }
    }
    Ok(Some(Rows::of(alloc, alone)?))
}

fn as_root(mut row: Row) -> Row
    ensures { result ≡ as_root row }
{
    row.parent = None;
    row
}

// The entry of that name in the inventory of these rows. Where no file says them, that counts as lack of memory.
fn candidate_in(
    alloc: Global,
    margin: u32,
    rows: &Rows,
    name: &[u8],
) -> Result<Candidate, AllocError>
    ensures found { IfOk result (IsAlone margin rows.now name.now) }
    ensures entry { IfOk result IsCandidate }
{
    let Ok(settled) = settle(alloc, Some(margin), None, rows.list()) else {
        return Err(AllocError);
    };
    let Ok(inventory) = read_for_good(alloc, settled.text.as_bytes()) else {
        return Err(AllocError);
    };
    let Some(entry) = inventory.forest().find(name) else {
        return Err(AllocError);
    };
    Ok(Candidate { inventory, entry })
}
