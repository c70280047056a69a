//! What is served of the file alone where its state folder cannot be used.
ghost use Rattle.std.specs.Prelude.{◌≡◌, ℕ, IfOk, IfSome, List, None, Some};
ghost use Rattle.agent_start.specs.Alone.{HoldsOrNot, IsFilledBook, IsServedUnkept, IsWrittenBook, ServesHeld};
ghost use Rattle.agent_system.specs.Refusals.{GivesOrRefuses};
ghost use Rattle.agent_system.specs.Whole.{folder_of};
ghost use Rattle.agent_start.specs.Starts.{IsServedOf};

use agent_system::{
    Inventories, ServedFile, Sources, folder_of, push_each, read_bytes, refuse_bytes, serve_bytes,
};
use agent_words::{About, Demands, Gathered, SaidLine, gather, wide};
use base_device::{Sink, Watched};
use base_files::Inputs;
use base_log::Level;
use base_moment::Text;
use program_report::{Exit, PROGRAM, Stop};
use state_file::SettleFault;
use state_store::{Book, FileFault};
use std::alloc::{AllocError, Global};
use vault_inventory::Inventory;

/// What is served of the file, with what the files hold that it names; or the exit, once it was told why the start is refused. As with
/// a folder, an entry whose file holds no credential waits with all under it, and that is said.
#[tactic(auto, using(crate::proofs::Alone::unkept_served))]
pub(crate) fn read_with_held<F, I, E>(
    alloc: Global,
    demands: Demands,
    sources: &mut Sources<'_, F, I>,
    said: &mut Vec<SaidLine>,
    errors: &mut E,
) -> Result<Inventories, Exit>
where
    F: ServedFile,
    I: Inputs,
    E: Sink,
    ensures told { GivesOrRefuses result (⟦<E as Watched>⟧.change errors.old errors.new) }
    ensures alone { IfOk result (λ i. demands.earlier ≡ 0 → i.again ≡ None) }
    ensures served { IfOk result (IsServedUnkept (F.bytes_at sources.old.files) (I.bytes_at sources.old.secrets) sources.old.file.now demands said.old.items said.new.items) }
{
    let bytes = read_bytes(alloc, sources.file, &mut sources.files, errors)?;
    match refuse_bytes(alloc, &bytes, demands, sources, errors) {
        Some(exit) => Err(exit),
        None => serve_held(alloc, &bytes, demands, sources, said, errors),
    }
}

/// The same of these bytes of the file. Where what the files hold does not go together the start is refused.
#[tactic(auto, using(crate::proofs::Alone::whole_after, crate::proofs::Alone::held_so))]
fn serve_held<F, I, E>(
    alloc: Global,
    bytes: &Text,
    demands: Demands,
    sources: &mut Sources<'_, F, I>,
    said: &mut Vec<SaidLine>,
    errors: &mut E,
) -> Result<Inventories, Exit>
where
    F: ServedFile,
    I: Inputs,
    E: Sink,
    ensures told { GivesOrRefuses result (⟦<E as Watched>⟧.change errors.old errors.new) }
    ensures alone { IfOk result (λ i. demands.earlier ≡ 0 → i.again ≡ None) }
    ensures served { IfOk result (ServesHeld (I.bytes_at sources.old.secrets) (folder_of sources.old.file.now) bytes.now demands said.old.items said.new.items) }
{
    let folder = folder_of(sources.file);
    match held(
        alloc,
        bytes.list(),
        demands,
        folder,
        &mut sources.secrets,
        said,
    ) {
        Ok(Some(inventories)) => Ok(inventories),
        Ok(None) => serve_bytes(alloc, bytes, demands, sources, errors),
        Err(AllocError) => Err(Stop::Memory.report(PROGRAM, errors)),
    }
}

/// What is served of these bytes with what the files hold that they name, and then it is said which hold none; `None` where that does
/// not go together. The only error is lack of memory.
#[tactic(auto, using(crate::proofs::Alone::is_held))]
fn held<I: Inputs>(
    alloc: Global,
    bytes: &[u8],
    demands: Demands,
    folder: &str,
    files: &mut I,
    said: &mut Vec<SaidLine>,
) -> Result<Option<Inventories>, AllocError>
    ensures alone { IfOk result (λ found. IfSome found (λ i. demands.earlier ≡ 0 → i.again ≡ None)) }
    ensures held { IfOk result (HoldsOrNot (I.bytes_at files.old) folder.now bytes.now demands said.old.items said.new.items) }
    ensures same { (path : List ℕ) → I.bytes_at files.new path ≡ I.bytes_at files.old path }
{
    let Some(mut book) = book_of(alloc, bytes)? else {
        return Ok(None);
    };
    let Some(unheld) = fill(alloc, folder, &mut book, files)? else {
        return Ok(None);
    };
    push_each(said, Level::Alert, About::SecretFile, unheld)?;
    Ok(Some(inventories_of(alloc, demands, &book)?))
}

/// The book of a file with these bytes, to which nothing was changed; `None` where what it writes does not fit into one file. The only
/// error is lack of memory.
#[tactic(auto, using(crate::proofs::Alone::is_written))]
fn book_of(alloc: Global, bytes: &[u8]) -> Result<Option<Book>, AllocError>
    ensures { IfOk result (λ found. IfSome found (IsWrittenBook bytes.now)) }
{
    match Book::read(alloc, bytes, &[], &[]) {
        Ok((book, _notes)) => Ok(Some(book)),
        Err(FileFault::OutOfMemory) => Err(AllocError),
        Err(_) => Ok(None),
    }
}

/// The book has from now on what the files hold that it names; what is said of those that hold no credential, or `None` where that does
/// not go together. The only error is lack of memory.
#[tactic(auto, using(crate::proofs::Alone::is_filled))]
fn fill<I: Inputs>(
    alloc: Global,
    folder: &str,
    book: &mut Book,
    files: &mut I,
) -> Result<Option<Vec<Text>>, AllocError>
    ensures filled { IfOk result (λ said. IfSome said (λ lines. IsFilledBook (I.bytes_at files.old) folder.now lines.items book.old book.new)) }
    ensures same { (path : List ℕ) → I.bytes_at files.new path ≡ I.bytes_at files.old path }
{
    let Gathered { secrets, said } = gather(alloc, book.rows().list(), folder.as_bytes(), files)?;
    match book.take_secrets(alloc, secrets) {
        Ok(()) => Ok(Some(said)),
        Err(SettleFault::OutOfMemory) => Err(AllocError),
        Err(_) => Ok(None),
    }
}

/// What is served by a book. The only error is lack of memory.
fn inventories_of(alloc: Global, demands: Demands, book: &Book) -> Result<Inventories, AllocError>
    ensures alone { IfOk result (λ i. demands.earlier ≡ 0 → i.again ≡ None) }
    ensures served { IfOk result (λ i. IsServedOf demands book.now.text i.served) }
    ensures named { IfOk result (λ i. i.named ≡ Some book.now.rows) }
{
    let served = inventory_of(alloc, demands, book)?;
    let again = if demands.earlier == 0 {
        None
    } else {
        inventory_of(alloc, demands, book).ok()
    };
    Ok(Inventories {
        served,
        again,
        named: Some(book.rows().copy(alloc)?),
    })
}

/// The inventory of a book, with the margin that is demanded. The only error is lack of memory.
#[tactic(auto, using(crate::proofs::Alone::is_served_of))]
fn inventory_of(alloc: Global, demands: Demands, book: &Book) -> Result<Inventory, AllocError>
    ensures { IfOk result (IsServedOf demands book.now.text) }
{
    wide(alloc, demands, book.text(), book.inventory(alloc)?)
}
