//! Why a change is not kept, or a file is not what is kept, in words for the one who asked.
ghost use Rattle.std.specs.Prelude.{◌≡◌, ◌++◌, IfOk, OnOk};
ghost use Rattle.plan_forest.specs.Push.{is_lease};
ghost use Rattle.program_report.specs.FaultLine.{inventory_words};
ghost use Rattle.agent_ledger.specs.Reasons.{bare_word, bare_words, book_words, left_over_words, settle_words, table_words, take_words, written_words};

use agent_words::{after, disk_words, inventory_words, unread_words};
use base_disk::DiskFault;
use base_moment::Text;
use plan_forest::Kind;
use program_report::tree_word;
use state_changes::{ChangeKind, Row};
use state_file::SettleFault;
use state_keeping::{SettleWhy, TableFault};
use state_notes::why;
use state_store::{FileFault, TakeFault};
use std::alloc::{AllocError, Global};
use vault_inventory::InvFault;

/// Why a change of the entry of that name is not taken, in an inventory of that margin in seconds. The only error is out of memory,
/// here and in what follows.
pub(crate) fn take_words(
    alloc: Global,
    margin: u32,
    name: &[u8],
    what: &ChangeKind,
    fault: TakeFault,
) -> Result<Text, AllocError>
    ensures { IfOk result (λ text. text ≡ take_words margin name.now what.now fault) }
{
    match fault {
        TakeFault::Unread => Text::of(alloc, b"a restart may read another file: reload it first"),
        TakeFault::NoRecord => Text::of(alloc, b"no journal can write it"),
        TakeFault::Refused(fault) => why(alloc, margin, name, what, fault),
        TakeFault::Unwritten(fault) => written_words(alloc, b"", fault),
        TakeFault::Disk(fault) => after(alloc, b"it cannot be kept: ", disk_words(fault)),
        TakeFault::Unsure(fault) => after(
            alloc,
            b"it may hold after a restart or not: ",
            disk_words(fault),
        ),
        TakeFault::OutOfMemory => Text::of(alloc, b"out of memory"),
    }
}

/// Why FILE does not become what is kept.
pub(crate) fn settle_words(alloc: Global, fault: SettleWhy) -> Result<Text, AllocError>
    ensures { IfOk result (λ text. text ≡ settle_words fault) }
{
    match fault {
        SettleWhy::Unread(fault) => unread_words(alloc, fault),
        SettleWhy::Changed => Text::of(
            alloc,
            b"the file has changed since it was read: reload it first",
        ),
        SettleWhy::Unwritten(fault) => written_words(alloc, b"", fault),
        SettleWhy::Disk(fault) => after(alloc, b"it cannot be written: ", disk_words(fault)),
        SettleWhy::OutOfMemory => Text::of(alloc, b"out of memory"),
    }
}

/// That FILE says all that is kept, but why the journal was left as it was.
pub(crate) fn left_over_words(alloc: Global, fault: DiskFault) -> Result<Text, AllocError>
    ensures { IfOk result (λ text. text ≡ left_over_words fault) }
{
    after(
        alloc,
        b"the file is written, but the journal is left as it was: ",
        disk_words(fault),
    )
}

/// Why a table is no entry.
pub(crate) fn table_words(alloc: Global, fault: TableFault) -> Result<Text, AllocError>
    ensures { IfOk result (λ text. text ≡ table_words fault) }
{
    match fault {
        TableFault::NotToml => Text::of(alloc, b"the table is no TOML"),
        TableFault::NotOne => Text::of(alloc, b"give one table [[token]] or [[lease]]"),
        TableFault::Missing(key) => after(
            alloc,
            key.text().as_bytes(),
            b": is not there; write it",
        ),
        TableFault::Unknown => Text::of(alloc, b"the table has a key that no entry has"),
        TableFault::Bad(key) => after(
            alloc,
            key.text().as_bytes(),
            b": is of the wrong type or out of range",
        ),
        TableFault::Tree(fault) => after(
            alloc,
            b"no inventory has such an entry: ",
            tree_word(fault).as_bytes(),
        ),
        TableFault::OutOfMemory => Text::of(alloc, b"out of memory"),
    }
}

/// That the entry of a row has no credential.
pub(crate) fn bare_words(alloc: Global, row: &Row) -> Result<Text, AllocError>
    ensures { IfOk result (λ text. text ≡ bare_words row.now) }
{
    let mut text = Vec::from_slice(alloc, row.name.list())?;
    text.extend_from_slice(bare_word(row.kind))?;
    Ok(Text::from_vec(text))
}

fn bare_word(kind: Kind) -> &'static [u8]
    ensures { result.now ≡ bare_word (is_lease kind) }
{
    match kind {
        Kind::Token => b": secret: is not written; write it",
        Kind::Lease => b": lease_id: is not written; write it",
    }
}

/// Why FILE is not served with the changes of the journal.
pub(crate) fn book_words(alloc: Global, fault: FileFault) -> Result<Text, AllocError>
    ensures { IfOk result (λ text. text ≡ book_words fault) }
{
    match fault {
        FileFault::Unread => Text::of(alloc, b"cannot be had"),
        FileFault::Faulty(fault) => inventory_words(alloc, fault),
        FileFault::Unwritten(fault) => {
            written_words(alloc, b"with the changes of the journal: ", fault)
        }
        FileFault::OutOfMemory => Text::of(alloc, b"out of memory"),
    }
}

// Words, and why no file says what there is.
fn written_words(alloc: Global, front: &[u8], fault: SettleFault) -> Result<Text, AllocError>
    ensures { IfOk result (λ text. text ≡ front.now ++ written_words fault) }
{
    let mut text = Vec::from_slice(alloc, front)?;
    match fault {
        SettleFault::TooLong => text.extend_from_slice(
            b"the inventory would be over 1048576 bytes, more than any program reads",
        )?,
        SettleFault::Refused(fault) => {
            push_after(alloc, b"it would be no inventory: ", fault, &mut text)?
        }
        SettleFault::Differs => text.extend_from_slice(b"no table writes such an entry")?,
        SettleFault::OutOfMemory => text.extend_from_slice(b"out of memory")?,
    }
    Ok(Text::from_vec(text))
}

// Appends words, and the first fault of an inventory.
fn push_after(
    alloc: Global,
    words: &[u8],
    fault: InvFault,
    text: &mut Vec<u8>,
) -> Result<(), AllocError>
    ensures { OnOk result (text.new.items ≡ text.old.items ++ (words.now ++ inventory_words fault)) }
{
    let said = inventory_words(alloc, fault)?;
    text.extend_from_slice(words)?;
    text.extend_from_slice(said.list())
}
