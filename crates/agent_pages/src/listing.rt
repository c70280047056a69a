//! The status as JSON.
ghost use Rattle.std.specs.Prelude.{◌≡◌, ◌++◌, IfOk, OnOk};
ghost use Rattle.vault_inventory.specs.Kinds.{kind_word};
ghost use Rattle.agent_pages.specs.Listing.{agent_numbers, board_row_text, listing_text, member_text, more_rows, numbers_text, rows_text, trouble_word, words_text};

use crate::board::{Board, BoardRow};
use crate::escapes::push_json_value;
use agent_standing::Trouble;
use base_words::push_number;
use plan_forest::Kind;
use std::alloc::{AllocError, Global};

/// How the agent and each entry stand, as JSON. The only error is out of memory.
#[tactic(auto, unfolding(crate::specs::Listing::listing_text))]
pub(crate) fn listing_text(alloc: Global, board: &Board) -> Result<Vec<u8>, AllocError>
    ensures { IfOk result (λ text. text.items ≡ listing_text board.now) }
{
    let mut text = Vec::new(alloc);
    text.extend_from_slice(b"{\"standby\":\"")?;
    text.extend_from_slice(board.surroundings.standby.word().as_bytes())?;
    push_agent_numbers(alloc, board, &mut text)?;
    text.extend_from_slice(b",\"entries\":[")?;
    push_rows(alloc, board.rows.list(), &mut text)?;
    text.extend_from_slice(b"]}\n")?;
    Ok(text)
}

/// Appends the numbers of the agent.
#[tactic(auto, unfolding(crate::specs::Listing::agent_numbers))]
fn push_agent_numbers(alloc: Global, board: &Board, text: &mut Vec<u8>) -> Result<(), AllocError>
    ensures { OnOk result (text.new.items ≡ text.old.items ++ agent_numbers board.now) }
{
    push_member(alloc, b"\",\"now\":", Some(board.broker_now), text)?;
    push_member(
        alloc,
        b",\"next_wake\":",
        board.surroundings.next_wake,
        text,
    )?;
    push_member(alloc, b",\"beginnings\":", Some(board.beginnings), text)?;
    push_member(alloc, b",\"margin\":", Some(u64::from(board.margin)), text)
}

/// Appends the entries, with commas between them.
#[tactic(auto, unfolding(crate::specs::Listing::rows_text))]
fn push_rows(alloc: Global, rows: &[BoardRow], text: &mut Vec<u8>) -> Result<(), AllocError>
    ensures { OnOk result (text.new.items ≡ text.old.items ++ rows_text rows.now) }
{
    match rows {
        [] => Ok(()),
        [row, more @ ..] => {
            push_row(alloc, row, text)?;
            push_more(alloc, more, text)
        }
    }
}

/// Appends entries, each after a comma.
fn push_more(alloc: Global, rows: &[BoardRow], text: &mut Vec<u8>) -> Result<(), AllocError>
    ensures { OnOk result (text.new.items ≡ text.old.items ++ more_rows rows.now) }
{
    for row in rows {
        text.extend_from_slice(b",")?;
        push_row(alloc, row, text)?;
    }
    Ok(())
}

/// Appends an entry.
#[tactic(auto, unfolding(crate::specs::Listing::board_row_text))]
fn push_row(alloc: Global, row: &BoardRow, text: &mut Vec<u8>) -> Result<(), AllocError>
    ensures { OnOk result (text.new.items ≡ text.old.items ++ board_row_text row.now) }
{
    push_words(row, text)?;
    push_numbers(alloc, row, text)
}

#[tactic(auto, unfolding(crate::specs::Listing::words_text))]
fn push_words(row: &BoardRow, text: &mut Vec<u8>) -> Result<(), AllocError>
    ensures { OnOk result (text.new.items ≡ text.old.items ++ words_text row.now) }
{
    text.extend_from_slice(b"{\"name\":\"")?;
    push_json_value(row.name.list(), text)?;
    text.extend_from_slice(b"\",\"kind\":\"")?;
    text.extend_from_slice(kind_word(row.kind).as_bytes())?;
    text.extend_from_slice(b"\",\"state\":\"")?;
    text.extend_from_slice(row.state.word().as_bytes())?;
    text.extend_from_slice(b"\",\"wrong\":")?;
    text.extend_from_slice(trouble_word(row.trouble).as_bytes())
}

#[tactic(auto, unfolding(crate::specs::Listing::numbers_text))]
fn push_numbers(alloc: Global, row: &BoardRow, text: &mut Vec<u8>) -> Result<(), AllocError>
    ensures { OnOk result (text.new.items ≡ text.old.items ++ numbers_text row.now) }
{
    push_member(alloc, b",\"end\":", row.end, text)?;
    push_member(alloc, b",\"need\":", Some(row.need), text)?;
    push_member(alloc, b",\"carried\":", Some(row.carried), text)?;
    push_member(alloc, b",\"in_force\":", Some(row.in_force), text)?;
    push_member(alloc, b",\"last_success\":", row.last_success, text)?;
    push_member(alloc, b",\"granted\":", Some(row.granted), text)?;
    push_member(alloc, b",\"refused\":", Some(row.refused), text)?;
    push_member(alloc, b",\"lost\":", Some(row.lost), text)?;
    text.extend_from_slice(b"}")
}

/// Appends the name of a member, with what stands around it, and a number.
#[tactic(auto, unfolding(crate::specs::Listing::member_text))]
fn push_member(
    alloc: Global,
    name: &[u8],
    number: Option<u64>,
    text: &mut Vec<u8>,
) -> Result<(), AllocError>
    ensures { OnOk result (text.new.items ≡ text.old.items ++ member_text name.now number) }
{
    text.extend_from_slice(name)?;
    match number {
        None => text.extend_from_slice(b"null"),
        Some(number) => push_number(alloc, number, text),
    }
}

fn kind_word(kind: Kind) -> &'static str
    ensures { result.now ≡ kind_word kind }
{
    match kind {
        Kind::Token => "token",
        Kind::Lease => "lease",
    }
}

fn trouble_word(trouble: Option<Trouble>) -> &'static str
    ensures { result.now ≡ trouble_word trouble }
{
    match trouble {
        None => "null",
        Some(Trouble::Lost) => "\"lost\"",
        Some(Trouble::Refused) => "\"refused\"",
        Some(Trouble::Gone) => "\"gone\"",
    }
}
