ghost use Rattle.std.specs.Prelude.{◌≡◌, IfOk, option_map, option_copied, unwrap_or};
ghost use Rattle.toml.specs.View.{table_view};
ghost use Rattle.vault_inventory.specs.Answers.{GivesOrInvFault};
ghost use Rattle.vault_inventory.specs.Languages.{full};
ghost use Rattle.vault_inventory.specs.Needs.{is_for_good, until_of};
ghost use Rattle.vault_inventory.specs.Rows.{file_at, index_or_none, life_of_table, step_or, token_terms, lease_terms, token_row, lease_row};
ghost use Rattle.vault_inventory.specs.Values.{alone_if, has_if};

use crate::fault::InvFault;
use crate::key::Key;
use crate::known::{only_lease_keys, only_token_keys};
use crate::limits::{SPAN_MAX, STEP_ABSENT};
use crate::need::Need;
use crate::note::EntryNote;
use crate::terms::{Terms, max_ttl};
use crate::value::{
    credential_at, end_at, flag_at, is_there, moment_at, need_at, path_at, span_at, text_at,
};
use base_moment::{Moment, Name, Span, Text};
use plan_forest::{Entry, Forest, Kind};
use std::alloc::{AllocError, Global};
use std::fmt;
use toml::Table;

/// What one table of an inventory writes: an entry, the credential that is sent for it, its terms, and what it leaves open.
#[derive(Drop)]
pub struct TableRow {
    pub entry: Entry,
    pub credential: Text,
    pub terms: Terms,
    pub note: EntryNote,
}

impl fmt::Debug for TableRow {
    /// Shows all but the credential, which is secret.
    fn fmt<W: fmt::Write>(&self, f: &mut fmt::Formatter<W>) -> fmt::Result {
        f.debug_struct("Row")
            .field("entry", &self.entry)
            .field("terms", &self.terms)
            .field("note", &self.note)
            .finish_non_exhaustive()
    }
}

/// The issue and the end of an entry, and whether it can be renewed. Where issue and end are left open, both are 0.
#[derive(Clone, Copy, Debug)]
pub struct Life {
    pub issued: Moment,
    pub end: u64,
    pub renewable: bool,
    pub is_told: bool,
}

/// The row that the table of the next token writes, whose index is the number of entries so far.
#[tactic(auto, unfolding(crate::specs::Rows::token_row))]
pub fn token_row(
    alloc: Global,
    system_max: Span,
    forest: &Forest,
    table: &Table,
) -> Result<TableRow, InvFault>
    ensures { GivesOrInvFault (λ row. row) result (token_row full system_max forest.now (table_view table.now)) }
{
    let index = forest.len();
    only_token_keys(table, index)?;
    let name = text_at(table, Some(index), Key::Name)?.ok_or(InvFault::MissingKey(
        index,
        Key::Name,
    ))?;
    let parent = text_at(table, Some(index), Key::Parent)?;
    let life = read_life(table, index)?;
    let terms = token_terms(table, system_max, index, life.issued)?;
    let need = need_at(table, Some(index), Key::Need)?;
    let secret = credential_at(table, Some(index), Key::Secret)?;
    let file = file_at(table, index, Key::SecretFile, secret.is_some())?;
    Ok(TableRow {
        entry: Entry {
            name: Name::of(alloc, name.as_bytes())?,
            kind: Kind::Token,
            parent: parent_index(forest, parent),
            end: life.end,
            renewable: life.renewable,
            step: terms.step(),
            ceiling: terms.ceiling(),
            need: until_of(need),
        },
        credential: Text::of(alloc, text_or(secret, name).as_bytes())?,
        terms,
        note: EntryNote {
            is_told: life.is_told,
            is_always: is_for_good(need),
            file: owned(alloc, file)?,
        },
    })
}

/// The row that the table of the next lease writes, whose index is the number of entries so far.
#[tactic(auto, unfolding(crate::specs::Rows::lease_row))]
pub fn lease_row(
    alloc: Global,
    system_max: Span,
    forest: &Forest,
    table: &Table,
) -> Result<TableRow, InvFault>
    ensures { GivesOrInvFault (λ row. row) result (lease_row full system_max forest.now (table_view table.now)) }
{
    let index = forest.len();
    only_lease_keys(table, index)?;
    let name = text_at(table, Some(index), Key::Name)?.ok_or(InvFault::MissingKey(
        index,
        Key::Name,
    ))?;
    let token = text_at(table, Some(index), Key::Token)?.ok_or(InvFault::MissingKey(
        index,
        Key::Token,
    ))?;
    let life = read_life(table, index)?;
    let terms = lease_terms(table, system_max, index, life.issued)?;
    let need = need_at(table, Some(index), Key::Need)?;
    let lease_id = credential_at(table, Some(index), Key::LeaseId)?;
    let file = file_at(table, index, Key::LeaseIdFile, lease_id.is_some())?;
    Ok(TableRow {
        entry: Entry {
            name: Name::of(alloc, name.as_bytes())?,
            kind: Kind::Lease,
            parent: Some(index_or_none(forest, token)),
            end: life.end,
            renewable: life.renewable,
            step: terms.step(),
            ceiling: terms.ceiling(),
            need: until_of(need),
        },
        credential: Text::of(alloc, text_or(lease_id, name).as_bytes())?,
        terms,
        note: EntryNote {
            is_told: life.is_told,
            is_always: is_for_good(need),
            file: owned(alloc, file)?,
        },
    })
}

// The moment of a need, 0 where it has none of its own.
fn until_of(need: Option<Need>) -> u64
    ensures { result ≡ until_of need }
{
    match need {
        None => 0,
        Some(need) => need.until(),
    }
}

fn is_for_good(need: Option<Need>) -> bool
    ensures { result ≡ is_for_good need }
{
    match need {
        None => false,
        Some(need) => need.is_always(),
    }
}

// The path of the file that holds a credential, which may not be written beside the credential itself.
fn file_at(
    table: &Table,
    index: u32,
    key: Key,
    has_credential: bool,
) -> Result<Option<&str>, InvFault>
    ensures { GivesOrInvFault option_copied result (file_at index key has_credential (table_view table.now)) }
{
    let file = path_at(table, Some(index), key)?;
    alone_if(has_credential, index, key, file.is_some())?;
    Ok(file)
}

// Refuses a key that stands beside another and may not.
fn alone_if(beside: bool, index: u32, key: Key, here: bool) -> Result<(), InvFault>
    ensures { result ≡ alone_if beside index key here }
{
    if beside && here {
        Err(InvFault::BadValue(Some(index), key))
    } else {
        Ok(())
    }
}

// Refuses a table without a key that has to be there.
fn has_if(must: bool, index: u32, key: Key, here: bool) -> Result<(), InvFault>
    ensures { result ≡ has_if must index key here }
{
    if must && !here {
        Err(InvFault::MissingKey(index, key))
    } else {
        Ok(())
    }
}

// A text of its own.
fn owned(alloc: Global, text: Option<&str>) -> Result<Option<Text>, AllocError>
    ensures { IfOk result (λ owned. owned ≡ option_copied text.entry) }
{
    match text {
        None => Ok(None),
        Some(text) => Ok(Some(Text::of(alloc, text.as_bytes())?)),
    }
}

// The index of the entry of that name, or one that no entry has.
#[tactic(auto, unfolding(crate::specs::Rows::index_or_none))]
fn index_or_none(forest: &Forest, name: &str) -> u32
    ensures { result ≡ index_or_none forest.now name.now }
{
    forest.find(name.as_bytes()).unwrap_or(forest.len())
}

// The same of a parent, if one is named.
fn parent_index(forest: &Forest, parent: Option<&str>) -> Option<u32>
    ensures { result ≡ option_map (index_or_none forest.now) (option_copied parent.entry) }
{
    match parent {
        None => None,
        Some(name) => Some(index_or_none(forest, name)),
    }
}

// The text that is written, or the name.
fn text_or<'a>(written: Option<&'a str>, name: &'a str) -> &'a str
    ensures { result.now ≡ unwrap_or (option_copied written.entry) name.now }
{
    match written {
        None => name,
        Some(text) => text,
    }
}

// Issue, end, and whether it can be renewed. Issue and end may both be left out.
#[tactic(auto, unfolding(crate::specs::Rows::life_of_table))]
fn read_life(table: &Table, index: u32) -> Result<Life, InvFault>
    ensures { result ≡ life_of_table full index (table_view table.now) }
{
    let issued = moment_at(table, Some(index), Key::Issued)?;
    let has_end = is_there(table, Key::End);
    has_if(has_end, index, Key::Issued, issued.is_some())?;
    let end = end_at(table, Some(index), Key::End)?;
    has_if(issued.is_some(), index, Key::End, end.is_some())?;
    let renewable = flag_at(table, Some(index), Key::Renewable)?;
    Ok(Life {
        issued: or_first(issued),
        end: end.unwrap_or(0),
        renewable: renewable.unwrap_or(true),
        is_told: issued.is_some(),
    })
}

// The moment, or the first one, 0, where there is none.
fn or_first(moment: Option<Moment>) -> Moment
    ensures { result ≡ unwrap_or moment 0 }
{
    match moment {
        None => Moment::new(0).unwrap(),
        Some(moment) => moment,
    }
}

// What is asked for where there is no period.
fn step_or(increment: Option<Span>, period: Span) -> Option<Span>
    ensures { result ≡ step_or increment period }
{
    if period == 0 {
        Some(increment.unwrap_or(STEP_ABSENT))
    } else {
        increment
    }
}

// The terms of a token.
#[tactic(auto, unfolding(crate::specs::Rows::token_terms))]
fn token_terms(
    table: &Table,
    system_max: Span,
    index: u32,
    issued: Moment,
) -> Result<Terms, InvFault>
    ensures { result ≡ token_terms full system_max index issued (table_view table.now) }
{
    let increment = span_at(table, Some(index), Key::Increment, 0, SPAN_MAX)?;
    let period = span_at(table, Some(index), Key::Period, 0, SPAN_MAX)?.unwrap_or(0);
    let longest = span_at(table, Some(index), Key::MaxTtl, 0, SPAN_MAX)?;
    let explicit_max = span_at(table, Some(index), Key::ExplicitMaxTtl, 0, SPAN_MAX)?;
    let reissued = flag_at(table, Some(index), Key::Reissued)?;
    Ok(Terms {
        issued,
        increment: step_or(increment, period),
        period,
        max_ttl: max_ttl(system_max, longest),
        explicit_max: explicit_max.unwrap_or(0),
        reissued: reissued.unwrap_or(false),
    })
}

// The terms of a lease.
#[tactic(auto, unfolding(crate::specs::Rows::lease_terms))]
fn lease_terms(
    table: &Table,
    system_max: Span,
    index: u32,
    issued: Moment,
) -> Result<Terms, InvFault>
    ensures { result ≡ lease_terms full system_max index issued (table_view table.now) }
{
    let increment = span_at(table, Some(index), Key::Increment, 0, SPAN_MAX)?;
    let longest = span_at(table, Some(index), Key::MaxTtl, 0, SPAN_MAX)?;
    let reissued = flag_at(table, Some(index), Key::Reissued)?;
    Ok(Terms {
        issued,
        increment: Some(increment.unwrap_or(STEP_ABSENT)),
        period: 0,
        max_ttl: max_ttl(system_max, longest),
        explicit_max: 0,
        reissued: reissued.unwrap_or(false),
    })
}
