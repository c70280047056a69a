//! What is legal in an inventory and probably not meant.
ghost use Rattle.std.specs.Prelude.{◌≡◌, ◌++◌, ◌<◌, ◌≤◌, ◌+◌, ◌*◌, IfOk, OnOk, length};
ghost use Rattle.vault_lint.specs.Doubts.{doubt_list, doubts, doubts_of_first, entry_doubts, falls_due, fullest_of_first, has_need_after, is_long, one_if, round_doubt, told, told_of, whole_doubt, whole_list};

use crate::entry_doubts::entry_list;
use crate::subject::Subject;
use crate::what::{Doubt, EntryDoubt, Whole};
use std::alloc::{AllocError, Global};

/// How many requests go out side by side, unless the command line says otherwise.
const WIDTH: u64 = 8;

/// All doubts: that of the whole, that of the fullest round, and those of each entry. The only error is lack of memory.
#[tactic(auto, unfolding(crate::specs::Doubts::doubts))]
pub fn doubts(alloc: Global, subject: &Subject) -> Result<Vec<Doubt>, AllocError>
    ensures { IfOk result (λ found. found.items ≡ doubts subject.now) }
{
    let mut found = Vec::new(alloc);
    let whole = whole_doubt(subject);
    push_whole(whole, &mut found)?;
    push_round(round_doubt(subject), &mut found)?;
    push_entries(subject, whole, &mut found)?;
    Ok(found)
}

fn push_whole(whole: Option<Whole>, found: &mut Vec<Doubt>) -> Result<(), AllocError>
    ensures { OnOk result (found.new.items ≡ found.old.items ++ whole_list whole) }
{
    match whole {
        None => Ok(()),
        Some(whole) => Ok(found.push(Doubt::Whole(whole))?),
    }
}

fn push_round(doubt: Option<Doubt>, found: &mut Vec<Doubt>) -> Result<(), AllocError>
    ensures { OnOk result (found.new.items ≡ found.old.items ++ doubt_list doubt) }
{
    match doubt {
        None => Ok(()),
        Some(doubt) => Ok(found.push(doubt)?),
    }
}

// The doubt of all entries together.
#[tactic(auto, unfolding(crate::specs::Doubts::whole_doubt))]
fn whole_doubt(subject: &Subject) -> Option<Whole>
    ensures { result ≡ whole_doubt subject.now }
{
    if subject.inventory.forest().len() == 0 {
        Some(Whole::NoEntries)
    } else if !has_need_after(subject, 0) {
        Some(Whole::NoNeeds)
    } else if !has_need_after(subject, subject.at.get()) {
        Some(Whole::AllPast)
    } else {
        None
    }
}

// Whether some entry is needed past a moment.
fn has_need_after(subject: &Subject, moment: u64) -> bool
    ensures { result ≡ has_need_after subject.now.inventory.forest.entries moment (length subject.now.inventory.forest.entries) }
{
    let mut has = false;
    for index in 0..subject.inventory.forest().len() {
        has = has || subject.inventory.forest().get(index).need > moment;
    }
    has
}

// The doubt of the fullest round, where a margin is written.
#[tactic(auto, unfolding(crate::specs::Doubts::round_doubt))]
fn round_doubt(subject: &Subject) -> Option<Doubt>
    ensures { result ≡ round_doubt subject.now }
{
    let count = fullest(subject);
    let margin = subject.inventory.forest().margin();
    if subject.served.has_margin() && is_long(margin, subject.timeout, count) {
        Some(Doubt::LongRound(count))
    } else {
        None
    }
}

// Whether so many requests, some side by side and each as slow as it may be, take longer than the margin.
fn is_long(margin: u32, timeout: u32, count: u64) -> bool
    requires { count ≤ 4096 }
    ensures { result ≡ is_long margin timeout count }
{
    u64::from(margin) < (count + (WIDTH - 1)) / WIDTH * u64::from(timeout)
}

// How many entries may fall due at once: those that are needed and can be renewed.
fn fullest(subject: &Subject) -> u64
    ensures value { result ≡ fullest_of_first subject.now (length subject.now.inventory.forest.entries) }
    ensures within { result ≤ 4096 }
{
    let mut count = 0;
    for index in 0..subject.inventory.forest().len() {
        count += one_if(falls_due(subject, index));
    }
    count
}

fn one_if(holds: bool) -> u64
    ensures value { result ≡ one_if holds }
    ensures within { result ≤ 1 }
{
    if holds { 1 } else { 0 }
}

// Whether an entry is needed and can be renewed.
fn falls_due(subject: &Subject, index: u32) -> bool
    requires { index < length subject.now.inventory.forest.entries }
    ensures { result ≡ falls_due subject.now index }
{
    subject.carried.need(index) > subject.at.get()
        && subject.inventory.forest().get(index).renewable
}

// Appends the doubts of each entry.
fn push_entries(
    subject: &Subject,
    whole: Option<Whole>,
    found: &mut Vec<Doubt>,
) -> Result<(), AllocError>
    ensures { OnOk result (found.new.items ≡ found.old.items ++ doubts_of_first subject.now whole (length subject.now.inventory.forest.entries)) }
{
    for index in 0..subject.inventory.forest().len() {
        push_entry(subject, whole, index, found)?;
    }
    Ok(())
}

// Appends the doubts of one entry.
#[tactic(auto, unfolding(crate::specs::Doubts::entry_doubts))]
fn push_entry(
    subject: &Subject,
    whole: Option<Whole>,
    index: u32,
    found: &mut Vec<Doubt>,
) -> Result<(), AllocError>
    requires { index < length subject.now.inventory.forest.entries }
    ensures { OnOk result (found.new.items ≡ found.old.items ++ entry_doubts subject.now whole index) }
{
    push_told(index, &entry_list(subject, whole, index), found)
}

// Appends those of these that there are.
fn push_told(
    index: u32,
    whats: &[Option<EntryDoubt>],
    found: &mut Vec<Doubt>,
) -> Result<(), AllocError>
    ensures { OnOk result (found.new.items ≡ found.old.items ++ told index whats.now) }
{
    for at in 0..whats.len() {
        push_what(index, whats[at], found)?;
    }
    Ok(())
}

fn push_what(index: u32, what: Option<EntryDoubt>, found: &mut Vec<Doubt>) -> Result<(), AllocError>
    ensures { OnOk result (found.new.items ≡ found.old.items ++ told_of index what) }
{
    match what {
        None => Ok(()),
        Some(what) => Ok(found.push(Doubt::Of(index, what))?),
    }
}
